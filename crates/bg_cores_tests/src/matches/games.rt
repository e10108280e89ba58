//! Games with the cube.
use super::plays::check_plays;

const PLAYS: &str = "\
crawford_game, applied_around_crawford: 3 by rules 1
open 1 3
resign gammon
accept
open 3 1
move 8-5 6-5
stands: 3, opened, O acts, 1, 2-0, crawford, 2
double -> no double: crawford
by 2: O
by 3: X

after_the_crawford_game: 3 by rules 1
open 1 3
resign gammon
accept
open 3 1
resign normal
accept
open 3 1
move 8-5 6-5
double
stands: 3, opened, X is doubled, 1, 2-1, plain, 3
entries: 9

applied_around_crawford: 3 by rules 1
open 1 3
resign gammon
accept
open 3 1
resign normal
accept
open 3 1
move 8-5 6-5
double
drop

doubles_taken, applied_with_a_cube: 5 by rules 1
open 3 1
stands: 5, start, X moves 3 1, 1, 0-0, plain, 1
move 8-5 6-5
stands: 5, opened, O acts, 1, 0-0, plain, 1
double
stands: 5, opened, X is doubled, 1, 0-0, plain, 1
take
stands: 5, opened, O acts, 2 X, 0-0, plain, 1
roll 3 1
stands: 5, opened, O moves 3 1, 2 X, 0-0, plain, 1
move 8-5 6-5
stands: 5, both opened, X acts, 2 X, 0-0, plain, 1
double
stands: 5, both opened, O is doubled, 2 X, 0-0, plain, 1
take
stands: 5, both opened, X acts, 4 O, 0-0, plain, 1

doubles_dropped, applied_with_a_cube: 5 by rules 1
open 3 1
move 8-5 6-5
double
take
roll 3 1
move 8-5 6-5
double
copy
drop
stands: 5, start, opening, 1, 2-0, plain, 2
by 8: O";

#[test]
fn games_with_the_cube(rt: HostRuntime) {
    check_plays(&rt, PLAYS);
}
