//! Turns in which no step can be played.
use super::plays::check_plays;

/// X is hit, and rolls double sixes: O's six point keeps him on the bar. Other entries are refused
/// where a pass is due. Before each entry of a short match a pass is refused.
const PLAYS: &str = "\
turn_is_passed, applied_on_the_bar: 1 by rules 2
open 2 1
move 13-11 6-5
roll 4 3
move 24-20 13-10
roll 6 6
actor: referee
move -> wrong phase
move 25-19 -> wrong phase
resign normal -> wrong phase
roll 6 6 -> wrong phase
double -> wrong phase
open 1 1 -> wrong phase
board: 25:1 24:2 13:4 11:1 8:3 6:4 / 24:1 20:1 13:4 10:1 8:3 6:5
pass
entries: 6
by 6: nobody
entry 6: pass
actor: O
phase: O acts
game: 1
pass -> wrong phase
board: 25:1 24:2 13:4 11:1 8:3 6:4 / 24:1 20:1 13:4 10:1 8:3 6:5

turn_without_steps_is_played, applied_on_the_bar: 1 by rules 1
open 2 1
move 13-11 6-5
roll 4 3
move 24-20 13-10
roll 6 6
actor: X
pass -> wrong phase
move
by 6: X
actor: O

turns_with_steps_are_played: 1 by rules 1
pass -> wrong phase
open 2 1
actor: X
pass -> wrong phase
move 13-11 6-5
actor: O
pass -> wrong phase
resign normal
actor: X
pass -> wrong phase
accept
actor: nobody
pass -> match over

turns_with_steps_are_played: 1 by rules 2
pass -> wrong phase
open 2 1
actor: X
pass -> wrong phase
move 13-11 6-5
actor: O
pass -> wrong phase
resign normal
actor: X
pass -> wrong phase
accept
actor: nobody
pass -> match over";

#[test]
fn turns_passed_and_played(rt: HostRuntime) {
    check_plays(&rt, PLAYS);
}
