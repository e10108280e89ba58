//! Standings from their parts.
use super::sections::check_sections;

/// In the games of standings it is whether the game of this number can begin at this score in a
/// match of nine points.
const SECTIONS: &str = "\
refused_doubles: rules 1
99, start, X acts, 128 X, 0-0, plain, 1; double -> no double: at cap
99, start, X acts, 128 O, 0-0, plain, 1; double -> no double: not owner
99, start, X acts, 1, 0-0, crawford, 1; double -> no double: crawford
99, start, X acts, 128 O, 0-0, crawford, 1; double -> no double: crawford
99, start, O is doubled, 128 X, 0-0, plain, 1; is none

cubes_of_standings: rules 1
99, start, O is doubled, 1, 0-0, plain, 1; is one
99, start, O is doubled, 1 X, 0-0, plain, 1; is none
99, start, O is doubled, 2, 0-0, plain, 1; is none
99, start, O is doubled, 2 X, 0-0, plain, 1; is one
99, start, O is doubled, 3 X, 0-0, plain, 1; is none
99, start, O is doubled, 64 X, 0-0, plain, 1; is one
99, start, O is doubled, 128 X, 0-0, plain, 1; is none
99, start, O is doubled, 0, 0-0, plain, 1; is none
99, start, opening, 128 X, 0-0, plain, 1; is one
99, start, opening, 129 X, 0-0, plain, 1; is none
99, start, opening, 255 X, 0-0, plain, 1; is none

scores_of_standings: rules 1
0, start, opening, 1, 0-0, plain, 1; is none
100, start, opening, 1, 0-0, plain, 1; is none
7, start, opening, 1, 6-6, plain, 1; is one
7, start, opening, 1, 7-6, plain, 1; is none
7, start, opening, 1, 6-7, plain, 1; is none
7, start, X won, 1, 6-0, plain, 1; is none
7, start, X won, 1, 7-7, plain, 1; is none
7, start, X won, 1, 7-6, plain, 1; is one
99, start, X won, 1, 482-98, plain, 1; is one
99, start, X won, 1, 483-98, plain, 1; is none

games_of_standings: rules 1
9, start, opening, 1, 0-0, plain, 0; is none
9, start, opening, 1, 0-0, plain, 1; is one
9, start, opening, 1, 0-0, plain, 2; is none
9, start, opening, 1, 1-2, plain, 4; is one
9, start, opening, 1, 1-2, plain, 5; is none

rejected_offers: rules 1
5, start, X acts, 1, 0-0, plain, 1; back after: resign gammon, reject
5, start, O moves 6 1, 1, 0-0, plain, 1; back after: resign gammon, reject
5, start, O moves 6 1, 1, 0-0, plain, 1; phase: O moves 6 1

passed_with_all_off: rules 2
5, 0:15 / 6:15, X moves 2 1, 1, 0-0, plain, 1; actor: referee
5, 0:15 / 6:15, X moves 2 1, 1, 0-0, plain, 1; move -> wrong phase
5, 0:15 / 6:15, X moves 2 1, 1, 0-0, plain, 1; after pass: 5, 0:15 / 6:15, O acts, 1, 0-0, plain, 1

passed_with_all_off: rules 1
5, 0:15 / 6:15, X moves 2 1, 1, 0-0, plain, 1; after move: 5, start, opening, 1, 2-0, plain, 2";

#[test]
fn parts_of_standings(rt: HostRuntime) {
    check_sections(&rt, SECTIONS);
}
