//! What wins count.
use super::lines::level;
use super::sections::check_sections;
use crate::checks::check_row;
use crate::words::{board, parted, player};
use bg_board::{Board, Player};
use bg_match::{Level, level_of};
use std::process::Abort;

/// X bears off his last checker, while O has one on the bar: three times the cube of 2 win the
/// match of seven points. In other matches of seven points at 3-2 an offer is accepted.
const SECTIONS: &str = "\
match_won_by_a_backgammon, applied_as_the_match_ends: rules 1
7, 1:1 0:14 / 25:1 1:14, X moves 6 5, 2 O, 3-2, plain, 4; after move 1-0: 7, 0:15 / 25:1 1:14, X won, 2 O, 9-2, plain, 4
7, 0:15 / 25:1 1:14, X won, 2 O, 9-2, plain, 4; score: 9-2
7, 0:15 / 25:1 1:14, X won, 2 O, 9-2, plain, 4; phase: X won
7, 0:15 / 25:1 1:14, X won, 2 O, 9-2, plain, 4; length: 7
7, 0:15 / 25:1 1:14, X won, 2 O, 9-2, plain, 4; game: 4
7, 0:15 / 25:1 1:14, X won, 2 O, 9-2, plain, 4; mark: plain
7, 0:15 / 25:1 1:14, X won, 2 O, 9-2, plain, 4; cube: 2 O
7, 0:15 / 25:1 1:14, X won, 2 O, 9-2, plain, 4; actor: nobody

board_after_a_backgammon: rules 1
7, 0:15 / 25:1 1:14, X won, 2 O, 9-2, plain, 4; board: 0:15 / 25:1 1:14
7, 0:15 / 25:1 1:14, X won, 2 O, 9-2, plain, 4; open 3 1 -> match over

games_after_wins: rules 1
7, start, O resigned normal, 1, 3-2, plain, 4; after accept: 7, start, opening, 1, 4-2, plain, 5
7, start, O resigned backgammon, 1, 3-2, plain, 4; after accept: 7, start, opening, 1, 6-2, crawford, 5
7, start, X resigned gammon, 2 O, 3-2, plain, 4; after accept: 7, start, opening, 1, 3-6, crawford, 5";

#[test]
fn standings_after_wins(rt: HostRuntime) {
    check_sections(&rt, SECTIONS);
}

/// Whether the win of this player on a board counts so, if it is one.
fn is_level(board: &Board, player: Player, level: Option<Level>) -> bool {
    level_of(board, player) == level
}

/// Whether a row holds, as "X gammon: 0:15 / 1:14 18:1", which tells who wins on a board, and what
/// it counts; "none" is told where it is no win.
fn counts_so(rt: &impl Abort, row: &str) -> bool {
    let (win, points) = parted(rt, row, ": ");
    let (name, word) = parted(rt, win, " ");
    let expected = match word {
        "none" => None,
        _ => Some(level(rt, word)),
    };
    is_level(&board(rt, points), player(rt, name), expected)
}

/// X has fifteen off: what the win counts depends on where the checkers of O stand.
const LEVELS: &str = "\
X normal: 0:15 / 0:1 1:13 25:1
X none: start
X gammon: 0:15 / 1:14 18:1
X backgammon: 0:15 / 1:14 19:1
X backgammon: 0:15 / 25:1 1:14
O none: 0:15 / 25:1 1:14";

#[test]
fn levels_of_wins(rt: HostRuntime) {
    for row in LEVELS.lines() {
        check_row(&rt, row, counts_so(&rt, row));
    }
}
