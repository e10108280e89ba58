//! Lists of turns. The turns are worked out by hand.
use crate::boards::board;
use crate::checks::check_text;
use bg_board::{Die, Player};
use bg_table::legal_turns_text;
use bg_turns::Dice;
use std::alloc::Global;
use std::process::Abort;

/// Two dice, how many letters a line has, where the checkers of X and of O stand, and the list of
/// the turns of X.
type Row = (Die, Die, u16, &'static [&'static str; 3]);

fn check_list(rt: &impl Abort, alloc: Global, row: &Row) {
    let (first, second, columns, [x, o, wanted]) = *row;
    let board = board(rt, x, o);
    let dice = Dice { first, second };
    let text = legal_turns_text(alloc, &board, Player::X, dice, columns);
    check_text(rt, wanted, text, wanted);
}

static LISTS: [Row; 7] = [
    (
        Die::Two,
        Die::One,
        80,
        &["8:1 6:1", "1:15", "3 turns:\n 8-7 7-5  8-7 6-4  6-5 5-3\n"],
    ),
    (
        Die::Two,
        Die::One,
        17,
        &["8:1 6:1", "1:15", "3 turns:\n 8-7 7-5  8-7 6-4\n 6-5 5-3\n"],
    ),
    (
        Die::Two,
        Die::One,
        16,
        &[
            "8:1 6:1",
            "1:15",
            "3 turns:\n 8-7 7-5\n 8-7 6-4\n 6-5 5-3\n",
        ],
    ),
    (
        Die::Two,
        Die::One,
        0,
        &[
            "8:1 6:1",
            "1:15",
            "3 turns:\n 8-7 7-5\n 8-7 6-4\n 6-5 5-3\n",
        ],
    ),
    // A hit on 5 tells turns apart.
    (
        Die::Two,
        Die::One,
        20,
        &[
            "8:1 6:1",
            "20:1 1:14",
            "4 turns:\n 8-7 7-5*  8-7 6-4\n 6-5* 5-3  6-4 4-3\n",
        ],
    ),
    // All three legal turns lead to one position.
    (
        Die::Two,
        Die::One,
        80,
        &[
            "3:1 1:1",
            "1:15",
            "the only turn: 3-2 2-off (`m` plays it)\n",
        ],
    ),
    (
        Die::Six,
        Die::Five,
        80,
        &[
            "25:1",
            "6:2 5:2 1:11",
            "you can't move: `move` passes your turn\n",
        ],
    ),
];

#[test]
fn lists_of_turns(rt: HostRuntime) {
    for row in &LISTS {
        check_list(&rt, rt.alloc(), row);
    }
}
