//! What is written and read of the rules: line 1, the header and the phase line. The expected texts
//! are those of the formats, worked out by hand.
use super::inputs::{LENGTH_OUT_OF_RANGE, NO_LENGTH};
use super::pictures::{START, check_board, check_drawings, check_each};
use crate::checks::{check_told, text_of};
use bg_board::{Board, Die, Player};
use bg_match::{Cube, Phase, Rules, Standing};
use bg_text::put_terms;
use bg_turns::Dice;
use std::alloc::Global;
use std::process::Abort;

pub(crate) const SECOND_HEADER: &str = "length 1 rules 2 game 1 score 0-0 cube 1 middle crawford";

/// Lines of another shape than that of a length line.
static LINES_THAT_NAME_NO_RULES: [&str; 20] = [
    "length 1 rules 1\n",
    "length 1 rules 02\n",
    "length 1 rules 2 \n",
    "length 1  rules 2\n",
    "length 1000 rules 2\n",
    "length 100 rules 3\n",
    "length 1 rules  2\n",
    "length  1 rules 2\n",
    " length 1 rules 2\n",
    "length 1 rules 2\r\n",
    "length 1 rules 2\0\n",
    "length 1 rules 22\n",
    "length 1 rules 2 rules 2\n",
    "length 1 rules\n",
    "length 1 rule 2\n",
    "length 1 Rules 2\n",
    "length 1rules 2\n",
    "length rules 2\n",
    "length  rules 2\n",
    "rules 2\n",
];

static LENGTHS_OUT_OF_RANGE: [&str; 5] = [
    "length 0 rules 2\n",
    "length 000 rules 2\n",
    "length 01 rules 2\nopen 3 1\n",
    "length 100 rules 2",
    "length 999 rules 2\n",
];

static LONE_LINES_OF_THE_SECOND_RULES: [[&str; 5]; 3] = [
    [
        "length 1 rules 2",
        SECOND_HEADER,
        START,
        "opening",
        "ok 0\nFine(0)",
    ],
    [
        "length 99 rules 2\n",
        "length 99 rules 2 game 1 score 0-0 cube 1 middle",
        START,
        "opening",
        "ok 0\nFine(0)",
    ],
    [
        "length 1 rules 2\n\n",
        SECOND_HEADER,
        START,
        "opening",
        "refused at line 2: not a line\nRefused(2)",
    ],
];

#[test]
fn first_lines(rt: HostRuntime) {
    check_each(&rt, rt.alloc(), &LINES_THAT_NAME_NO_RULES, NO_LENGTH);
    check_each(&rt, rt.alloc(), &LENGTHS_OUT_OF_RANGE, LENGTH_OUT_OF_RANGE);
    check_drawings(&rt, rt.alloc(), &LONE_LINES_OF_THE_SECOND_RULES);
}

/// Where the checkers of X stand, and of those of O the one that is not off.
const X_AT_HOME: [u8; 26] = [
    0, 1, 3, 2, 2, 2, 5, 0, 0, 0, 0, 0, 0, 0, 0, 0, 0, 0, 0, 0, 0, 0, 0, 0, 0, 0,
];

const O_ON_THE_BAR: [u8; 26] = [
    14, 0, 0, 0, 0, 0, 0, 0, 0, 0, 0, 0, 0, 0, 0, 0, 0, 0, 0, 0, 0, 0, 0, 0, 0, 1,
];

/// The standing of a match by these rules where O is to move a five and another die, with a checker
/// on the bar: a one alone lets it in.
fn standing_of(rt: &impl Abort, rules: Rules, second: Die) -> Standing {
    let first = Die::Five;
    let cube = Cube {
        value: 2,
        owner: Some(Player::X),
    };
    let phase = Phase::ToMove(Player::O, Dice { first, second });
    let board = Board::from_counts(X_AT_HOME, O_ON_THE_BAR).expect(rt, "a board");
    let standing = Standing::from_parts(3, rules, board, phase, cube, (1, 0), false, 2);
    standing.expect(rt, "a standing")
}

/// The rules, the die that is thrown beside a five, and the board.
static BOTH_RULES: [(Rules, Die, &str); 4] = [
    (
        Rules::One,
        Die::Four,
        "length 3 game 2 score 1-0 cube 2 X
  13  14  15  16  17  18  19  20  21  22  23  24
   .   .   .   .   .   .   .   .   .   .   .   .
   .   .   .   .   .   .  X5  X2  X2  X2  X3  X1
  12  11  10   9   8   7   6   5   4   3   2   1
bar X 0 O 1 off X 0 O 14
O to move 5 4
",
    ),
    (
        Rules::Two,
        Die::Four,
        "length 3 rules 2 game 2 score 1-0 cube 2 X
  13  14  15  16  17  18  19  20  21  22  23  24
   .   .   .   .   .   .   .   .   .   .   .   .
   .   .   .   .   .   .  X5  X2  X2  X2  X3  X1
  12  11  10   9   8   7   6   5   4   3   2   1
bar X 0 O 1 off X 0 O 14
O to pass 5 4
",
    ),
    (
        Rules::One,
        Die::One,
        "length 3 game 2 score 1-0 cube 2 X
  13  14  15  16  17  18  19  20  21  22  23  24
   .   .   .   .   .   .   .   .   .   .   .   .
   .   .   .   .   .   .  X5  X2  X2  X2  X3  X1
  12  11  10   9   8   7   6   5   4   3   2   1
bar X 0 O 1 off X 0 O 14
O to move 5 1
",
    ),
    (
        Rules::Two,
        Die::One,
        "length 3 rules 2 game 2 score 1-0 cube 2 X
  13  14  15  16  17  18  19  20  21  22  23  24
   .   .   .   .   .   .   .   .   .   .   .   .
   .   .   .   .   .   .  X5  X2  X2  X2  X3  X1
  12  11  10   9   8   7   6   5   4   3   2   1
bar X 0 O 1 off X 0 O 14
O to move 5 1
",
    ),
];

#[test]
fn boards_of_both_rules(rt: HostRuntime) {
    for &(rules, second, wanted) in &BOTH_RULES {
        let standing = standing_of(&rt, rules, second);
        check_board(&rt, rt.alloc(), &standing, wanted);
    }
}

/// A length and rules are put so behind other words.
fn check_terms(rt: &impl Abort, alloc: Global, rules: Rules, words: &str) {
    let mut text = Vec::from_slice(alloc, b"a ").expect(rt, "memory");
    put_terms(&mut text, 25, rules).expect(rt, "memory");
    check_told(rt, words, text_of(&text), words);
}

#[test]
fn lengths_and_rules_in_words(rt: HostRuntime) {
    check_terms(&rt, rt.alloc(), Rules::One, "a length 25");
    check_terms(&rt, rt.alloc(), Rules::Two, "a length 25 rules 2");
}
