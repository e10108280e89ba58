//! The boards of standings.
use super::pictures::check_board;
use super::records::record;
use crate::checks::{check_told, text_of};
use bg_board::{Board, Player};
use bg_match::{Cube, Level, Phase, Rules, Standing};
use bg_text::{letter, level_word, put_phase};
use std::process::Abort;

const OF_A_RECORD: &str = "length 1 game 1 score 0-0 cube 1 middle crawford
  13  14  15  16  17  18  19  20  21  22  23  24
  X5   .   .   .  O3   .  O5   .   .   .   .  X2
  O5   .   .   .  X2   .  X4  X2   .   .   .  O2
  12  11  10   9   8   7   6   5   4   3   2   1
bar X 0 O 0 off X 0 O 0
O to roll
";

#[test]
fn board_of_a_record(rt: HostRuntime) {
    let standing = record(&rt, rt.alloc()).standing();
    check_board(&rt, rt.alloc(), &standing, OF_A_RECORD);
}

/// The checkers of X: one on the bar, twelve on his 6 point, and two off.
const OF_X: [u8; 26] = [
    2, 0, 0, 0, 0, 0, 12, 0, 0, 0, 0, 0, 0, 0, 0, 0, 0, 0, 0, 0, 0, 0, 0, 0, 0, 1,
];

/// The standing of the first game of a match of length 3 where X is to act, and O has these
/// checkers.
fn standing_of(rt: &impl Abort, o: &[u8; 26]) -> Standing {
    let board = Board::from_counts(OF_X, *o).expect(rt, "a board");
    let phase = Phase::ToAct(Player::X);
    let standing = Standing::from_parts(
        3,
        Rules::One,
        board,
        phase,
        Cube::MIDDLE,
        (0, 0),
        false,
        1,
    );
    standing.expect(rt, "a standing")
}

/// All fifteen on one point.
const ON_A_POINT: [u8; 26] = [
    0, 15, 0, 0, 0, 0, 0, 0, 0, 0, 0, 0, 0, 0, 0, 0, 0, 0, 0, 0, 0, 0, 0, 0, 0, 0,
];

const BOARD_OF_A_POINT: &str = "length 3 game 1 score 0-0 cube 1 middle
  13  14  15  16  17  18  19  20  21  22  23  24
   .   .   .   .   .   .   .   .   .   .   . O15
   .   .   .   .   .   . X12   .   .   .   .   .
  12  11  10   9   8   7   6   5   4   3   2   1
bar X 1 O 0 off X 2 O 0
X to roll
";

/// Three on the bar, and four off.
const ON_THE_BAR: [u8; 26] = [
    4, 0, 0, 0, 0, 0, 8, 0, 0, 0, 0, 0, 0, 0, 0, 0, 0, 0, 0, 0, 0, 0, 0, 0, 0, 3,
];

const BOARD_OF_THE_BAR: &str = "length 3 game 1 score 0-0 cube 1 middle
  13  14  15  16  17  18  19  20  21  22  23  24
   .   .   .   .   .   .  O8   .   .   .   .   .
   .   .   .   .   .   . X12   .   .   .   .   .
  12  11  10   9   8   7   6   5   4   3   2   1
bar X 1 O 3 off X 2 O 4
X to roll
";

#[test]
fn checkers_on_the_bar_and_off(rt: HostRuntime) {
    check_board(
        &rt,
        rt.alloc(),
        &standing_of(&rt, &ON_A_POINT),
        BOARD_OF_A_POINT,
    );
    check_board(
        &rt,
        rt.alloc(),
        &standing_of(&rt, &ON_THE_BAR),
        BOARD_OF_THE_BAR,
    );
}

static LEVELS: [(Level, &str); 3] = [
    (Level::Normal, "normal"),
    (Level::Gammon, "gammon"),
    (Level::Backgammon, "backgammon"),
];

fn check_what_is_next_stands_behind_other_words(rt: &(impl AllocGlobal + Abort)) {
    let standing = record(rt, rt.alloc()).standing();
    let mut text = Vec::from_slice(rt.alloc(), b"next: ").expect(rt, "memory");
    put_phase(&mut text, &standing).expect(rt, "memory");
    check_told(rt, "phase", text_of(&text), "next: O to roll");
    check_told(rt, "X", letter(Player::X), "X");
    check_told(rt, "O", letter(Player::O), "O");
    for &(level, word) in &LEVELS {
        check_told(rt, word, level_word(level), word);
    }
}

#[test]
fn what_is_next_stands_behind_other_words(rt: HostRuntime) {
    check_what_is_next_stands_behind_other_words(&rt);
}
