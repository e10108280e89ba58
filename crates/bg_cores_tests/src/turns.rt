//! Worked positions.
mod listings;

use crate::checks::{check_number, check_printed, check_row};
use crate::words::{board, dice, parted, small_number, turn};
use bg_board::{Board, Player};
use bg_turns::{Dice, Turn, TurnFault, dice_of, judge_turn, most};
use std::process::Abort;

/// X's last checker may play a 6 or a 5, but not both.
const EITHER_DIE: &str = "20:1 0:14 / 16:2 0:13";

/// X's last checker may play three 4s, but not a fourth.
const THREE_FOURS: &str = "20:1 0:14 / 21:2 0:13";

/// X has a checker on the bar, which cannot enter by a 6.
const SHUT_OUT: &str = "25:1 24:1 13:5 8:3 6:5 / 24:2 13:5 8:3 6:5";

/// What a turn of X is refused for.
fn fault_of_turn(board: &Board, dice: Dice, turn: &Turn) -> Option<TurnFault> {
    judge_turn(board, Player::X, dice, turn).err()
}

fn is_copied(turn: &Turn) -> bool {
    turn.copy() == *turn
}

/// What is said of a turn: "legal", "more", "larger", or how many steps at its front can be played.
fn fault(rt: &impl Abort, said: &str) -> Option<TurnFault> {
    match said {
        "legal" => None,
        "more" => Some(TurnFault::MoreCanBePlayed),
        "larger" => Some(TurnFault::LargerMustBePlayed),
        _ => Some(TurnFault::StepIllegal(small_number(rt, said))),
    }
}

/// Whether a turn of X is refused for this, if for anything, and is copied.
fn is_told(board: &Board, dice: Dice, turn: &Turn, fault: Option<TurnFault>) -> bool {
    fault_of_turn(board, dice, turn) == fault && is_copied(turn)
}

/// Whether a row holds of a turn of X: its steps, and what is said of it.
fn is_judged(rt: &impl Abort, board: &Board, dice: Dice, row: &str) -> bool {
    let (steps, said) = parted(rt, row, ": ");
    let fault = fault(rt, said);
    is_told(board, dice, &turn(rt, steps), fault)
}

/// The rows hold of turns of X with these dice.
fn check_turns(rt: &impl Abort, points: &str, throw: &str, rows: &str) {
    let board = board(rt, points);
    let dice = dice(rt, throw);
    for row in rows.lines() {
        check_row(rt, row, is_judged(rt, &board, dice, row));
    }
}

const TURNS: &str = "\
8-5 6-5: legal
8-7 8-5: legal
8-5: more
8-5 6-4: 1
8-5 6-5 24-23: 2";

#[test]
fn turns_of_x(rt: HostRuntime) {
    check_turns(&rt, "start", "3 1", TURNS);
}

const LAST_TURNS: &str = "\
2-0: legal
2-1 1-0: legal
2-1: more";

#[test]
fn last_turns_of_x(rt: HostRuntime) {
    check_turns(&rt, "2:1 0:14 / 1:15", "6 1", LAST_TURNS);
}

#[test]
fn turns_of_few_steps(rt: HostRuntime) {
    check_turns(&rt, EITHER_DIE, "6 5", "20-14: legal\n20-15: larger");
    check_turns(&rt, SHUT_OUT, "6 6", ": legal\n24-18: 0");
}

/// How many dice X can play at most.
fn most_of_x(board: &Board, dice: Dice) -> u8 {
    most(board, Player::X, dice)
}

/// X can play so many dice at most.
fn check_most(rt: &impl Abort, points: &str, throw: &str, number: u8) {
    let found = most_of_x(&board(rt, points), dice(rt, throw));
    check_row(rt, points, found == number);
}

#[test]
fn greatest_numbers(rt: HostRuntime) {
    check_most(&rt, "start", "3 1", 2);
    check_most(&rt, "start", "6 6", 4);
    check_most(&rt, THREE_FOURS, "4 4", 3);
    check_most(&rt, "3:1 1:1 0:13 / 1:15", "6 6", 2);
    check_most(&rt, EITHER_DIE, "6 5", 1);
    check_most(&rt, SHUT_OUT, "6 6", 0);
}

fn board_after(board: &Board, player: Player, dice: Dice, turn: &Turn) -> Option<Board> {
    judge_turn(board, player, dice, turn).ok()
}

/// The board after a turn of this player.
fn after(rt: &impl Abort, board: &Board, player: Player, throw: &str, steps: &str) -> Board {
    let dice = dice(rt, throw);
    let found = board_after(board, player, dice, &turn(rt, steps));
    found.expect(rt, "a turn")
}

const AFTER_BOTH: &str = "24:2 13:5 8:2 6:4 5:2 / 18:2 13:3 8:3 7:2 6:5";

#[test]
fn board_after_a_turn(rt: HostRuntime) {
    let after_x = after(&rt, &Board::start(), Player::X, "3 1", "8-5 6-5");
    let steps = "24-18 24-18 13-7 13-7";
    let after_o = after(&rt, &after_x, Player::O, "6 6", steps);
    check_row(&rt, AFTER_BOTH, after_o == board(&rt, AFTER_BOTH));
}

/// Whether a word has these dice.
fn has_dice(word: u32, dice: Option<Dice>) -> bool {
    dice_of(word) == dice
}

/// Words, and the dice that they have.
const WORDS: &str = "\
0: 1 1
8: 2 3
12: 3 1
35: 6 6
36: 1 1
4294967290: 6 5
4294967291: 6 6
4294967292: none
4294967293: none
4294967294: none
4294967295: none";

/// Whether a row of words holds.
fn tells_dice(rt: &impl Abort, row: &str) -> bool {
    let (word, shown) = parted(rt, row, ": ");
    let word = word.parse().expect(rt, "a word");
    match shown {
        "none" => has_dice(word, None),
        _ => has_dice(word, Some(dice(rt, shown))),
    }
}

/// The rows that end so hold, and there are so many.
fn check_words(rt: &impl Abort, are_dice: bool, count: usize) {
    let mut found = 0usize;
    for row in WORDS.lines() {
        if row.ends_with("none") != are_dice {
            check_row(rt, row, tells_dice(rt, row));
            found = found.saturating_add(1);
        }
    }
    check_number(rt, "rows:", count, found == count);
}

#[test]
fn dice_of_words(rt: HostRuntime) {
    check_words(&rt, true, 7);
}

#[test]
fn words_without_dice(rt: HostRuntime) {
    check_words(&rt, false, 4);
}

#[test]
fn faults_of_turns_printed(rt: HostRuntime) {
    let illegal = TurnFault::StepIllegal(2);
    check_printed(&rt, &illegal, "only the first 2 steps can be played");
    check_printed(&rt, &TurnFault::MoreCanBePlayed, "more dice can be played");
    let larger = TurnFault::LargerMustBePlayed;
    check_printed(&rt, &larger, "the larger die must be played");
}
