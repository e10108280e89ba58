//! Worked positions.
use crate::checks::{check_printed, check_row};
use crate::words::{board, counts, named, parted, player, points, small_number, step};
use bg_board::{Board, BoardFault, Die, Player, Step, StepFault};
use std::process::Abort;

/// What a die of this number shows, if there is one.
fn pips_of(number: u8) -> Option<u8> {
    Die::new(number).map(|die| die.pips())
}

#[test]
fn dice_of_numbers(rt: HostRuntime) {
    check_row(&rt, "0", pips_of(0).is_none());
    check_row(&rt, "1", pips_of(1) == Some(1));
    check_row(&rt, "6", pips_of(6) == Some(6));
    check_row(&rt, "7", pips_of(7).is_none());
}

/// Whether a pair of points, as "8-5", is a step.
fn is_step(rt: &impl Abort, word: &str) -> bool {
    let (from, to) = points(rt, word);
    Step::new(from, to).is_some()
}

/// Each of the pairs of points is a step, or none is.
fn check_steps(rt: &impl Abort, words: &str, are_steps: bool) {
    for word in words.split(' ') {
        check_row(rt, word, is_step(rt, word) == are_steps);
    }
}

#[test]
fn steps_between_points(rt: HostRuntime) {
    check_steps(&rt, "25-24 1-0", true);
    check_steps(&rt, "26-25 0-0 6-6 6-7", false);
}

/// How many checkers O has at the start on this point, and above it, if there is such a point.
fn counts_of_o(point: u8) -> Option<(u8, u8)> {
    if point > 25 {
        return None;
    }
    let start = Board::start();
    Some((
        start.count(Player::O, point),
        start.count_above(Player::O, point),
    ))
}

/// Points, and how many checkers O has on and above each at the start.
const COUNTS: &str = "\
0: 0 15
6: 5 10
8: 3 7
13: 5 2
24: 2 0";

/// Whether O has so many checkers at the start on the point of a row, and above it.
fn has_counts(rt: &impl Abort, row: &str) -> bool {
    let (point, words) = parted(rt, row, ": ");
    let (count, above) = parted(rt, words, " ");
    let expected = (small_number(rt, count), small_number(rt, above));
    counts_of_o(small_number(rt, point)) == Some(expected)
}

#[test]
fn counts_at_the_start(rt: HostRuntime) {
    for row in COUNTS.lines() {
        check_row(&rt, row, has_counts(&rt, row));
    }
}

#[test]
fn players_printed(rt: HostRuntime) {
    check_printed(&rt, &Player::X, "X");
    check_printed(&rt, &Player::O, "O");
}

/// The faults of steps, each behind what it prints.
const STEP_FAULTS: [(&str, StepFault); 6] = [
    ("no checker where the step begins", StepFault::NoChecker),
    ("a checker on the bar must enter first", StepFault::BarFirst),
    ("the die does not lead there", StepFault::WrongLanding),
    ("the landing point is blocked", StepFault::Blocked),
    (
        "a checker stands outside the home board",
        StepFault::NotAllHome,
    ),
    (
        "a checker stands on a higher point",
        StepFault::HigherChecker,
    ),
];

#[test]
fn faults_of_steps_printed(rt: HostRuntime) {
    for (words, fault) in &STEP_FAULTS {
        check_printed(&rt, fault, words);
    }
}

const NOT_FIFTEEN: &str = "a player does not have fifteen checkers";

const SHARED_POINT: &str = "both players have checkers on one point";

#[test]
fn faults_of_counts_printed(rt: HostRuntime) {
    check_printed(&rt, &BoardFault::NotFifteen, NOT_FIFTEEN);
    check_printed(&rt, &BoardFault::SharedPoint, SHARED_POINT);
}

/// What a board of these counts is refused for.
fn fault_of_counts(x: [u8; 26], o: [u8; 26]) -> Option<BoardFault> {
    Board::from_counts(x, o).err()
}

/// The board of these words is refused for this, if for anything.
fn check_counts(rt: &impl Abort, words: &str, fault: Option<BoardFault>) {
    let (x, o) = parted(rt, words, " / ");
    let found = fault_of_counts(counts(rt, x), counts(rt, o));
    check_row(rt, words, found == fault);
}

#[test]
fn counts_refused(rt: HostRuntime) {
    let not_fifteen = Some(BoardFault::NotFifteen);
    let shared = Some(BoardFault::SharedPoint);
    check_counts(&rt, "1:15 / 1:15", None);
    check_counts(&rt, "1:14 / 24:1 0:14", not_fifteen);
    check_counts(&rt, "24:1 0:14 / 1:14", not_fifteen);
    check_counts(&rt, "1:15 / 24:1 0:14", shared);
    check_counts(&rt, "24:1 0:14 / 1:15", shared);
}

/// What a step of X by this die is refused for.
fn fault_of_step(board: &Board, step: Step, die: Die) -> Option<StepFault> {
    board.play_step(Player::X, step, die).err()
}

/// What is told of the step of a row, as "24-18 by 6 on start: the landing point is blocked".
fn found_of<'a>(rt: &impl Abort, row: &'a str) -> (Option<StepFault>, &'a str) {
    let (word, rest) = parted(rt, row, " by ");
    let (die, rest) = parted(rt, rest, " on ");
    let (points, found) = parted(rt, rest, "; ");
    let die = Die::new(small_number(rt, die)).expect(rt, "a die");
    (
        fault_of_step(&board(rt, points), step(rt, word), die),
        found,
    )
}

/// Whether the step of a row is refused as it says, or allowed.
fn is_found(rt: &impl Abort, row: &str) -> bool {
    let (fault, words) = found_of(rt, row);
    match words {
        "allowed" => fault.is_none(),
        _ => fault == Some(named(rt, &STEP_FAULTS, words)),
    }
}

/// The rows hold.
fn check_step_rows(rt: &impl Abort, rows: &str) {
    for row in rows.lines() {
        check_row(rt, row, is_found(rt, row));
    }
}

/// Each refusal, in their order, by steps that the later ones would refuse too where that can be.
const REFUSED_STEPS: &str = "\
12-11 by 6 on 25:1 24:1 13:5 8:3 6:5 / 24:2 13:5 8:3 6:5; no checker where the step begins
24-18 by 6 on 25:1 24:1 13:5 8:3 6:5 / 24:2 13:5 8:3 6:5; a checker on the bar must enter first
24-19 by 6 on 24:2 13:5 8:3 6:5 / 24:2 13:5 8:3 6:5; the die does not lead there
24-19 by 5 on 24:2 13:5 8:3 6:5 / 24:2 13:5 8:3 6:5; the landing point is blocked
3-0 by 4 on 13:1 5:1 3:1 0:12 / 0:15; a checker stands outside the home board
3-0 by 4 on 5:1 3:1 0:13 / 0:15; a checker stands on a higher point
3-0 by 4 on 4:1 3:1 0:13 / 0:15; a checker stands on a higher point";

#[test]
fn steps_refused(rt: HostRuntime) {
    check_step_rows(&rt, REFUSED_STEPS);
}

/// Steps beside those that are refused.
const ALLOWED_STEPS: &str = "\
3-0 by 3 on 5:1 3:1 0:13 / 0:15; allowed
3-0 by 4 on 3:2 1:1 0:12 / 0:15; allowed
25-20 by 5 on 25:1 24:1 13:5 8:3 6:5 / 24:2 13:5 8:3 6:5; allowed
24-18 by 6 on 24:2 13:5 8:3 6:5 / 24:2 13:5 8:3 6:5; allowed";

#[test]
fn steps_allowed(rt: HostRuntime) {
    check_step_rows(&rt, ALLOWED_STEPS);
}

fn has_all_off(board: &Board, player: Player) -> bool {
    board.has_all_off(player)
}

/// Whether this player has no checker left on the board.
fn check_all_off(rt: &impl Abort, words: &str, name: &str, expected: bool) {
    let found = has_all_off(&board(rt, words), player(rt, name));
    check_row(rt, words, found == expected);
}

#[test]
fn all_off(rt: HostRuntime) {
    check_all_off(&rt, "0:14 1:1 / 0:15", "X", false);
    check_all_off(&rt, "0:14 1:1 / 0:15", "O", true);
    check_all_off(&rt, "start", "O", false);
}

/// Whether X comes from one board to the other by 8-5.
fn leads_to(rt: &impl Abort, before: &Board, after: Board) -> bool {
    before.play_step(Player::X, step(rt, "8-5"), Die::Three) == Ok(after)
}

#[test]
fn hit(rt: HostRuntime) {
    let before = board(&rt, "8:2 0:13 / 20:1 6:14");
    let after = board(&rt, "8:1 5:1 0:13 / 25:1 6:14");
    check_row(&rt, "8-5", leads_to(&rt, &before, after));
}
