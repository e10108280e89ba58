//! Lists of all legal turns.
use super::{EITHER_DIE, SHUT_OUT, THREE_FOURS};
use crate::checks::{check_no_growth_is_left, check_row};
use crate::words::{board, dice, turn};
use bg_board::{Board, Die, Player};
use bg_turns::{Dice, Turn, legal_turns};
use std::alloc::{AllocError, Global};
use std::process::Abort;

/// The legal turns of X.
fn turns_of(rt: &(impl AllocGlobal + Abort), board: &Board, dice: Dice) -> Vec<Turn> {
    legal_turns(rt.alloc(), board, Player::X, dice).expect(rt, "memory")
}

/// Whether a turn is listed, and is this one.
fn is_listed(listed: Option<&Turn>, turn: &Turn) -> bool {
    listed == Some(turn)
}

/// Whether turns are those of the lines, in this order.
fn are_turns(rt: &impl Abort, turns: &[Turn], lines: &str) -> bool {
    let mut listed = turns.iter();
    for steps in lines.split('\n') {
        if !is_listed(listed.next(), &turn(rt, steps)) {
            return false;
        }
    }
    listed.next().is_none()
}

/// Whether the legal turns of X are those of the lines, in this order.
fn are_legal(rt: &(impl AllocGlobal + Abort), points: &str, throw: &str, lines: &str) -> bool {
    let (board, dice) = (board(rt, points), dice(rt, throw));
    are_turns(rt, &turns_of(rt, &board, dice), lines)
}

fn check_turns(rt: &(impl AllocGlobal + Abort), points: &str, throw: &str, lines: &str) {
    check_row(rt, lines, are_legal(rt, points, throw, lines));
}

/// X's last two checkers, which a 2 1 bears off in three ways. The order of the steps counts.
#[test]
fn turns_of_the_last_two(rt: HostRuntime) {
    let lines = "3-2 2-0\n3-1 1-0\n1-0 3-1";
    check_turns(&rt, "3:1 1:1 0:13 / 1:15", "2 1", lines);
}

/// The last checker leaves by way of 1, or at once.
#[test]
fn turns_of_the_last(rt: HostRuntime) {
    check_turns(&rt, "2:1 0:14 / 1:15", "6 1", "2-1 1-0\n2-0");
}

#[test]
fn turns_by_the_larger_die(rt: HostRuntime) {
    check_turns(&rt, EITHER_DIE, "6 5", "20-14");
}

#[test]
fn turns_of_three_steps(rt: HostRuntime) {
    check_turns(&rt, THREE_FOURS, "4 4", "20-16 16-12 12-8");
}

/// Where nothing can be played, the empty turn alone.
#[test]
fn turns_where_none_is_played(rt: HostRuntime) {
    check_turns(&rt, SHUT_OUT, "6 6", "");
}

/// The turns of X at the start with 1 1, which are asked for again where memory is refused.
fn turns_of_ones(alloc: Global) -> Result<Vec<Turn>, AllocError> {
    let start = Board::start();
    let ones = Dice {
        first: Die::One,
        second: Die::One,
    };
    match legal_turns(alloc, &start, Player::X, ones) {
        Ok(turns) => Ok(turns),
        Err(AllocError) => legal_turns(alloc, &start, Player::X, ones),
    }
}

/// Whether there are so many turns, and the first and the last of them have these steps.
fn have_ends(rt: &impl Abort, turns: &[Turn], count: usize, first: &str, last: &str) -> bool {
    turns.len() == count
        && is_listed(turns.first(), &turn(rt, first))
        && is_listed(turns.last(), &turn(rt, last))
}

fn are_of_ones(rt: &(impl AllocGlobal + Abort)) -> bool {
    let turns = turns_of_ones(rt.alloc()).expect(rt, "memory");
    let (first, last) = ("24-23 24-23 23-22 23-22", "6-5 5-4 4-3 3-2");
    have_ends(rt, &turns, 245, first, last)
}

/// Where memory is refused the same call then succeeds. No run of the tests refuses any, but
/// `tools/checks/refuse_growths` refuses each growth in turn.
#[test]
fn refused_growths(rt: HostRuntime) {
    check_row(&rt, "245 turns", are_of_ones(&rt));
    check_no_growth_is_left(&rt);
}
