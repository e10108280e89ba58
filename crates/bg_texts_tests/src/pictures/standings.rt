//! Standings of matches that are drawn.
use crate::boards::board;
use bg_match::{Cube, Phase, Rules, Standing};
use std::process::Abort;

/// Where a player's checkers stand at the start.
pub(crate) const START: &str = "24:2 13:5 8:3 6:5";

/// The standing of the first game of a match to seven points by the first rules, where all checkers
/// stand as they do at the start.
pub(crate) fn standing_of(rt: &impl Abort, phase: Phase, cube: Cube) -> Standing {
    let board = board(rt, START, START);
    let standing = Standing::from_parts(7, Rules::One, board, phase, cube, (0, 0), false, 1);
    standing.expect(rt, "a standing")
}
