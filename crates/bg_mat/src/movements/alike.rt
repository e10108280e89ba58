//! Turns of one movement, and whether they hit alike.
ghost use Rattle.std.specs.Prelude.{◌≤◌, ◌↔◌, List, IfOk, IsTrue, MatchOption, length};
ghost use Rattle.bg_board.specs.FromTo.{FromTo};
ghost use Rattle.bg_mat.specs.FirstTurns.{HitsOtherwise, IsFirst, IsNone};
ghost use Rattle.bg_mat.specs.Turns.{HitAlike, IsUnambiguous, SameMovement};

use crate::movements::legs::Leg;
use crate::movements::{as_turn, is_hit, same_movement};
use bg_board::{BAR, Board, Player, Step};
use bg_turns::{Dice, Turn, legal_turns};
use std::alloc::{AllocError, Global};

/// Returns whether two lists of steps hit on the same points.
fn hit_alike(board: &Board, player: Player, one: &[Step], other: &[Step]) -> bool
    ensures { IsTrue result ↔ HitAlike board.now player one.now other.now }
{
    for point in 0..BAR + 1 {
        if is_hit(board, player, one, point) != is_hit(board, player, other, point) {
            return false;
        }
    }
    true
}

/// Returns the first of some turns that has this movement. `written` has at most four steps.
pub fn first_moved(written: &[Step], turns: &[Turn]) -> Option<Turn>
    requires few { length written.now ≤ 4 }
    ensures { MatchOption result (IsNone (SameMovement written.now) turns.now)
        (λ turn. IsFirst (SameMovement written.now) turns.now turn) }
{
    for turn in turns {
        if same_movement(written, turn.steps()) {
            return Some(turn.copy());
        }
    }
    None
}

/// Returns the first of some turns that has this movement, and hits otherwise than these steps.
/// `written` has at most four steps.
pub fn first_otherwise(
    board: &Board,
    player: Player,
    written: &[Step],
    turns: &[Turn],
    steps: &[Step],
) -> Option<Turn>
    requires few { length written.now ≤ 4 }
    ensures { MatchOption result (IsNone (HitsOtherwise board.now player written.now steps.now) turns.now)
        (λ turn. IsFirst (HitsOtherwise board.now player written.now steps.now) turns.now turn) }
{
    for turn in turns {
        if hits_otherwise(board, player, written, steps, turn) {
            return Some(turn.copy());
        }
    }
    None
}

/// Returns whether a turn has this movement, and hits otherwise than these steps.
fn hits_otherwise(
    board: &Board,
    player: Player,
    written: &[Step],
    steps: &[Step],
    turn: &Turn,
) -> bool
    requires few { length written.now ≤ 4 }
    ensures { IsTrue result ↔ HitsOtherwise board.now player written.now steps.now turn.now }
{
    same_movement(written, turn.steps()) && !hit_alike(board, player, steps, turn.steps())
}

/// Returns the greatest legal turn of a movement of at most four legs, whatever hits these mark.
/// There is none where no legal turn has this movement, or two such turns hit on different points.
///
/// # Errors
/// `AllocError` where memory runs out.
pub(crate) fn find_alike(
    alloc: Global,
    board: &Board,
    player: Player,
    dice: Dice,
    legs: &[Leg],
) -> Result<Option<Turn>, AllocError>
    requires { length legs.now ≤ 4 }
    ensures { IfOk result (λ found. MatchOption found
        ((turn : List FromTo) → IsUnambiguous board.now player dice legs.now turn → ⊥)
        (λ turn. IsUnambiguous board.now player dice legs.now turn)) }
{
    let written = as_turn(legs);
    let turns = legal_turns(alloc, board, player, dice)?;
    let Some(first) = first_moved(written.steps(), &turns) else {
        return Ok(None);
    };
    match first_otherwise(board, player, written.steps(), &turns, first.steps()) {
        Some(_) => Ok(None),
        None => Ok(Some(first)),
    }
}
