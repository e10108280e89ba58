//! The turn that a movement describes.
ghost use Rattle.std.specs.Prelude.{◌≤◌, ◌↔◌, List, IsTrue, IfOk, MatchOption, length};
ghost use Rattle.bg_board.specs.FromTo.{FromTo};
ghost use Rattle.bg_turns.specs.Turn.{IsLegalTurn};
ghost use Rattle.bg_mat.specs.ItemFaults.{IsMovementFault};
ghost use Rattle.bg_mat.specs.Turns.{HasHits, HasMovement, SameMovement, TellsTurn};

use crate::MatFault;
use crate::movements::legs::Leg;
use crate::movements::{as_turn, same_hits, same_movement};
use bg_board::{Board, Player};
use bg_turns::{Dice, Turn, judge_turn, legal_turns};
use std::alloc::{AllocError, Global};

/// Returns whether a turn is legal, and hits exactly where the legs say so.
fn has_hits(board: &Board, player: Player, dice: Dice, legs: &[Leg], turn: &Turn) -> bool
    ensures { IsTrue result ↔ (IsLegalTurn board.now player dice turn.now
        × HasHits board.now player legs.now turn.now) }
{
    match judge_turn(board, player, dice, turn) {
        Ok(_) => same_hits(board, player, legs, turn.steps()),
        Err(_) => false,
    }
}

/// Returns whether a turn has the movement of the written one, and hits exactly where the legs say
/// so.
fn fits(board: &Board, player: Player, legs: &[Leg], written: &Turn, turn: &Turn) -> bool
    ensures { IsTrue result ↔ (SameMovement written.now turn.now × HasHits board.now player legs.now turn.now) }
{
    let steps = turn.steps();
    if same_movement(written.steps(), steps) {
        same_hits(board, player, legs, steps)
    } else {
        false
    }
}

/// Returns the turn that a movement of at most four legs describes. That is the turn with the legs
/// as steps, where it is legal and has these hits. Otherwise it is the greatest legal turn with
/// this movement and these hits; `None` where there is none.
///
/// # Errors
/// `AllocError` where there is no memory for the list of legal turns.
pub fn find_turn(
    alloc: Global,
    board: &Board,
    player: Player,
    dice: Dice,
    legs: &[Leg],
) -> Result<Option<Turn>, AllocError>
    requires { length legs.now ≤ 4 }
    ensures { IfOk result (λ found. MatchOption found
        ((turn : List FromTo) → HasMovement board.now player dice legs.now turn → ⊥)
        (λ turn. TellsTurn board.now player dice legs.now turn)) }
{
    let written = as_turn(legs);
    if has_hits(board, player, dice, legs, &written) {
        return Ok(Some(written));
    }
    let turns = legal_turns(alloc, board, player, dice)?;
    for turn in &turns {
        if fits(board, player, legs, &written, turn) {
            return Ok(Some(turn.copy()));
        }
    }
    Ok(None)
}

/// Returns the fault of a movement of at most four legs that describes no turn. It is `WrongHits`
/// where a legal turn has this movement, but other hits, and otherwise `NoSuchTurn`.
///
/// # Errors
/// `AllocError` where there is no memory for the list of legal turns.
pub fn turn_fault(
    alloc: Global,
    board: &Board,
    player: Player,
    dice: Dice,
    legs: &[Leg],
) -> Result<MatFault, AllocError>
    requires { length legs.now ≤ 4 }
    ensures { IfOk result (λ why. ((turn : List FromTo) → HasMovement board.now player dice legs.now turn → ⊥)
        → IsMovementFault board.now player dice legs.now why) }
{
    let written = as_turn(legs);
    let turns = legal_turns(alloc, board, player, dice)?;
    for turn in &turns {
        if same_movement(written.steps(), turn.steps()) {
            return Ok(MatFault::WrongHits);
        }
    }
    Ok(MatFault::NoSuchTurn)
}
