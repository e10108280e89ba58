//! The turn that the legs of a typed movement mean.
ghost use Rattle.std.specs.Prelude.{◌≡◌, ◌≢◌, ◌≤◌, [], true, false, IfErr, IfOk, length};
ghost use Rattle.bg_typed.specs.Meanings.{MeansLegs, has_marks as is_marked};
ghost use Rattle.bg_typed.specs.TypedFaults.{IsMeaningFault};

use crate::TypedFault;
use bg_board::{Board, Player};
use bg_mat::{Leg, MatFault, as_turn, find_turn, first_moved, first_otherwise, turn_fault};
use bg_turns::{Dice, Turn, judge_turn, legal_turns};
use std::alloc::Global;

/// Returns whether a leg marks a hit.
pub(crate) fn has_marks(legs: &[Leg]) -> bool
    ensures { result ≡ is_marked legs.now }
{
    legs.iter().any(|leg| leg.hits)
}

/// Returns the only legal turn.
fn only_turn(alloc: Global, board: &Board, player: Player, dice: Dice) -> Result<Turn, TypedFault>
    ensures means { IfOk result (λ turn. MeansLegs board.now player dice [] turn) }
    ensures fault { IfErr result (IsMeaningFault board.now player dice []) }
{
    let turns = legal_turns(alloc, board, player, dice)?;
    if turns.len() != 1 {
        return Err(TypedFault::SeveralTurns);
    }
    Ok(turns[0].copy())
}

/// Returns the turn of a movement in which hits are marked.
fn marked_turn(
    alloc: Global,
    board: &Board,
    player: Player,
    dice: Dice,
    legs: &[Leg],
) -> Result<Turn, TypedFault>
    requires few { length legs.now ≤ 4 }
    requires marked { is_marked legs.now ≡ true }
    ensures means { IfOk result (λ turn. MeansLegs board.now player dice legs.now turn) }
    ensures fault { IfErr result (IsMeaningFault board.now player dice legs.now) }
{
    if let Some(turn) = find_turn(alloc, board, player, dice, legs)? {
        return Ok(turn);
    }
    match turn_fault(alloc, board, player, dice, legs)? {
        MatFault::WrongHits => Err(TypedFault::WrongHits),
        _ => Err(TypedFault::NoSuchTurn),
    }
}

/// Returns the turn of a movement in which no hit is marked.
fn unmarked_turn(
    alloc: Global,
    board: &Board,
    player: Player,
    dice: Dice,
    legs: &[Leg],
) -> Result<Turn, TypedFault>
    requires few { length legs.now ≤ 4 }
    requires some { legs.now ≢ [] }
    requires unmarked { is_marked legs.now ≡ false }
    ensures means { IfOk result (λ turn. MeansLegs board.now player dice legs.now turn) }
    ensures fault { IfErr result (IsMeaningFault board.now player dice legs.now) }
{
    let written = as_turn(legs);
    if judge_turn(board, player, dice, &written).is_ok() {
        return Ok(written);
    }
    let turns = legal_turns(alloc, board, player, dice)?;
    let Some(first) = first_moved(written.steps(), &turns) else {
        return Err(TypedFault::NoSuchTurn);
    };
    match first_otherwise(board, player, written.steps(), &turns, first.steps()) {
        Some(other) => Err(TypedFault::Ambiguous(first, other)),
        None => Ok(first),
    }
}

/// Returns the turn that at most four legs mean.
pub(crate) fn turn_of_legs(
    alloc: Global,
    board: &Board,
    player: Player,
    dice: Dice,
    legs: &[Leg],
) -> Result<Turn, TypedFault>
    requires { length legs.now ≤ 4 }
    ensures means { IfOk result (λ turn. MeansLegs board.now player dice legs.now turn) }
    ensures fault { IfErr result (IsMeaningFault board.now player dice legs.now) }
{
    if legs.is_empty() {
        return only_turn(alloc, board, player, dice);
    }
    if has_marks(legs) {
        marked_turn(alloc, board, player, dice, legs)
    } else {
        unmarked_turn(alloc, board, player, dice, legs)
    }
}
