//! The hits that a typed movement marks.
ghost use Rattle.std.specs.Prelude.{◌≡◌, ◌↔◌, IfErr, IfOk, IsTrue};
ghost use Rattle.bg_mat.specs.Turns.{HasHits, is_marked as is_marked_point};
ghost use Rattle.bg_typed.specs.Marks.{FitsMarks, TellsFit};
ghost use Rattle.bg_typed.specs.TypedFaults.{IsStepsFault};

use crate::TypedFault;
use crate::meanings::has_marks;
use crate::reading::typed_legs;
use bg_board::{BAR, Board, Player};
use bg_mat::{Leg, is_hit};
use bg_turns::Turn;
use std::alloc::Global;

/// Returns whether the hits of these steps, played from this board, are just those that a typed
/// movement marks. True where it marks none: then they may hit anywhere. It is for programs that
/// take one step at a time.
///
/// # Errors
/// As [`typed_steps`](crate::typed_steps).
pub fn fits_marks(
    alloc: Global,
    typed: &[u8],
    board: &Board,
    player: Player,
    steps: &Turn,
) -> Result<bool, TypedFault>
    ensures fit { IfOk result (λ fits. TellsFit typed.now board.now player steps.now fits) }
    ensures fault { IfErr result (IsStepsFault typed.now) }
{
    let legs = typed_legs(alloc, typed)?;
    Ok(fits(legs.as_slice(), board, player, steps))
}

/// Returns whether the hits of these steps are just those that the legs mark, or none is marked.
fn fits(legs: &[Leg], board: &Board, player: Player, steps: &Turn) -> bool
    ensures { IsTrue result ↔ FitsMarks board.now player legs.now steps.now }
{
    !has_marks(legs) || same_hits(legs, board, player, steps)
}

/// Returns whether the legs mark exactly those points where the steps hit.
fn same_hits(legs: &[Leg], board: &Board, player: Player, steps: &Turn) -> bool
    ensures { IsTrue result ↔ HasHits board.now player legs.now steps.now }
{
    for point in 0..BAR + 1 {
        if is_marked(legs, point) != is_hit(board, player, steps.steps(), point) {
            return false;
        }
    }
    true
}

/// Returns whether the legs mark a hit on a point.
fn is_marked(legs: &[Leg], point: u8) -> bool
    ensures { result ≡ is_marked_point point legs.now }
{
    match legs.split_first() {
        Some((leg, rest)) => leg.hits && leg.step.to() == point || is_marked(rest, point),
        None => false,
    }
}
