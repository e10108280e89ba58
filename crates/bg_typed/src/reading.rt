//! Reading a typed turn.
ghost use Rattle.std.specs.Prelude.{IfErr, IfOk};
ghost use Rattle.bg_turns.specs.Turn.{IsLegalTurn};
ghost use Rattle.bg_typed.specs.Meanings.{MeansTurn, TellsSteps};
ghost use Rattle.bg_typed.specs.TypedFaults.{IsStepsFault, IsTypedFault};
ghost use Rattle.bg_typed.specs.TypedWords.{TellsTyped};

use crate::TypedFault;
use crate::meanings::turn_of_legs;
use crate::spelling::spell;
use crate::words::{read_legs, skip_move};
use bg_board::{Board, Player};
use bg_mat::{LegFault, Legs, as_turn};
use bg_turns::{Dice, Turn};
use std::alloc::Global;

/// Reads a turn as a person types it, to be played by the player with the dice (docs/FORMATS.md,
/// "Typed turns").
///
/// The points are in the player's own numbering. Words stand between blanks and commas; letters may
/// be capital or small. The first word may be `m` or `move`. Each other word is the path of a
/// checker from point to point, with `/` or `-` between them: `24/18/14`. In `24/14` the checker
/// may come by any point between. `b` and `bar` are the bar, `o` and `off` is off. `(2)` behind a
/// word says how many checkers, 1 to 4, take that path. A `*` behind a point marks a hit there.
///
/// Where hits are marked the turn has exactly these; where none is marked it may hit anywhere. It
/// is the legs as steps, where these are a legal turn. Otherwise it is the greatest legal turn with
/// this movement, in the order of [`legal_turns`](bg_turns::legal_turns). Without a movement it is
/// the only legal turn.
///
/// # Errors
/// Tested in this order:
/// 1. [`TypedFault::NotAMovement`]: a word is not the path of a checker.
/// 2. [`TypedFault::TooManySteps`]: there are more than four legs.
/// 3. [`TypedFault::NoSuchTurn`]: no legal turn has this movement.
/// 4. [`TypedFault::WrongHits`]: legal turns have it, and none has the hits that are marked.
/// 5. [`TypedFault::Ambiguous`]: no hit is marked, the legs as steps are not a legal turn, and
///    legal turns with this movement hit on different points. It holds two of them.
/// 6. [`TypedFault::SeveralTurns`]: no movement is typed, and the number of legal turns is not one.
///
/// [`TypedFault::Memory`] may take the place of any result, where memory runs out.
pub fn read_turn(
    alloc: Global,
    typed: &[u8],
    board: &Board,
    player: Player,
    dice: Dice,
) -> Result<Turn, TypedFault>
    ensures means { IfOk result (λ turn. MeansTurn board.now player dice typed.now turn) }
    ensures legal { IfOk result (λ turn. IsLegalTurn board.now player dice turn) }
    ensures fault { IfErr result (IsTypedFault board.now player dice typed.now) }
{
    let legs = typed_legs(alloc, typed)?;
    turn_of_legs(alloc, board, player, dice, legs.as_slice())
}

/// Returns the steps of a typed movement as they are written, whether they can be played or not. It
/// is for programs that say why a turn is refused, or that take one step at a time.
///
/// # Errors
/// Tested in this order:
/// 1. [`TypedFault::NotAMovement`]: a word is not the path of a checker.
/// 2. [`TypedFault::TooManySteps`]: there are more than four legs.
///
/// [`TypedFault::Memory`] may take the place of any result, where memory runs out.
pub fn typed_steps(alloc: Global, typed: &[u8]) -> Result<Turn, TypedFault>
    ensures steps { IfOk result (λ turn. TellsSteps typed.now turn) }
    ensures fault { IfErr result (IsStepsFault typed.now) }
{
    let legs = typed_legs(alloc, typed)?;
    Ok(as_turn(legs.as_slice()))
}

/// Reads the legs of a typed movement, of which there are at most four.
pub(crate) fn typed_legs(alloc: Global, typed: &[u8]) -> Result<Legs, TypedFault>
    ensures told { IfOk result (λ legs. TellsTyped typed.now legs.items) }
    ensures fault { IfErr result (IsStepsFault typed.now) }
{
    let text = spell(alloc, typed)?;
    match read_legs(skip_move(&text)) {
        Ok(legs) => Ok(legs),
        Err(LegFault::NotAMovement) => Err(TypedFault::NotAMovement),
        Err(LegFault::TooMany) => Err(TypedFault::TooManySteps),
    }
}
