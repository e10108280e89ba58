//! The actions of automatic players.
ghost use Rattle.std.specs.Prelude.{◌≡◌, IfErr, IfOk, IfSome};
ghost use Rattle.std.specs.Bool.{OnFalse, OnTrue};
ghost use Rattle.bg_match.specs.Answers.{IsAnswer};
ghost use Rattle.bg_match.specs.Match.{ActsAfter, IsNext};
ghost use Rattle.bg_match.specs.declared.entries.Entry.{Entry as AnEntry};
ghost use Rattle.bg_match.specs.declared.phases.Actor.TheVariants as acting;
ghost use Rattle.bg_auto.specs.AutoAction.{DoublesOrRolls, IsAutoAction, IsToMove, IsTurnOf, Plays, next_number};

use bg_board::{Board, Player};
use bg_match::{Action, Actor, Entry, MOST_ENTRIES, Phase, Record};
use bg_turns::{Dice, Turn, legal_turns};
use std::alloc::{AllocError, Global};

/// A player doubles, where that is allowed, as an entry whose number this divides.
const DOUBLES_EVERY: u32 = 16;

/// A player drops a double as an entry whose number this divides.
const DROPS_EVERY: u32 = 5;

/// Returns the action of an automatic player after a record, which is a function of the record
/// (docs/FORMATS.md, "Automatic players"). `None` exactly where the player does not act, or the
/// record is full.
///
/// # Errors
/// `AllocError` where there is no memory for the list of legal turns of a player who is to move.
pub fn auto_action(
    alloc: Global,
    record: &Record,
    player: Player,
) -> Result<Option<Action>, AllocError>
    ensures chosen { IfOk result (λ chosen. IsAutoAction «record».now player chosen) }
    // Its entry follows the record: a roll with any dice.
    ensures follows { IfOk result (λ chosen. IfSome chosen (λ action. (entry : AnEntry) → IsAnswer action entry
        → IsNext «record».now.terms «record».now.entries entry)) }
    ensures memory { IfErr result (λ _. IsToMove «record».now player) }
{
    if record.len() == MOST_ENTRIES || !acts(record, player) {
        return Ok(None);
    }
    action_in_turn(alloc, record)
}

/// Returns whether the seat of the player acts.
fn acts(record: &Record, player: Player) -> bool
    ensures yes { OnTrue result (ActsAfter «record».now.terms «record».now.entries (acting.Seat player)) }
    ensures no { OnFalse result (ActsAfter «record».now.terms «record».now.entries (acting.Seat player) → ⊥) }
{
    match record.actor() {
        Actor::Seat(seat) if seat == player => true,
        Actor::Seat(_) => false,
        Actor::Referee | Actor::Nobody => false,
    }
}

/// Returns the action of the player who acts, if one does.
fn action_in_turn(alloc: Global, record: &Record) -> Result<Option<Action>, AllocError>
    ensures plays { IfOk result (λ chosen. Plays «record».now chosen) }
    ensures memory { IfErr result (λ _. (player : Player) × IsToMove «record».now player) }
{
    let standing = record.standing();
    let number = record.len() + 1;
    match standing.phase() {
        Phase::Opening | Phase::Over(_) => Ok(None),
        Phase::ToAct(_) => Ok(Some(double_or_roll(record, number))),
        Phase::Doubled(_) if number % DROPS_EVERY == 0 => Ok(Some(Action::Drop)),
        Phase::Doubled(_) => Ok(Some(Action::Take)),
        Phase::ToMove(player, dice) => {
            let turn = turn_of(alloc, &standing.board(), player, dice, number)?;
            Ok(Some(Action::Move(turn)))
        }
        Phase::Resigned(..) => Ok(Some(Action::Reject)),
    }
}

/// Returns the action to double or to roll, as the entry of this number.
fn double_or_roll(record: &Record, number: u32) -> Action
    requires { number ≡ next_number «record».now.entries }
    ensures { DoublesOrRolls «record».now.terms «record».now.entries result }
{
    if number % DOUBLES_EVERY == 0 && record.check(&Entry::Doubled).is_ok() {
        Action::Double
    } else {
        Action::Roll
    }
}

/// Returns the legal turn that is played as the entry of this number.
fn turn_of(
    alloc: Global,
    board: &Board,
    player: Player,
    dice: Dice,
    number: u32,
) -> Result<Turn, AllocError>
    ensures { IfOk result (λ turn. IsTurnOf board.now player dice number turn) }
{
    let mut turns = legal_turns(alloc, board, player, dice)?;
    let index = number as usize % turns.len();
    Ok(turns.swap_remove(index))
}
