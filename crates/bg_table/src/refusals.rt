//! The reasons why an action of a player can't be made, and what the player may do.
ghost use Rattle.std.specs.Prelude.{◌≡◌, ◌++◌, IfOk, MatchOption, OnOk};
ghost use Rattle.bg_match.specs.Follows.{IsNoDouble, MayDouble};
ghost use Rattle.bg_table.specs.Grown.{Adds};
ghost use Rattle.bg_table.specs.Refusals.{IsDoubleLine, IsPhaseLine, IsReasonLine, IsRefusal, IsWhy, cubeless_words};
ghost use Rattle.bg_table.specs.Refusals.{no_double_words as words_without_double, phase_words as words_of_phase};
ghost use Rattle.bg_table.specs.Refusals.{refused_turn as turn_of, waiting_words};

use crate::offers::offered;
use crate::prompts::put_prompt;
use crate::turn_refusals::put_turn_refusal;
use bg_board::Player;
use bg_match::{Action, EntryFault, GREATEST_CUBE, NoDouble, Number, Phase, Standing};
use bg_text::{put_number, put_text};
use bg_turns::{Dice, Turn, TurnFault};
use std::alloc::{AllocError, Global};

/// Returns the lines that tell a player why an action of theirs can't be made at this standing.
/// Then they say what the player may do instead, as [`prompt_text`](crate::prompt_text) has it. The
/// fault is the one of the action's entry; for a turn the text is that of
/// [`turn_refusal_text`](crate::turn_refusal_text). A double that comes too late is refused for what
/// forbids it in the whole game, if anything does: there is no cube, or the player can't turn it.
/// Where the match is over, the text says that alone.
///
/// # Errors
/// AllocError where there is no memory for it, or for the list of legal turns.
pub fn refusal_text(
    alloc: Global,
    standing: &Standing,
    reader: Player,
    action: &Action,
    fault: EntryFault,
) -> Result<Vec<u8>, AllocError>
    ensures { IfOk result (λ text. IsRefusal standing.now reader action.now fault text.items) }
{
    let mut out = Vec::new(alloc);
    put_why(alloc, &mut out, standing, reader, action, fault)?;
    let offers = offered(standing, reader);
    put_prompt(&mut out, standing.actor(), reader, offers)?;
    Ok(out)
}

/// Returns the line that tells a player that their choice waits for the referee: the action that
/// they chose for the entry with this number. No other can be chosen before it is answered.
///
/// # Errors
/// AllocError where there is no memory for it.
pub fn waiting_text(alloc: Global, number: Number) -> Result<Vec<u8>, AllocError>
    ensures { IfOk result (λ text. text.items ≡ waiting_words number) }
{
    let mut out = Vec::new(alloc);
    put_waiting(&mut out, number)?;
    Ok(out)
}

/// Appends that line.
#[tactic(auto, unfolding(crate::specs::Refusals::waiting_words))]
fn put_waiting(out: &mut Vec<u8>, number: Number) -> Result<(), AllocError>
    ensures { OnOk result (out.new.items ≡ out.old.items ++ waiting_words number) }
{
    put_text(out, "your choice for entry ")?;
    put_number(out, number.into())?;
    put_text(out, " is kept, and waits for the referee\n")?;
    Ok(())
}

/// Appends the line that says why an action can't be made.
fn put_why(
    alloc: Global,
    out: &mut Vec<u8>,
    standing: &Standing,
    reader: Player,
    action: &Action,
    fault: EntryFault,
) -> Result<(), AllocError>
    ensures { OnOk result (Adds (IsWhy standing.now reader action.now fault) out.old.items out.new.items) }
{
    match refused_turn(standing.phase(), action, fault) {
        Some(
            RefusedTurn {
                player,
                dice,
                turn,
                fault,
            },
        ) => put_turn_refusal(alloc, out, &standing.board(), player, dice, &turn, fault),
        None => put_text(out, why_words(standing, reader, action, fault)),
    }
}

/// A refused turn, with its player, its dice and its fault.
#[derive(Drop)]
struct RefusedTurn {
    player: Player,
    dice: Dice,
    turn: Turn,
    fault: TurnFault,
}

/// Returns the refused turn that an action plays in a phase. Returns `None` for another action, in
/// another phase or for another fault.
fn refused_turn(phase: Phase, action: &Action, fault: EntryFault) -> Option<RefusedTurn>
    ensures { result ≡ turn_of phase action.now fault }
{
    match (phase, action, fault) {
        (Phase::ToMove(player, dice), Action::Move(turn), EntryFault::Turn(fault)) => {
            Some(RefusedTurn {
                player,
                dice,
                turn: turn.copy(),
                fault,
            })
        }
        _ => None,
    }
}

/// Returns the words for why an action that is no turn can't be made.
fn why_words(
    standing: &Standing,
    reader: Player,
    action: &Action,
    fault: EntryFault,
) -> &'static str
    ensures { IsReasonLine standing.now reader action.now fault result.now }
{
    match fault {
        EntryFault::RecordFull => "the match has as many entries as it can have\n",
        EntryFault::MatchOver => "",
        EntryFault::WrongPhase => wrong_phase_words(standing, reader, action),
        EntryFault::EqualOpening => "equal dice open no game\n",
        EntryFault::Turn(_) => "there are no dice for a turn\n",
        EntryFault::NoDouble(why) => no_double_words(standing.length(), why, reader),
        EntryFault::Memory => "there is no memory for another entry\n",
    }
}

/// Returns the words for why a player can't double in a match of this length.
fn no_double_words(length: u8, why: NoDouble, reader: Player) -> &'static str
    ensures { result.now ≡ words_without_double length why reader }
{
    match (why, reader) {
        (NoDouble::Crawford, _) => without_cube(length),
        (NoDouble::NotOwner, Player::X) => "the cube is O's, so you can't double\n",
        (NoDouble::NotOwner, Player::O) => "the cube is X's, so you can't double\n",
        (NoDouble::AtCap, _) => "the cube shows 128, so nobody can double\n",
    }
}

/// Returns the words for why nobody can double in a game of a match of this length that is played
/// without the cube.
fn without_cube(length: u8) -> &'static str
    ensures { result.now ≡ cubeless_words length }
{
    if length == 1 {
        "a match to one point is played without the cube\n"
    } else {
        "nobody can double in the Crawford game\n"
    }
}

/// Returns the words for why an action can't be made in the phase of this standing.
fn wrong_phase_words(standing: &Standing, reader: Player, action: &Action) -> &'static str
    ensures { IsPhaseLine standing.now standing.now.phase reader action.now result.now }
{
    match (standing.phase(), action) {
        (Phase::Over(_) | Phase::Doubled(_), _) => phase_words(standing.phase(), action),
        (_, Action::Double) => late_double_words(standing, reader),
        (_, _) => phase_words(standing.phase(), action),
    }
}

/// Returns the words for why a double can't be made in this phase: what forbids it in the whole
/// game, or else the phase.
fn late_double_words(standing: &Standing, reader: Player) -> &'static str
    ensures { IsDoubleLine standing.now reader result.now }
{
    match no_double(standing, reader) {
        Some(why) => no_double_words(standing.length(), why, reader),
        None => phase_words(standing.phase(), &Action::Double),
    }
}

/// Returns why a player may not double in this game as the cube stands, whatever the phase. Returns
/// `None` where they may.
fn no_double(standing: &Standing, player: Player) -> Option<NoDouble>
    ensures { MatchOption result (MayDouble standing.now player) (λ why. IsNoDouble why standing.now player) }
{
    if standing.crawford() {
        Some(NoDouble::Crawford)
    } else if standing.cube().owner == Some(player.opponent()) {
        Some(NoDouble::NotOwner)
    } else if standing.cube().value == GREATEST_CUBE {
        Some(NoDouble::AtCap)
    } else {
        None
    }
}

/// Returns the words for why a phase doesn't allow an action.
fn phase_words(phase: Phase, action: &Action) -> &'static str
    ensures { result.now ≡ words_of_phase phase action.now }
{
    match (phase, action) {
        (Phase::Over(_), _) => "",
        (Phase::Opening, _) => "the game isn't opened yet\n",
        (Phase::Doubled(_), _) => "answer the double first\n",
        (Phase::Resigned(..), _) => "answer the offer to resign first\n",
        (_, Action::Take | Action::Drop) => "nobody has doubled\n",
        (_, Action::Accept | Action::Reject) => "nobody has offered to resign\n",
        (Phase::ToAct(_), Action::Move(_)) => "roll the dice first\n",
        (Phase::ToMove(..), Action::Roll) => "the dice are rolled: move them\n",
        (Phase::ToMove(..), Action::Double) => "you can double only before you roll\n",
        (_, _) => "this can't be done now\n",
    }
}
