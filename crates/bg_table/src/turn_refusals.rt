//! The reason why a turn is refused, as a sentence.
ghost use Rattle.std.specs.Prelude.{◌≡◌, ◌++◌, IfOk, OnOk};
ghost use Rattle.bg_board.specs.Die.{pips};
ghost use Rattle.bg_table.specs.Grown.{Adds};
ghost use Rattle.bg_table.specs.TurnRefusals.{IsStepLine, IsTurnRefusal, IsWantedLine, count_words, example_words};
ghost use Rattle.bg_table.specs.TurnRefusals.{must_play_larger_words, must_play_words, of_four_words, wanted_words};

use crate::dice_left::dice_left;
use crate::step_refusals::{put_die, put_step_refusal, refused_step};
use crate::step_texts::put_steps;
use bg_board::{Board, Die, Player, Step};
use bg_text::{put_number, put_text};
use bg_turns::{Dice, Turn, TurnFault, legal_turns};
use std::alloc::{AllocError, Global};

/// Returns the line that tells a player why a turn is refused, in the player's own numbering, where
/// [`judge_turn`](bg_turns::judge_turn) gives this fault:
///
/// - `StepIllegal`: which step can't be played, and why, as in
///   `24-18 can't be played: point 18 is held by O`. The step is judged by a die that those before
///   it left: the one that shows its pips, else the larger one. Where none of these leads where it
///   ends, but a die that was played does, the reason is `no die is left for it`. Where the player
///   has no checker and the other one has, the reason is `point 12 has checkers of O, none of
///   yours`.
/// - `MoreCanBePlayed`, `LargerMustBePlayed`: what must be played, with the greatest legal turn, as
///   in `you must play both dice: 24-18 13-11 can be played`.
///
/// For a fault that the turn doesn't have, it names the first step that its die can't play, or else
/// the last one that the fault counts.
///
/// # Errors
/// AllocError where there is no memory for it, or for the list of legal turns.
pub fn turn_refusal_text(
    alloc: Global,
    board: &Board,
    player: Player,
    dice: Dice,
    turn: &Turn,
    fault: TurnFault,
) -> Result<Vec<u8>, AllocError>
    ensures { IfOk result (λ text. IsTurnRefusal board.now player dice turn.now fault text.items) }
{
    let mut out = Vec::new(alloc);
    put_turn_refusal(alloc, &mut out, board, player, dice, turn, fault)?;
    Ok(out)
}

/// Appends that line.
pub(crate) fn put_turn_refusal(
    alloc: Global,
    out: &mut Vec<u8>,
    board: &Board,
    player: Player,
    dice: Dice,
    turn: &Turn,
    fault: TurnFault,
) -> Result<(), AllocError>
    ensures { OnOk result (Adds (IsTurnRefusal board.now player dice turn.now fault) out.old.items out.new.items) }
{
    match fault {
        TurnFault::StepIllegal(playable) => {
            put_illegal_step(out, board, player, dice, turn.steps(), playable)
        }
        TurnFault::MoreCanBePlayed => put_wanted_line(alloc, out, board, player, dice, false),
        TurnFault::LargerMustBePlayed => put_wanted_line(alloc, out, board, player, dice, true),
    }
}

/// Appends the line that refuses the step behind the first `playable` steps, which can be played.
fn put_illegal_step(
    out: &mut Vec<u8>,
    board: &Board,
    player: Player,
    dice: Dice,
    steps: &[Step],
    playable: u8,
) -> Result<(), AllocError>
    ensures { OnOk result (Adds (IsStepLine board.now player dice steps.now playable) out.old.items out.new.items) }
{
    let left = dice_left(dice, steps, playable);
    let refusal = refused_step(*board, player, dice, left, steps, playable);
    put_step_refusal(out, board, player, dice, refusal)?;
    put_text(out, "\n")?;
    Ok(())
}

/// Appends the line that says what must be played: the larger die or more steps.
fn put_wanted_line(
    alloc: Global,
    out: &mut Vec<u8>,
    board: &Board,
    player: Player,
    dice: Dice,
    larger: bool,
) -> Result<(), AllocError>
    ensures { OnOk result (Adds (IsWantedLine larger board.now player dice) out.old.items out.new.items) }
{
    let turns = legal_turns(alloc, board, player, dice)?;
    put_wanted(out, dice, &turns, larger)?;
    put_text(out, "\n")?;
    Ok(())
}

/// Appends that the larger die or more steps must be played, with the greatest of the legal turns.
fn put_wanted(out: &mut Vec<u8>, dice: Dice, turns: &[Turn], larger: bool) -> Result<(), AllocError>
    ensures { OnOk result (out.new.items ≡ out.old.items ++ wanted_words larger dice turns.now) }
{
    match (turns.split_first(), larger) {
        (None, false) => put_text(out, "you must play more"),
        (None, true) => put_text(out, "you must play the larger die"),
        (Some((greatest, _)), false) => put_must_play(out, dice, greatest),
        (Some((greatest, _)), true) => put_must_play_larger(out, dice.larger(), greatest),
    }
}

/// Appends that as many steps must be played as this turn has.
#[tactic(auto, unfolding(crate::specs::TurnRefusals::must_play_words))]
fn put_must_play(out: &mut Vec<u8>, dice: Dice, turn: &Turn) -> Result<(), AllocError>
    ensures { OnOk result (out.new.items ≡ out.old.items ++ must_play_words dice turn.now) }
{
    put_text(out, "you must play ")?;
    put_count(out, dice, turn.steps().len())?;
    put_example(out, turn)?;
    Ok(())
}

/// Appends the number of steps that must be played.
fn put_count(out: &mut Vec<u8>, dice: Dice, count: usize) -> Result<(), AllocError>
    ensures { OnOk result (out.new.items ≡ out.old.items ++ count_words dice count) }
{
    if dice.is_double() {
        put_of_four(out, count as u64)
    } else if count == 2 {
        put_text(out, "both dice")
    } else {
        put_text(out, "a die")
    }
}

/// Appends how many of four steps must be played.
#[tactic(auto, unfolding(crate::specs::TurnRefusals::of_four_words))]
fn put_of_four(out: &mut Vec<u8>, count: u64) -> Result<(), AllocError>
    ensures { OnOk result (out.new.items ≡ out.old.items ++ of_four_words count) }
{
    put_number(out, count)?;
    put_text(out, " of the 4 steps")?;
    Ok(())
}

/// Appends that this die, the larger one, must be played, with a turn that plays it.
#[tactic(auto, unfolding(crate::specs::TurnRefusals::must_play_larger_words))]
fn put_must_play_larger(out: &mut Vec<u8>, larger: Die, turn: &Turn) -> Result<(), AllocError>
    ensures { OnOk result (out.new.items ≡ out.old.items ++ must_play_larger_words (pips larger) turn.now) }
{
    put_text(out, "you must play the larger die, ")?;
    put_die(out, larger)?;
    put_example(out, turn)?;
    Ok(())
}

/// Appends a turn that can be played.
#[tactic(auto, unfolding(crate::specs::TurnRefusals::example_words))]
fn put_example(out: &mut Vec<u8>, turn: &Turn) -> Result<(), AllocError>
    ensures { OnOk result (out.new.items ≡ out.old.items ++ example_words turn.now) }
{
    put_text(out, ":")?;
    put_steps(out, turn.steps())?;
    put_text(out, " can be played")?;
    Ok(())
}
