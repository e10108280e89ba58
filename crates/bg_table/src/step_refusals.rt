//! The reasons why a step can't be played.
ghost use Rattle.std.specs.Prelude.{◌≡◌, ◌↔◌, ◌++◌, IsTrue, OnOk};
ghost use Rattle.std.specs.Fmt.{decimal};
ghost use Rattle.bg_board.specs.Die.{pips};
ghost use Rattle.bg_board.specs.Step.{Lands};
ghost use Rattle.bg_table.specs.DiceLeft.{judging_pips};
ghost use Rattle.bg_table.specs.StepRefusals.{IsFaultOf, IsReason, IsRefusedAt, dice_words, held_words, reason_words};
ghost use Rattle.bg_table.specs.StepRefusals.{refusal_words, refused_words};

use crate::dice_left::{DiceLeft, judging_die};
use crate::missing_checkers::put_missing;
use crate::step_texts::put_step;
use bg_board::{Board, Die, Player, Step, StepFault};
use bg_text::{letter, put_number, put_text};
use bg_turns::Dice;
use std::alloc::AllocError;

/// A step that can't be played, and the reason.
#[derive(Clone, Copy)]
pub(crate) struct StepRefusal {
    pub(crate) step: Step,
    /// The board on which it is tried.
    pub(crate) tried: Board,
    /// The fault by the die that judges the step; `None` where no die is left for it.
    pub(crate) fault: Option<StepFault>,
}

/// Returns the step that is refused, where `playable` of the steps can be played and no more, and
/// these dice are left then. Returns `None` where there are no further steps.
pub(crate) fn refused_step(
    board: Board,
    player: Player,
    dice: Dice,
    left: DiceLeft,
    steps: &[Step],
    playable: u8,
) -> Option<StepRefusal>
    ensures { IsRefusedAt board player dice left steps.now playable result }
{
    let (step, rest) = steps.split_first()?;
    if playable == 0 {
        return Some(StepRefusal {
            step: *step,
            tried: board,
            fault: reason(&board, player, dice, left, *step),
        });
    }
    match board.play_step(player, *step, judging_die(*step, dice)) {
        Err(fault) => Some(StepRefusal {
            step: *step,
            tried: board,
            fault: Some(fault),
        }),
        Ok(after) => refused_step(after, player, dice, left, rest, playable - 1),
    }
}

/// Returns why a step can't be played: its fault by a die that is left for it, or by any where none
/// of the two leads where it ends. Returns `None` where no die is left for it.
fn reason(
    board: &Board,
    player: Player,
    dice: Dice,
    left: DiceLeft,
    step: Step,
) -> Option<StepFault>
    ensures { IsReason board.now player dice left step result }
{
    let judging = judging_die(step, dice);
    if lands(step, judging) {
        fault_of_left(board, player, dice, left, step)
    } else {
        fault_of(board, player, step, judging)
    }
}

/// Returns the fault of a step by a die that is left for it, or `None` where no die is left for it.
/// One of the two dice leads where the step ends.
fn fault_of_left(
    board: &Board,
    player: Player,
    dice: Dice,
    left: DiceLeft,
    step: Step,
) -> Option<StepFault>
    requires { Lands step (judging_pips step dice) }
    ensures { IsReason board.now player dice left step result }
{
    match left {
        DiceLeft::Both => fault_of(board, player, step, judging_die(step, dice)),
        DiceLeft::One(die) if lands(step, die) => fault_of(board, player, step, die),
        _ => None,
    }
}

/// Returns whether a die leads where a step ends.
fn lands(step: Step, die: Die) -> bool
    ensures { IsTrue result ↔ Lands step (pips die) }
{
    step.to() == step.from().saturating_sub(die.pips())
}

/// Returns the fault of a step by a die, if it has one.
fn fault_of(board: &Board, player: Player, step: Step, die: Die) -> Option<StepFault>
    ensures { IsFaultOf board.now player step (pips die) result }
{
    board.play_step(player, step, die).err()
}

/// Appends the sentence that refuses a step of a turn on this board, or a turn that has no such step.
#[tactic(auto, unfolding(crate::specs::StepRefusals::refusal_words))]
pub(crate) fn put_step_refusal(
    out: &mut Vec<u8>,
    board: &Board,
    player: Player,
    dice: Dice,
    refusal: Option<StepRefusal>,
) -> Result<(), AllocError>
    ensures { OnOk result (out.new.items ≡ out.old.items ++ refusal_words board.now player dice refusal) }
{
    match refusal {
        None => put_text(out, "the turn has no such step"),
        Some(refusal) => put_refused(out, board, player, dice, refusal),
    }
}

/// Appends the sentence that refuses a step.
#[tactic(auto, unfolding(crate::specs::StepRefusals::refused_words))]
fn put_refused(
    out: &mut Vec<u8>,
    board: &Board,
    player: Player,
    dice: Dice,
    refusal: StepRefusal,
) -> Result<(), AllocError>
    ensures { OnOk result (out.new.items ≡ out.old.items ++ refused_words board.now player dice refusal) }
{
    put_step(out, refusal.step)?;
    put_text(out, " can't be played: ")?;
    put_reason(out, board, player, dice, refusal)?;
    Ok(())
}

/// Appends why a step can't be played.
fn put_reason(
    out: &mut Vec<u8>,
    board: &Board,
    player: Player,
    dice: Dice,
    refusal: StepRefusal,
) -> Result<(), AllocError>
    ensures { OnOk result (out.new.items ≡ out.old.items
        ++ reason_words board.now player dice refusal refusal.fault) }
{
    match refusal.fault {
        Some(StepFault::NoChecker) => {
            put_missing(out, board, &refusal.tried, player, refusal.step.from())
        }
        Some(StepFault::BarFirst) => put_text(out, "enter your checker from the bar first"),
        Some(StepFault::WrongLanding) => put_dice(out, dice),
        Some(StepFault::Blocked) => put_held(out, player, refusal.step.to()),
        Some(StepFault::NotAllHome) => put_text(out, "not all your checkers are home"),
        Some(StepFault::HigherChecker) => {
            put_text(out, "a checker on a higher point must be moved first")
        }
        None => put_text(out, "no die is left for it"),
    }
}

/// Appends what the dice show.
#[tactic(auto, unfolding(crate::specs::StepRefusals::dice_words))]
fn put_dice(out: &mut Vec<u8>, dice: Dice) -> Result<(), AllocError>
    ensures { OnOk result (out.new.items ≡ out.old.items ++ dice_words dice) }
{
    put_text(out, "the dice are ")?;
    put_die(out, dice.first)?;
    put_text(out, " and ")?;
    put_die(out, dice.second)?;
    Ok(())
}

/// Appends what a die shows.
pub(crate) fn put_die(out: &mut Vec<u8>, die: Die) -> Result<(), AllocError>
    ensures { OnOk result (out.new.items ≡ out.old.items ++ decimal (pips die)) }
{
    put_number(out, die.pips().into())
}

/// Appends who holds one of the player's points.
#[tactic(auto, unfolding(crate::specs::StepRefusals::held_words))]
fn put_held(out: &mut Vec<u8>, player: Player, point: u8) -> Result<(), AllocError>
    ensures { OnOk result (out.new.items ≡ out.old.items ++ held_words player point) }
{
    put_text(out, "point ")?;
    put_number(out, point.into())?;
    put_text(out, " is held by ")?;
    put_text(out, letter(player.opponent()))?;
    Ok(())
}
