//! The judge of a turn, which plays it as far as it goes.
ghost use Rattle.std.specs.Prelude.{◌≡◌, ◌≤◌, ◌↔◌, IsOk, IfOk, IfErr, OnOk, OnErr, IsTrue, length, map};
ghost use Rattle.bg_board.specs.Die.{pips};
ghost use Rattle.bg_board.specs.Position.{Position, HasAllOff};
ghost use Rattle.bg_board.specs.declared.players.Player.{Player as SeenPlayer};
ghost use Rattle.bg_turns.specs.Dice.{dice_list};
ghost use Rattle.bg_turns.specs.InOrder.{IsPartInOrder, AreLegalSteps};
ghost use Rattle.bg_turns.specs.MoverCounts.{IsMoverCounts, Stands};
ghost use Rattle.bg_turns.specs.Turn.{CanStep, IsLegalTurn, IsPlayablePart, IsTurnFault, UsesLarger, after_steps};

use crate::masks::Masks;
use crate::mover_counts::MoverCounts;
use crate::search::can_play_more;
use crate::{Dice, Turn, TurnFault};
use bg_board::{Board, Die, Player, Step};

/// Judges a turn of the player with the dice, and returns the board after it. A turn that bears off
/// the player's fifteenth checker is complete whatever dice are left (docs/RULES.md, "A turn").
///
/// # Errors
///
/// Tested in this order:
/// 1. [`TurnFault::StepIllegal`]: the steps cannot all be played, each with a die of its own, in
///    any order of the dice. It carries the number of steps, from the first on, that can be played
///    at most.
/// 2. [`TurnFault::MoreCanBePlayed`]: another turn plays more dice.
/// 3. [`TurnFault::LargerMustBePlayed`]: of two different dice only one can be played, the turn
///    plays it by the smaller die, and there is a step by the larger one.
pub fn judge_turn(
    board: &Board,
    player: Player,
    dice: Dice,
    turn: &Turn,
) -> Result<Board, TurnFault>
    ensures ok { IsOk result ↔ IsLegalTurn board.now player dice turn.now }
    ensures after { IfOk result (λ after. after ≡ after_steps board.now player turn.now) }
    ensures fault { IfErr result (λ fault. IsTurnFault fault board.now player dice turn.now) }
{
    let mut after = *board;
    play_turn(&mut after, player, dice, turn)?;
    Ok(after)
}

/// Plays a turn of the player with the dice on a board, in place. A refused turn leaves the board
/// as it was (docs/RULES.md, "A turn"). It is for a caller who does not keep the board before the
/// turn.
///
/// # Errors
///
/// The same as those of [`judge_turn`].
pub fn play_turn(
    board: &mut Board,
    player: Player,
    dice: Dice,
    turn: &Turn,
) -> Result<(), TurnFault>
    ensures ok { IsOk result ↔ IsLegalTurn board.old player dice turn.now }
    ensures after { OnOk result (board.new ≡ after_steps board.old player turn.now) }
    ensures err { OnErr result (board.new ≡ board.old) }
    ensures fault { IfErr result (λ fault. IsTurnFault fault board.old player dice turn.now) }
{
    let steps = turn.steps();
    judge_steps(board, player, dice, steps)?;
    play_all(board, player, steps);
    Ok(())
}

/// Judges the steps of a turn.
fn judge_steps(board: &Board, player: Player, dice: Dice, steps: &[Step]) -> Result<(), TurnFault>
    requires { length steps.now ≤ 4 }
    ensures ok { IsOk result ↔ IsLegalTurn board.now player dice steps.now }
    ensures legal { OnOk result (AreLegalSteps board.now player steps.now) }
    ensures fault { IfErr result (λ fault. IsTurnFault fault board.now player dice steps.now) }
{
    let played = longest_part(board, player, dice, steps);
    if played < steps.len() {
        return Err(TurnFault::StepIllegal(played as u8));
    }
    if can_play_more(board, player, dice, steps.len()) && !bears_all_off(board, player, steps) {
        return Err(TurnFault::MoreCanBePlayed);
    }
    if !uses_larger(board, player, dice, steps) && !bears_all_off(board, player, steps) {
        return Err(TurnFault::LargerMustBePlayed);
    }
    Ok(())
}

/// Returns whether these steps, which can be played, bear off the last of the player's checkers.
fn bears_all_off(board: &Board, player: Player, steps: &[Step]) -> bool
    requires { AreLegalSteps board.now player steps.now }
    ensures { IsTrue result ↔ HasAllOff (after_steps board.now player steps.now) player }
{
    let mut after = *board;
    play_all(&mut after, player, steps);
    after.has_all_off(player)
}

/// Returns whether a single step with two different dice is one by the larger die, if there is such
/// a step.
fn uses_larger(board: &Board, player: Player, dice: Dice, steps: &[Step]) -> bool
    ensures { IsTrue result ↔ UsesLarger board.now player dice steps.now }
{
    let [step] = steps else {
        return true;
    };
    if dice.is_double() {
        return true;
    }
    let larger = dice.larger();
    if !can_step(board, player, larger) {
        return true;
    }
    board.play_step(player, *step, larger).is_ok()
}

/// Returns whether the player has a step by this die.
fn can_step(board: &Board, player: Player, die: Die) -> bool
    ensures { IsTrue result ↔ CanStep board.now player (pips die) }
{
    Masks::of(board, player).can_step(die.pips())
}

/// Returns the number of steps, from the first on, that can be played with some choice of the dice.
fn longest_part(board: &Board, player: Player, dice: Dice, steps: &[Step]) -> usize
    ensures { IsPlayablePart board.now player (dice_list dice) steps.now result }
{
    let Dice { first, second } = dice;
    let mut mover = MoverCounts::of(board, player);
    if dice.is_double() {
        return part_in_order(&mut mover, &[first; 4], steps);
    }
    let forth = part_in_order(&mut mover, &[first, second], steps);
    if forth >= steps.len() {
        return forth;
    }
    let mut mover = MoverCounts::of(board, player);
    forth.max(part_in_order(&mut mover, &[second, first], steps))
}

/// Plays the steps with the dice in this order on the mover's counts, as far as they go, and
/// returns the number played.
fn part_in_order(mover: &mut MoverCounts, dice: &[Die], steps: &[Step]) -> usize
    requires { IsMoverCounts mover.old }
    ensures part { (b : Position) (p : SeenPlayer) → Stands mover.old b p
        → IsPartInOrder b p (map pips dice.now) steps.now result }
    ensures within { result ≤ length steps.now }
{
    let (Some((die, dice)), Some((step, steps))) = (dice.split_first(), steps.split_first()) else {
        return 0;
    };
    if !mover.can_play_step(*step, die.pips()) {
        return 0;
    }
    mover.play(*step);
    1 + part_in_order(mover, dice, steps)
}

/// Plays steps that are known to be playable.
fn play_all(board: &mut Board, player: Player, steps: &[Step])
    requires { AreLegalSteps board.old player steps.now }
    ensures { board.new ≡ after_steps board.old player steps.now }
{
    if let Some((step, rest)) = steps.split_first() {
        board.play(player, *step);
        play_all(board, player, rest);
    }
}
