//! A player's last entry.
ghost use Rattle.std.specs.Prelude.{◌≡◌, ◌≤◌, ◌++◌, ◌-◌, ◌↔◌, Some, [], IsTrue, MatchOption, OnOk, length, take};
ghost use Rattle.bg_match.specs.Actor.{actor_of, seat_of};
ghost use Rattle.bg_match.specs.Follows.{CanFollow};
ghost use Rattle.bg_match.specs.Match.{IsLegalRecord, StandsAt, at_number};
ghost use Rattle.bg_table.specs.Grown.{Adds};
ghost use Rattle.bg_table.specs.LastEntries.{AddsLastLine, CouldMove, CouldNotMove, HasMadeNone, HasNoRoll, IsLastOf};
ghost use Rattle.bg_table.specs.LastEntries.{IsLastRoll, IsMadeBy, IsNoRoll, IsRoll, TellsEntry, entry_words};
ghost use Rattle.bg_table.specs.LastEntries.{move_words, not_moved_words, thrown_words};
ghost use Rattle.bg_turns.specs.InOrder.{AreLegalSteps};

use crate::earlier_standings::standing_before;
use crate::step_refusals::put_die;
use crate::turn_lists::put_marked;
use bg_board::{Board, Player, Step};
use bg_match::{Entry, Number, Record, Standing};
use bg_text::{entry_text, letter, put_text};
use bg_turns::Dice;
use std::alloc::AllocError;

/// Appends the line of the last entry that a player made, if it is of the present game. Where the
/// player could not move, the line says so in place of the roll, or of the move without a step.
pub(crate) fn put_last(out: &mut Vec<u8>, log: &Record, player: Player) -> Result<(), AllocError>
    ensures { OnOk result (AddsLastLine log.now player out.old.items out.new.items) }
{
    match last_of(log, player) {
        Some(number) => put_last_line(out, log, player, number),
        None => Ok(()),
    }
}

/// Returns the number of the last entry that a player made.
fn last_of(log: &Record, player: Player) -> Option<Number>
    ensures last { MatchOption result (HasMadeNone log.now player) (λ number. IsLastOf log.now player number) }
    ensures legal { IsLegalRecord log.now.terms log.now.entries }
{
    let count = log.len();
    for behind in 0..count {
        if is_by(log, count - behind, player) {
            return Some(count - behind);
        }
    }
    None
}

/// Returns whether the entry with this number is the player's.
fn is_by(log: &Record, number: Number, player: Player) -> bool
    requires first { 1 ≤ number }
    requires last { number ≤ length log.now.entries }
    ensures { IsTrue result ↔ IsMadeBy log.now number player }
{
    is_seat(log.by(number), player)
}

/// Returns whether this is the player's seat.
fn is_seat(seat: Option<Player>, player: Player) -> bool
    ensures { IsTrue result ↔ (seat ≡ Some player) }
{
    seat == Some(player)
}

/// Appends the line of a player's last entry, which has this number, if it is of the present game.
fn put_last_line(
    out: &mut Vec<u8>,
    log: &Record,
    player: Player,
    number: Number,
) -> Result<(), AllocError>
    requires last { IsLastOf log.now player number }
    requires legal { IsLegalRecord log.now.terms log.now.entries }
    ensures { OnOk result (AddsLastLine log.now player out.old.items out.new.items) }
{
    let before = standing_before(log, number);
    if before.game() != log.standing().game() {
        return Ok(());
    }
    put_text(out, "last: ")?;
    put_told(out, log, player, number, &before)?;
    put_text(out, "\n")
}

/// Appends what a player did by the entry of this number, before which the match stood so, or that
/// the player could not move.
fn put_told(
    out: &mut Vec<u8>,
    log: &Record,
    player: Player,
    number: Number,
    before: &Standing,
) -> Result<(), AllocError>
    requires made { IsMadeBy log.now number player }
    requires legal { IsLegalRecord log.now.terms log.now.entries }
    requires stands { StandsAt log.now.terms (take (number - 1) log.now.entries) before.now }
    ensures { OnOk result (Adds (TellsEntry log.now player number) out.old.items out.new.items) }
{
    match unmoved_dice(log, number) {
        Some(dice) => put_not_moved(out, player, dice),
        None => {
            let entry = log.entry(number).unwrap();
            put_entry(out, before, player, entry)
        }
    }
}

/// Returns the dice that a player could not move, as the entry of this number shows.
fn unmoved_dice(log: &Record, number: Number) -> Option<Dice>
    requires last { number ≤ length log.now.entries }
    requires legal { IsLegalRecord log.now.terms log.now.entries }
    ensures { MatchOption result (CouldMove log.now number) (λ dice. CouldNotMove log.now number dice) }
{
    if let Some(dice) = roll_at(log, number) {
        return if is_pass(log, number + 1) {
            Some(dice)
        } else {
            None
        };
    }
    if is_empty_move(log, number) {
        last_roll(log, number)
    } else {
        None
    }
}

/// Returns the dice of the last roll before the entry of this number.
fn last_roll(log: &Record, number: Number) -> Option<Dice>
    ensures { MatchOption result (HasNoRoll log.now 0 number) (λ dice. IsLastRoll log.now number dice) }
{
    for behind in 1..number {
        if let Some(dice) = roll_at(log, number - behind) {
            return Some(dice);
        }
    }
    None
}

/// Returns the dice of the entry of this number, where it is a roll.
fn roll_at(log: &Record, number: Number) -> Option<Dice>
    ensures { MatchOption result (IsNoRoll log.now number) (λ dice. IsRoll log.now number dice) }
{
    match log.entry(number) {
        Some(Entry::Rolled(dice)) => Some(*dice),
        _ => None,
    }
}

/// Returns whether the entry of this number passes a turn.
fn is_pass(log: &Record, number: Number) -> bool
    ensures { IsTrue result ↔ (at_number log.now.entries number ≡ Some Entry.Passed) }
{
    matches!(log.entry(number), Some(Entry::Passed))
}

/// Returns whether the entry of this number is a move without a step.
fn is_empty_move(log: &Record, number: Number) -> bool
    ensures { IsTrue result ↔ (at_number log.now.entries number ≡ Some (Entry.Moved [])) }
{
    match log.entry(number) {
        Some(Entry::Moved(turn)) => turn.steps().is_empty(),
        _ => false,
    }
}

/// Appends that a player rolled these dice and could not move.
#[tactic(auto, unfolding(crate::specs::LastEntries::not_moved_words))]
fn put_not_moved(out: &mut Vec<u8>, player: Player, dice: Dice) -> Result<(), AllocError>
    ensures { OnOk result (out.new.items ≡ out.old.items ++ not_moved_words player dice) }
{
    put_text(out, letter(player))?;
    put_text(out, " rolled ")?;
    put_thrown(out, dice)?;
    put_text(out, " and could not move")
}

/// Appends what two dice show.
#[tactic(auto, unfolding(crate::specs::LastEntries::thrown_words))]
fn put_thrown(out: &mut Vec<u8>, dice: Dice) -> Result<(), AllocError>
    ensures { OnOk result (out.new.items ≡ out.old.items ++ thrown_words dice) }
{
    put_die(out, dice.first)?;
    put_text(out, " ")?;
    put_die(out, dice.second)
}

/// Appends the entry that a player made at this standing.
fn put_entry(
    out: &mut Vec<u8>,
    before: &Standing,
    player: Player,
    entry: &Entry,
) -> Result<(), AllocError>
    requires acts { seat_of (actor_of before.now) ≡ Some player }
    requires follows { CanFollow before.now entry.now }
    ensures { OnOk result (out.new.items ≡ out.old.items ++ entry_words before.now.board player entry.now) }
{
    match entry {
        Entry::Moved(turn) => put_move(out, before.board(), player, turn.steps()),
        _ => put_text(out, entry_text(Some(player), entry).as_str()),
    }
}

/// Appends the steps that a player moved on this board, with a mark behind those that hit, and whose
/// numbering their points have.
#[tactic(auto, unfolding(crate::specs::LastEntries::move_words))]
fn put_move(
    out: &mut Vec<u8>,
    board: Board,
    player: Player,
    steps: &[Step],
) -> Result<(), AllocError>
    requires { AreLegalSteps board player steps.now }
    ensures { OnOk result (out.new.items ≡ out.old.items ++ move_words board player steps.now) }
{
    put_text(out, letter(player))?;
    put_text(out, " move")?;
    put_marked(out, board, player, steps)?;
    put_text(out, " (as ")?;
    put_text(out, letter(player))?;
    put_text(out, " counts)")
}
