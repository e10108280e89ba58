//! The actions of the players, and their outcomes.
ghost use Rattle.std.specs.Prelude.{◌≡◌, ◌↔◌, IsTrue};
ghost use Rattle.bg_hosted.specs.Acting.{IsAnswered, IsBy};
ghost use Rattle.bg_match.specs.Answers.{IsAnswer};

use crate::HostedMatch;
use bg_board::Player;
use bg_match::{Action, Entry, Number, Record};
use bg_party::ChooseFault;
use bg_wire::party_of;
use bg_world::{Event, Keeper, Outcome};

/// The outcome of an action (docs/SERVING.md, "Scripts").
#[derive(Clone, Copy, PartialEq, Eq)]
pub enum Acted {
    /// The action has been carried out, now or by an earlier call: the entry with its number
    /// answers it.
    Done,
    /// The seat has claimed the action, and the claim is saved. Its entry is not shown yet.
    Waits,
    /// Nothing happened: another entry has the number, or none has it and it isn't the next number.
    OtherEntry,
    /// The seat refused to claim the action, for this reason.
    Refused(ChooseFault),
    /// The seat is down, or its claim could not be saved. The action may be sent again.
    Failed,
}

impl<K: Keeper> HostedMatch<K> {
    ghost use Rattle.bg_hosted.specs.Acting.{Acts, ActsAgain, ActsNext, ActsOnce, IsAnsweredBy, IsSaidOf, TellsEntry};
    ghost use Rattle.bg_protocol.specs.declared.events.Outcome.TheVariants.{Chose};
    ghost use Rattle.bg_hosted.specs.Going.{GoesOn};
    ghost use Rattle.bg_hosted.specs.HostedMatches.{world_of};

    /// Carries out a player's action, which is to become the entry of this number, from 1. The
    /// number makes the call idempotent: however often it is repeated, the player acts at most
    /// once.
    ///
    /// Returns the first of these outcomes that applies:
    /// - `Failed` if the player's seat is down;
    /// - `Done` or `OtherEntry` if the number is not that of the next entry in the seat's record.
    ///   Then nothing happens, and the entry of that number decides: see [`is_answered`];
    /// - `OtherEntry` if the seat has claimed another action under the number. Then nothing
    ///   happens;
    /// - `Done` or `Waits` if it has claimed this action, which then continues, depending on
    ///   whether the entry is shown afterwards;
    /// - `Refused` if the seat does not claim the action (docs/PROTOCOL.md, "Claims");
    /// - `Failed` if the claim can't be saved, also for lack of memory. The call may be repeated;
    /// - `Done` or `Waits` once the claim is saved, depending on whether the entry is already
    ///   shown.
    pub fn act(&mut self, player: Player, number: Number, action: Action) -> Acted
        ensures { Acts K.is_honest (world_of K.Keeper self.old) player number action result (world_of K.Keeper self.new) }
    {
        let Some(record) = self.world.held(party_of(player)) else {
            return Acted::Failed;
        };
        let next = record.len().saturating_add(1);
        if number == next {
            return self.act_next(player, number, action);
        }
        if is_answered(record, player, number, &action) {
            return Acted::Done;
        }
        Acted::OtherEntry
    }

    /// Carries out an action that is to become the next entry of the seat's record, unless the seat
    /// has already claimed one under that number.
    fn act_next(&mut self, player: Player, number: Number, action: Action) -> Acted
        ensures { ActsNext K.is_honest (world_of K.Keeper self.old) player number action result (world_of K.Keeper self.new) }
    {
        match self.world.claim(player) {
            Some((claimed, open)) if claimed == number => {
                self.act_again(number, is_same(&open, &action))
            }
            _ => self.act_once(player, number, action),
        }
    }

    /// Continues the action that a seat has claimed under this number, if it is the one that was
    /// sent.
    fn act_again(&mut self, number: Number, is_same: bool) -> Acted
        ensures { ActsAgain K.is_honest (world_of K.Keeper self.old) number (IsTrue is_same) result (world_of K.Keeper self.new) }
    {
        if !is_same {
            return Acted::OtherEntry;
        }
        self.tick();
        self.answer_to(number)
    }

    /// Carries out an action under a number for which the seat has no claim.
    fn act_once(&mut self, player: Player, number: Number, action: Action) -> Acted
        ensures { ActsOnce K.is_honest (world_of K.Keeper self.old) player number action result (world_of K.Keeper self.new) }
    {
        let seat = player;
        match self.happen(Event::Choose { seat, action }) {
            Outcome::Chose(chosen) => self.after_choice(player, number, chosen),
            _ => Acted::Failed,
        }
    }

    /// Continues after the seat has claimed the action under a number, or has refused it.
    fn after_choice(
        &mut self,
        player: Player,
        number: Number,
        chosen: Result<Number, ChooseFault>,
    ) -> Acted
        ensures goes_on { GoesOn K.is_honest (world_of K.Keeper self.old) (world_of K.Keeper self.new) }
        ensures said { IsSaidOf (Chose chosen) number (world_of K.Keeper self.new) result }
    {
        match chosen {
            Ok(_) => self.after_claim(player, number),
            Err(fault) => Acted::Refused(fault),
        }
    }

    /// Saves the claim that a player's seat has made under this number, and lets the parties answer
    /// it.
    ///
    /// Returns `Failed` if the save fails, after restarting the seat from its last save. Otherwise
    /// returns `Done` or `Waits`, depending on whether the entry of this number is shown.
    fn after_claim(&mut self, player: Player, number: Number) -> Acted
        ensures goes_on { GoesOn K.is_honest (world_of K.Keeper self.old) (world_of K.Keeper self.new) }
        ensures said { IsAnsweredBy number (world_of K.Keeper self.new) result }
    {
        let party = party_of(player);
        if !matches!(self.pass(Event::Save { party }), Outcome::Saved(_)) {
            self.restart(party);
            self.restless = true;
            return Acted::Failed;
        }
        self.claimed = number;
        let _ = self.pass(Event::Tick { party });
        self.settle();
        self.answer_to(number)
    }

    /// Returns `Done` or `Waits`, depending on whether the entry of this number is shown.
    fn answer_to(&self, number: Number) -> Acted
        ensures { TellsEntry number (world_of K.Keeper self.now) result }
    {
        if self.told() >= number {
            Acted::Done
        } else {
            Acted::Waits
        }
    }
}

/// Returns whether the entry of this number, from 1, exists, is the player's, and answers the
/// action.
pub fn is_answered(log: &Record, player: Player, number: Number, action: &Action) -> bool
    ensures { IsTrue result ↔ IsAnswered log.now player number action.now }
{
    match log.entry(number) {
        Some(entry) => is_by(log, number, player) && answers(entry, action),
        None => false,
    }
}

/// Returns whether two actions are the same.
fn is_same(one: &Action, other: &Action) -> bool
    ensures { IsTrue result ↔ (one.now ≡ other.now) }
{
    one == other
}

/// Returns whether the entry of this number exists and is the player's.
fn is_by(log: &Record, number: Number, player: Player) -> bool
    ensures { IsTrue result ↔ IsBy log.now number player }
{
    is_seat(log.by(number), player)
}

/// Returns whether this is the seat of the player.
fn is_seat(seat: Option<Player>, player: Player) -> bool
    ensures { IsTrue result ↔ (seat ≡ Some player) }
{
    seat == Some(player)
}

/// Returns whether an entry answers an action. A roll is answered by a roll of any dice, every
/// other action only by the entry of the same kind and content.
fn answers(entry: &Entry, action: &Action) -> bool
    ensures { IsTrue result ↔ IsAnswer action.now entry.now }
{
    match action {
        Action::Roll => matches!(entry, Entry::Rolled(_)),
        Action::Double => *entry == Entry::Doubled,
        Action::Take => *entry == Entry::Taken,
        Action::Drop => *entry == Entry::Dropped,
        Action::Move(turn) => *entry == Entry::Moved(turn.copy()),
        Action::Resign(level) => *entry == Entry::Resigned(*level),
        Action::Accept => *entry == Entry::Accepted,
        Action::Reject => *entry == Entry::Rejected,
    }
}
