//! The attempt at which the referee gets a word for its next entry.
ghost use Rattle.std.specs.Prelude.{◌≡◌, option_copied};
ghost use Rattle.bg_auto.specs.Attempts.{Notes, held_entries, restarts_referee as is_restart};
ghost use Rattle.bg_auto.specs.Attempts.{keyed_word_for, was_in_vain as is_in_vain, word_for};
ghost use Rattle.bg_protocol.specs.Worlds.Calls.{Calls};
ghost use Rattle.bg_protocol.specs.Protocol.Roles.{role};
ghost use Rattle.bg_protocol.specs.Worlds.Starts.{held_of};
ghost use Rattle.bg_protocol.specs.Worlds.World.{view_of};

use crate::words::{key_of_seed, next_dice_word};
use bg_match::{Number, Record};
use bg_referee::{DueFault, TakeOutcome};
use bg_wire::REFEREE;
use bg_world::{Event, Keeper, Link, Outcome, World};

/// The number of words in a row that gave the referee nothing for its next entry (docs/FORMATS.md,
/// "Random words").
#[derive(Clone, Copy, Debug, PartialEq, Eq)]
pub struct DiceAttempts {
    /// The number of entries that the referee holds, or `None` where it is down.
    pub held: Option<Number>,
    /// The attempt at the next entry, from 0.
    pub attempt: u16,
}

impl DiceAttempts {
    /// Returns the first attempt where the referee holds this number of entries.
    pub fn first(held: Option<Number>) -> DiceAttempts
        ensures { result ≡ record { held = held; attempt = 0 } }
    {
        DiceAttempts { held, attempt: 0 }
    }

    /// Returns the word that the referee gets: that of its next entry at this attempt, or 0 where
    /// it is down.
    pub fn word(self, seed: u64) -> u32
        ensures { result ≡ word_for seed self.held self.attempt }
    {
        self.keyed_word(&key_of_seed(seed))
    }

    /// Returns the word that the referee gets, as [`DiceAttempts::word`], by the bytes of a key
    /// that is no seed's. In a match whose dice nobody can foresee, the key is a secret
    /// (docs/FORMATS.md, "Random words").
    pub fn keyed_word(self, key: &[u8; 32]) -> u32
        ensures { result ≡ keyed_word_for key.now self.held self.attempt }
    {
        match self.held {
            None => 0,
            Some(entries) => next_dice_word(key, entries, self.attempt),
        }
    }

    /// Returns the attempt after an event. It is the first where the event restarted the referee,
    /// or the referee holds another number of entries. Else it is the next one where the word was
    /// in vain (the first after the last), and the same one where it was not.
    pub fn after(self, restarted: bool, outcome: &Outcome, held: Option<Number>) -> DiceAttempts
        ensures { Notes self restarted outcome.now held result }
    {
        if restarted || held != self.held {
            return DiceAttempts::first(held);
        }
        if !was_in_vain(outcome) {
            return self;
        }
        DiceAttempts {
            held,
            attempt: self.attempt.wrapping_add(1),
        }
    }

    /// Runs an event in a world, and notes the attempt after it.
    pub fn step<L: Link, K: Keeper>(&mut self, world: &mut World<L, K>, event: Event) -> Outcome
        ensures calls { Calls L.is_honest K.is_honest (view_of L.Link K.Keeper world.old) event result
            (view_of L.Link K.Keeper world.new) }
        ensures notes { Notes self.old (is_restart event) result
            (held_entries (held_of (view_of L.Link K.Keeper world.new) (role 0))) self.new }
    {
        let restarted = restarts_referee(&event);
        let outcome = world.step(event);
        *self = self.after(restarted, &outcome, entries_of(world.held(REFEREE)));
        outcome
    }
}

/// Returns whether the event restarts the referee.
fn restarts_referee(event: &Event) -> bool
    ensures { result ≡ is_restart event.now }
{
    matches!(event, Event::Restart { party: REFEREE })
}

/// Returns the number of entries that a party holds, if it is up.
pub(crate) fn entries_of(held: Option<&Record>) -> Option<Number>
    ensures { result ≡ held_entries (option_copied held.entry) }
{
    match held {
        None => None,
        Some(record) => Some(record.len()),
    }
}

/// Returns whether the word that was handed in gave no entry: it has no dice, or they are equal and
/// open no game.
fn was_in_vain(outcome: &Outcome) -> bool
    ensures { result ≡ is_in_vain outcome.now }
{
    matches!(
        outcome,
        Outcome::Due(Err(DueFault::WordRefused | DueFault::EqualOpening))
            | Outcome::Took(TakeOutcome::WordRefused)
    )
}
