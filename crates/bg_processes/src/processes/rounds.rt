//! The common parts of the processes of all parties.
ghost use Rattle.std.specs.Prelude.{◌≡◌, is_none, option_copied};
ghost use Rattle.bg_auto.specs.Attempts.{held_entries};
ghost use Rattle.bg_match.specs.Match.{ActsAfter};
ghost use Rattle.bg_match.specs.declared.phases.Actor.TheVariants as acting;
ghost use Rattle.bg_processes.specs.Rounds.{IsOver, IsOverAndSaved, Tells, count_of, ends_takes as is_last_take};
ghost use Rattle.bg_processes.specs.Rounds.{keeps_all as has_all_kept, saved_after as count_after};

use bg_board::Player;
use bg_match::{Actor, Number, Record};
use bg_world::{Event, Outcome};

/// Number of parties of a match, at most: the referee, two seats, and up to 253 watchers.
pub const MOST_PARTIES: usize = 256;

/// Number of datagrams that a round takes, at most, so that what came is saved and answered in
/// between.
pub(crate) const MOST_TAKEN: u32 = 64;

/// Whether a process continues after a round.
#[derive(Clone, Copy, Debug, PartialEq, Eq)]
pub enum Going {
    /// It waits for the next round.
    On,
    /// The match is over, and the process has nothing left to do.
    Over,
}

/// Returns the number of entries that a party holds, if it is up.
pub(crate) fn entries_of(held: Option<&Record>) -> Option<Number>
    ensures { result ≡ held_entries (option_copied held.entry) }
{
    match held {
        None => None,
        Some(record) => Some(record.len()),
    }
}

/// Returns the number of entries that a party holds: 0 where it is down.
pub(crate) fn count_of(held: Option<&Record>) -> Number
    ensures { result ≡ count_of (held_entries (option_copied held.entry)) }
{
    match held {
        None => 0,
        Some(record) => record.len(),
    }
}

/// Returns whether a party is down.
pub(crate) fn is_down(held: Option<&Record>) -> bool
    ensures { result ≡ is_none (option_copied held.entry) }
{
    held.is_none()
}

/// Returns whether the seat of this player acts after a record.
pub(crate) fn seat_acts(record: &Record, player: Player) -> bool
    ensures { Tells result (ActsAfter «record».now.terms «record».now.entries (acting.Seat player)) }
{
    match record.actor() {
        Actor::Seat(seat) if seat == player => true,
        Actor::Seat(_) => false,
        Actor::Referee | Actor::Nobody => false,
    }
}

/// Returns whether nobody acts after a record, so that the match is over.
fn nobody_acts(record: &Record) -> bool
    ensures { Tells result (ActsAfter «record».now.terms «record».now.entries acting.Nobody) }
{
    match record.actor() {
        Actor::Nobody => true,
        Actor::Referee | Actor::Seat(_) => false,
    }
}

/// Returns whether a party knows that the match is over.
pub(crate) fn is_over(held: Option<&Record>) -> bool
    ensures { Tells result (IsOver (option_copied held.entry)) }
{
    match held {
        None => false,
        Some(record) => nobody_acts(record),
    }
}

/// Returns whether a party knows that the match is over, and holds exactly the `saved` entries.
pub(crate) fn is_over_and_saved(held: Option<&Record>, saved: Number) -> bool
    ensures { Tells result (IsOverAndSaved (option_copied held.entry) saved) }
{
    match held {
        None => false,
        Some(record) => nobody_acts(record) && record.len() == saved,
    }
}

/// Returns whether a take is the last of its round: nothing has come, or nothing can be taken.
pub(crate) fn ends_takes(outcome: &Outcome) -> bool
    ensures { result ≡ is_last_take outcome.now }
{
    matches!(
        outcome,
        Outcome::NoDatagram | Outcome::LinkFault | Outcome::Down
    )
}

/// Returns whether the slots hold what the party holds after an event: it was saved, or restored.
pub(crate) fn keeps_all(event: &Event, outcome: &Outcome) -> bool
    ensures { result ≡ has_all_kept event.now outcome.now }
{
    match event {
        Event::Save { party: _ } => matches!(outcome, Outcome::Saved(_)),
        Event::Restart { party: _ } => true,
        _ => false,
    }
}

/// Returns the number of entries that are saved after an event, where the party then holds `held`
/// entries.
pub(crate) fn saved_after(
    saved: Number,
    event: &Event,
    outcome: &Outcome,
    held: Option<Number>,
) -> Number
    ensures { result ≡ count_after saved event.now outcome.now held }
{
    if keeps_all(event, outcome) {
        held.unwrap_or_default()
    } else {
        saved
    }
}
