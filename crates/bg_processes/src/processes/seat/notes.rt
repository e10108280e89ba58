//! The notes that a seat's process takes.
ghost use Rattle.std.specs.Prelude.{◌≡◌};
ghost use Rattle.bg_processes.specs.SeatRounds.{NotesOfSeat, is_chosen as is_claimed, is_claim_of as is_made};
ghost use Rattle.bg_processes.specs.SeatRounds.{waits_after as waits_then};

use crate::processes::rounds::{keeps_all, saved_after};
use bg_auto::Observer;
use bg_match::{Action, Number};
use bg_world::{Event, Outcome};

/// The notes that a seat's process takes of the events at its node.
#[derive(Drop)]
pub(crate) struct SeatNotes {
    /// Number of entries that are saved.
    pub(crate) saved: Number,
    /// Whether its last claim is still to be saved, since there was no memory.
    pub(crate) claim_waits: bool,
}

impl SeatNotes {
    /// Notes the outcome of an event, after which the seat holds `held` entries, and tells the
    /// observer.
    pub(crate) fn note<O: Observer>(
        &mut self,
        observer: &mut O,
        event: &Event,
        outcome: &Outcome,
        held: Option<Number>,
    )
        ensures { NotesOfSeat self.old event.now outcome.now held self.new }
    {
        self.saved = saved_after(self.saved, event, outcome, held);
        self.claim_waits = waits_after(self.claim_waits, event, outcome);
        observer.happened(event, outcome, held);
    }
}

/// Returns whether an action was claimed.
pub(crate) fn is_chosen(outcome: &Outcome) -> bool
    ensures { result ≡ is_claimed outcome.now }
{
    matches!(outcome, Outcome::Chose(Ok(_)))
}

/// Returns whether a claim is the one that was made with this outcome.
pub(crate) fn is_claim_of(chosen: &Outcome, claim: Option<(Number, Action)>) -> bool
    ensures { result ≡ is_made chosen.now claim }
{
    match (chosen, claim) {
        (Outcome::Chose(Ok(number)), Some((claimed, _))) => claimed == *number,
        _ => false,
    }
}

/// Returns whether the last claim is still to be saved after an event.
fn waits_after(waits: bool, event: &Event, outcome: &Outcome) -> bool
    ensures { result ≡ waits_then waits event.now outcome.now }
{
    if keeps_all(event, outcome) {
        false
    } else if is_chosen(outcome) {
        true
    } else {
        waits
    }
}
