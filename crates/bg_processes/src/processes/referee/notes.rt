//! The notes that a referee's process takes.
ghost use Rattle.std.specs.Prelude.{◌≡◌, if◌then◌else◌};
ghost use Rattle.bg_auto.specs.Attempts.{restarts_referee as is_restart};
ghost use Rattle.bg_processes.specs.RefereeRounds.{NotesOfReferee, is_heard as is_heard_in};

use crate::processes::rounds::saved_after;
use bg_auto::{DiceAttempts, Observer};
use bg_match::Number;
use bg_referee::TakeOutcome;
use bg_wire::REFEREE;
use bg_world::{Event, Outcome};

/// The notes that a referee's process takes of the events at its node.
#[derive(Drop)]
pub(crate) struct RefereeNotes {
    pub(crate) dice: DiceAttempts,
    /// Number of entries that are saved.
    pub(crate) saved: Number,
    /// Number of ticks since a party that lacks an entry was last heard of.
    pub(crate) quiet: u32,
}

impl RefereeNotes {
    /// Notes the outcome of an event, after which the referee holds `held` entries, and tells the
    /// observer.
    pub(crate) fn note<O: Observer>(
        &mut self,
        observer: &mut O,
        event: &Event,
        outcome: &Outcome,
        held: Option<Number>,
    )
        ensures { NotesOfReferee self.old event.now outcome.now held self.new }
    {
        self.dice = self.dice.after(restarts_referee(event), outcome, held);
        self.saved = saved_after(self.saved, event, outcome, held);
        self.quiet = quiet_after(self.quiet, outcome);
        observer.happened(event, outcome, held);
    }
}

/// Returns whether an event restarts the referee.
fn restarts_referee(event: &Event) -> bool
    ensures { result ≡ is_restart event.now }
{
    matches!(event, Event::Restart { party: REFEREE })
}

/// Returns whether a party that lacks an entry is heard of, or sent to.
fn is_heard(outcome: &Outcome) -> bool
    ensures { result ≡ is_heard_in outcome.now }
{
    match outcome {
        Outcome::Took(TakeOutcome::Answer(..) | TakeOutcome::Accepted(_)) => true,
        Outcome::Sent(count) => *count > 0,
        _ => false,
    }
}

/// Returns the number of ticks since a party that lacks an entry was last heard of, after an
/// outcome.
fn quiet_after(quiet: u32, outcome: &Outcome) -> u32
    ensures { result ≡ (if is_heard_in outcome.now then 0 else quiet) }
{
    if is_heard(outcome) { 0 } else { quiet }
}
