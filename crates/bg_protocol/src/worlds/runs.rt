//! Runs of many events, one after the other.
ghost use Rattle.std.specs.Prelude.{◌≡◌, ◌+◌, ◌<◌, ◌^◌, [], ◌∷◌, count_by};
ghost use Rattle.bg_protocol.specs.Worlds.WorldRuns.{is_fault, is_memory};

use crate::{Event, Keeper, Link, Outcome, World};
use bg_party::Learned;
use bg_referee::{DueFault, TakeOutcome};

/// The report of a run.
#[derive(Clone, Copy, Debug, PartialEq, Eq)]
pub struct RunReport {
    /// The number of events.
    pub done: usize,
    /// The number of events that needed memory which there was not.
    pub memory: usize,
    /// The number of events whose outcome was a `LinkFault`, a `SaveFault` or a `RestoreFault`.
    pub faults: usize,
}

impl Outcome {
    /// Returns whether there was no memory for the outcome, in whatever call it was needed.
    pub fn wants_memory(&self) -> bool
        ensures { result ≡ is_memory self.now }
    {
        matches!(
            self,
            Outcome::Due(Err(DueFault::Memory))
                | Outcome::Took(TakeOutcome::Memory)
                | Outcome::Learned(Learned::Memory)
                | Outcome::Memory
        )
    }
}

/// Returns whether a device failed, or slots restore nothing for their party.
pub(crate) fn is_fault(outcome: &Outcome) -> bool
    ensures { result ≡ is_fault outcome.now }
{
    matches!(
        outcome,
        Outcome::LinkFault | Outcome::SaveFault | Outcome::RestoreFault(_)
    )
}

/// Counts one more event.
fn count(report: &mut RunReport, outcome: &Outcome)
    requires done { report.old.done + 1 < 2 ^ 64 }
    requires memory { report.old.memory + 1 < 2 ^ 64 }
    requires faults { report.old.faults + 1 < 2 ^ 64 }
    ensures done { report.new.done ≡ report.old.done + 1 }
    ensures memory { report.new.memory ≡ report.old.memory + count_by is_memory (outcome.now ∷ []) }
    ensures faults { report.new.faults ≡ report.old.faults + count_by is_fault (outcome.now ∷ []) }
{
    report.done += 1;
    if outcome.wants_memory() {
        report.memory += 1;
    }
    if is_fault(outcome) {
        report.faults += 1;
    }
}

impl<L: Link, K: Keeper> World<L, K> {
    ghost use Rattle.bg_protocol.specs.Worlds.World.{view_of};
    ghost use Rattle.bg_protocol.specs.Worlds.Upholds.{Upholds};
    ghost use Rattle.bg_protocol.specs.Worlds.WorldRuns.{RunsAll, RunsCalls};
    ghost use Rattle.bg_protocol.specs.Worlds.WorldState.{IsReachedWorld};

    /// Runs all events, in order (docs/PROTOCOL.md, "The state and its steps"), and reports how
    /// many of them needed memory or ended in a fault. No outcome ends the run.
    ///
    /// Over honest devices, from a world that a run leads to (docs/PROTOCOL.md,
    /// "What all parties together promise"): After any list of events (deliveries, losses, repeats,
    /// reorderings, ticks, failed saves and restarts), every party's record is a prefix of the
    /// referee's; the referee's record is a legal match; every entry of a seat in it answers the
    /// one action that this seat ever claimed under that number; and each event changed the records
    /// just as a protocol step does. [`World::held`] gives these records.
    pub fn run(&mut self, events: &[Event]) -> RunReport
        // The calls of each event, on any devices. Over honest ones they are a run of the protocol:
        // "each event changed the records just as a protocol step does" (`RunsProtocol`).
        ensures run { RunsAll L.is_honest K.is_honest (view_of L.Link K.Keeper self.old) events.now
            result (view_of L.Link K.Keeper self.new) }
        // "Every party's record is a prefix of the referee's; the referee's record is a legal
        // match; every entry of a seat in it answers the one action that this seat ever claimed
        // under that number": over what `held` gives (`HeadlineHeld`), and over the protocol's
        // state (`Headline`).
        ensures upholds { L.is_honest → K.is_honest → IsReachedWorld (view_of L.Link K.Keeper self.old)
            → Upholds (view_of L.Link K.Keeper self.new) }
    {
        self.steps(events)
    }

    /// Makes the calls of all events.
    pub(crate) fn steps(&mut self, events: &[Event]) -> RunReport
        ensures { RunsCalls L.is_honest K.is_honest (view_of L.Link K.Keeper self.old) events.now
            result (view_of L.Link K.Keeper self.new) }
    {
        let mut report = RunReport {
            done: 0,
            memory: 0,
            faults: 0,
        };
        for event in events {
            let mut outcome = Outcome::NoSuchParty;
            self.happen(event.copy(), &mut outcome);
            count(&mut report, &outcome);
        }
        report
    }
}
