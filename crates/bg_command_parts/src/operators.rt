//! The messages to the operator of a match over sockets and files, while it is played.

use crate::failure_reporters::FailureReporter;
use bg_auto::{Observer, party_at};
use bg_console::{Progress, say_number};
use bg_match::Number;
use bg_processes::Failures;
use bg_wire::REFEREE;
use bg_world::{Event, Outcome};
use std::time::Clock;

/// Number of parties that save: the referee and the seats.
const SAVING: usize = 3;

/// The results of a party's saves so far.
#[derive(Clone, Copy, PartialEq, Eq)]
enum Saves {
    Untried,
    Failed,
    Succeeded,
}

/// The operator, who is told on standard error how the match proceeds (docs/OPERATING.md,
/// "Messages").
#[derive(Drop)]
pub struct Operator<'a, R> {
    rt: &'a R,
    progress: Progress,
    /// Number of all rounds.
    rounds: u32,
    /// Number of entries that the referee last held.
    referee: Number,
    /// The party of the last event.
    last_party: u8,
    reporter: FailureReporter<'a, R>,
    saves: [Saves; SAVING],
}

impl<'a, R: Clock + Eprint> Operator<'a, R> {
    /// Creates the operator of a match of `rounds` rounds in which nothing has happened yet. The
    /// match's devices note their failures in `failures`, and its files are in `folder`.
    pub fn new(
        rt: &'a R,
        failures: &'a Failures,
        folder: &'a str,
        progress: Progress,
        rounds: u32,
    ) -> Operator<'a, R> {
        Operator {
            rt,
            progress,
            rounds,
            referee: 0,
            last_party: REFEREE,
            reporter: FailureReporter::new(rt, failures, folder),
            saves: [Saves::Untried; SAVING],
        }
    }

    /// Ends the messages, as the match is over: reports the failures of devices that were not
    /// reported yet, and names the parties whose saves all failed.
    pub fn end(&self) {
        self.reporter.say_failures();
        for (party, saves) in self.saves.iter().enumerate() {
            if *saves == Saves::Failed {
                say_number(self.rt, "no save of party ", party as u64, " succeeded");
            }
        }
    }

    /// Returns the party of the last event. If the match stopped early, it is the party that
    /// stopped it.
    pub fn last_party(&self) -> u8 {
        self.last_party
    }

    /// Notes the outcome of a save.
    fn saved(&mut self, party: u8, outcome: &Outcome) {
        let Some(saves) = self.saves.get_mut(usize::from(party)) else {
            return;
        };
        match (outcome, *saves) {
            (Outcome::Saved(_), _) => *saves = Saves::Succeeded,
            (Outcome::SaveFault, Saves::Untried) => *saves = Saves::Failed,
            _ => {}
        }
    }

    /// Notes that a party restarts with `held` entries.
    fn restarted(&mut self, party: u8, held: Number) {
        if held > self.referee {
            let referee = self.referee;
            self.reporter.warn(format_args!(
                "party {party} has {held} entries saved, the referee {referee}"
            ));
        }
    }
}

impl<'a, R: Clock + Eprint> Observer for Operator<'a, R> {
    fn happened(&mut self, event: &Event, outcome: &Outcome, held: Option<Number>) {
        self.reporter.say_failures();
        let party = party_at(event);
        self.last_party = party;
        if party == REFEREE {
            self.referee = held.unwrap_or_default();
        }
        match event {
            Event::Save { party: _ } => self.saved(party, outcome),
            Event::Restart { party: _ } => self.restarted(party, held.unwrap_or_default()),
            _ => {}
        }
        self.reporter.saw(event, outcome);
    }

    fn played(&mut self, done: u32) {
        self.progress.tell(self.rt, "rounds", done, self.rounds);
    }
}
