//! The messages while the process of one party runs.

use bg_auto::{Observer, party_at};
use bg_console::{failed, say, say_failures, say_number};
use bg_match::Number;
use bg_party::Learned;
use bg_processes::Failures;
use bg_referee::TakeOutcome;
use bg_reports::Ending;
use bg_world::{Event, Outcome, RestoreCause, outcome_text};
use std::fmt::Display;

/// What to do where the parties can't go on together.
const TOGETHER: &str =
    "end all processes, and put back copies that were made together, or `recover`";

/// The sign of that at a referee whose folder is older than that of another party.
const BEHIND: &str = "another party has entries that the referee lacks";

/// An observer that reports failed devices on standard error. It also reports, once, that the
/// parties can't go on together, and the sign of that (docs/OPERATING.md, "Messages").
#[derive(Drop)]
pub struct FailureReporter<'a, R> {
    rt: &'a R,
    /// The failures that the devices note.
    failures: &'a Failures,
    /// The folder of the devices' files.
    folder: &'a str,
    warned: bool,
    /// Whether the party is down until its files can be read again.
    is_down: bool,
}

impl<'a, R: Eprint> FailureReporter<'a, R> {
    /// Creates a reporter that has seen nothing yet. The devices note their failures in `failures`,
    /// and their files are in `folder`.
    pub fn new(rt: &'a R, failures: &'a Failures, folder: &'a str) -> FailureReporter<'a, R> {
        FailureReporter {
            rt,
            failures,
            folder,
            warned: false,
            is_down: false,
        }
    }

    /// Reports the failures of devices since the last call.
    pub fn say_failures(&self) {
        say_failures(self.rt, self.failures, self.folder);
    }

    /// Reports that the files of the parties are from different points in time, and the sign of
    /// that, unless it was reported before.
    pub fn warn<D: Display + Drop>(&mut self, sign: D) {
        if !self.warned {
            say(
                self.rt,
                format_args!(
                    "the folders of the parties are from different points in time: {sign}; {TOGETHER}"
                ),
            );
        }
        self.warned = true;
    }
}

impl<'a, R: Eprint> FailureReporter<'a, R> {
    /// Reports the failures of devices in an event, and that the parties can't go on together, if
    /// the event shows that.
    pub fn saw(&mut self, event: &Event, outcome: &Outcome) {
        self.say_failures();
        if !is_out_of_step(outcome) {
            return;
        }
        if matches!(outcome, Outcome::Took(TakeOutcome::Ahead)) {
            self.warn(BEHIND);
        } else {
            let line = outcome_text(outcome);
            self.warn(format_args!("at party {}: {}", party_at(event), line.as_str()));
        }
    }

    /// Reports that the party is halted by its files, or continues, where that has changed.
    fn tell_of_files(&mut self, event: &Event, outcome: &Outcome) {
        let Event::Restart { party } = *event else {
            return;
        };
        let is_down = match outcome {
            Outcome::RestoreFault(RestoreCause::Device) => true,
            Outcome::Restarted => false,
            _ => return,
        };
        if is_down == self.is_down || self.failures.are_final() {
            return;
        }
        self.is_down = is_down;
        say_number(
            self.rt,
            "party ",
            party.into(),
            if is_down {
                " stands still until its files can be read again"
            } else {
                " has its files again, and goes on"
            },
        );
    }

    /// Ends with `Failed`, and reports it, where the files of the party were given up: a write to
    /// one of them failed, and could not be taken back.
    pub fn check_files(&self) -> Result<(), Ending> {
        if !self.failures.are_final() {
            return Ok(());
        }
        self.say_failures();
        Err(failed(
            self.rt,
            "what was saved last may be lost with the next loss of power: mend the disk, and start again",
        ))
    }
}

impl<'a, R: Eprint> Observer for FailureReporter<'a, R> {
    fn happened(&mut self, event: &Event, outcome: &Outcome, _held: Option<Number>) {
        self.saw(event, outcome);
        self.tell_of_files(event, outcome);
    }

    fn played(&mut self, _done: u32) {}
}

/// Returns whether a packet was refused that no party sends while its slots hold what was last
/// written to them.
pub fn is_out_of_step(outcome: &Outcome) -> bool {
    matches!(
        outcome,
        Outcome::Took(TakeOutcome::Ahead | TakeOutcome::NotYourTurn | TakeOutcome::Illegal(_))
            | Outcome::Learned(Learned::Conflict(_) | Learned::Illegal(_))
    )
}
