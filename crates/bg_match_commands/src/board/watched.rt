//! A match that is watched by the key file of its watchers.

use crate::board::pages::{Pages, Place};
use crate::watchers::Watcher;
use bg_auto::Observer;
use bg_command_parts::is_out_of_step;
use bg_console::say_of;
use bg_match::Number;
use bg_processes::{Going, Liveness, LivenessChange};
use bg_reports::Ending;
use bg_world::{Event, Outcome};

/// Number of looks after which a match without an entry is shown. What its referee has may still be
/// on its way, and the pages of an earlier process may show it.
const LOOKS_WITHOUT_ENTRY: u8 = 5;

/// A watcher, and what was heard of its match.
#[derive(Drop)]
pub(crate) struct WatchedMatch<'a> {
    process: Watcher<'a>,
    liveness: Liveness,
    doubts: Doubts,
    /// Number of looks without an entry since the referee was heard.
    looks: u8,
    is_over: bool,
}

/// An observer that notes whether the referee has other entries than the watcher.
#[derive(Drop)]
struct Doubts {
    is_cut_off: bool,
}

impl Observer for Doubts {
    fn happened(&mut self, _event: &Event, outcome: &Outcome, _held: Option<Number>) {
        self.is_cut_off = self.is_cut_off || is_out_of_step(outcome);
    }

    fn played(&mut self, _done: u32) {}
}

impl<'a> WatchedMatch<'a> {
    /// Creates the state of a match whose watcher has begun.
    pub(crate) fn new(process: Watcher<'a>) -> WatchedMatch<'a> {
        WatchedMatch {
            process,
            liveness: Liveness::new(),
            doubts: Doubts { is_cut_off: false },
            looks: 0,
            is_over: false,
        }
    }

    /// Returns whether the watcher can't go on with what the referee has, so that another one is to
    /// begin.
    pub(crate) fn is_cut_off(&self) -> bool {
        self.doubts.is_cut_off
    }

    /// Runs a round of the watcher, unless its match is over. Reports whether the referee is heard.
    pub(crate) fn go_on(&mut self, rt: &HostRuntime, path: &str) {
        if self.is_over || self.doubts.is_cut_off {
            return;
        }
        self.is_over = self.process.round(true, &mut self.doubts) == Going::Over;
        if self.doubts.is_cut_off {
            say_of(
                rt,
                path,
                ": the referee has other entries than before, and is watched anew",
            );
        }
        match self.liveness.after_round(self.process.link(), true) {
            Some(LivenessChange::Silent) => {
                say_of(rt, path, ": no word from the referee for three seconds");
            }
            Some(LivenessChange::HeardAgain) => {
                say_of(rt, path, ": the referee is heard again");
            }
            None => {}
        }
    }

    /// Writes the pages where they have something new. Returns whether they had. Nothing is written
    /// before the referee was heard.
    pub(crate) fn look(
        &mut self,
        rt: &HostRuntime,
        place: Place<'_>,
        pages: &mut Pages,
    ) -> Result<bool, Ending> {
        if self.process.link().heard() == 0 {
            return Ok(false);
        }
        let record = self.process.held();
        if record.len() == 0 && self.looks < LOOKS_WITHOUT_ENTRY {
            self.looks = self.looks.saturating_add(1);
            return Ok(false);
        }
        pages.show(rt, place, record)
    }
}
