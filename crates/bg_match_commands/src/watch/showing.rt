//! The ways to show a match that is watched.

use crate::watch::live_boards::LiveBoard;
use bg_auto::Observer;
use bg_command_parts::FailureReporter;
use bg_console::Telling;
use bg_match::{Number, Record};
use bg_processes::LivenessChange;
use bg_reports::Ending;
use bg_world::{Event, Outcome};

/// The lines of a transcript, as they come.
#[derive(Drop)]
pub(super) struct Lines<'a> {
    pub(super) rt: &'a HostRuntime,
    pub(super) telling: Telling,
    pub(super) reporter: FailureReporter<'a, HostRuntime>,
}

/// The way in which a match is shown: its transcript, or a board that is redrawn.
#[derive(Drop)]
pub(super) enum Showing<'a> {
    Lines(Lines<'a>),
    Board(LiveBoard<'a>),
}

impl<'a> Showing<'a> {
    /// Shows what a round brought, and returns whether there were new entries.
    pub(super) fn go_on(
        &mut self,
        record: &Record,
        word: Option<LivenessChange>,
        is_heard: bool,
    ) -> Result<bool, Ending> {
        match self {
            Showing::Lines(lines) => lines.telling.go_on(lines.rt, record),
            Showing::Board(board) => board.go_on(record, word, is_heard),
        }
    }

    /// Notes whether a file that is kept for others can't be written. Its name was reported on the
    /// standard error.
    pub(super) fn note_files(&mut self, is_unwritten: bool) {
        if let Showing::Board(board) = self {
            board.note_files(is_unwritten);
        }
    }
}

impl<'a> Observer for Showing<'a> {
    fn happened(&mut self, event: &Event, outcome: &Outcome, held: Option<Number>) {
        match self {
            Showing::Lines(lines) => lines.reporter.happened(event, outcome, held),
            Showing::Board(board) => board.happened(event, outcome, held),
        }
    }

    fn played(&mut self, _done: u32) {}
}
