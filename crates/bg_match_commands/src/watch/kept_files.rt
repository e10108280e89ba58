//! The files that are kept of a match that is watched.

use bg_console::{Outputs, Published};
use bg_match::Record;
use bg_reports::Ending;

/// The files that a watcher keeps for others. Each is written and reported by itself, so that one
/// that can't be written hides nothing of another.
#[derive(Drop)]
pub(super) struct KeptFiles<'a> {
    board: Published<'a>,
    transcript: Published<'a>,
    page: Published<'a>,
}

impl<'a> KeptFiles<'a> {
    /// Creates the state for these outputs, none of which is written yet.
    pub(super) fn new(outputs: Outputs<'a>) -> KeptFiles<'a> {
        let none = Outputs {
            board: None,
            transcript: None,
            page: None,
            ..outputs
        };
        KeptFiles {
            board: Published::new(Outputs {
                board: outputs.board,
                ..none
            }),
            transcript: Published::new(Outputs {
                transcript: outputs.transcript,
                ..none
            }),
            page: Published::new(Outputs {
                page: outputs.page,
                ..none
            }),
        }
    }

    /// Returns whether one of the files could not be written the last time.
    pub(super) fn are_failing(&self) -> bool {
        self.board.is_failing() || self.transcript.is_failing() || self.page.is_failing()
    }

    /// Rewrites the files that are old, if enough time has passed, as
    /// [`Published::after_round`] does.
    pub(super) fn after_round(
        &mut self,
        rt: &HostRuntime,
        record: &Record,
        news: bool,
        tick: bool,
        is_heard: bool,
    ) -> Result<(), Ending> {
        self.board.after_round(rt, record, news, tick, is_heard)?;
        self.transcript
            .after_round(rt, record, news, tick, is_heard)?;
        self.page.after_round(rt, record, news, tick, is_heard)
    }

    /// Writes the record to the files that lack some of it, as [`Published::write`] does.
    pub(super) fn write(
        &mut self,
        rt: &HostRuntime,
        record: &Record,
        is_heard: bool,
    ) -> Result<(), Ending> {
        self.board.write(rt, record, is_heard)?;
        self.transcript.write(rt, record, is_heard)?;
        self.page.write(rt, record, is_heard)
    }
}
