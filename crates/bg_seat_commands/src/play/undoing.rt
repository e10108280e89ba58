//! Taking back what a person typed of a turn.

use crate::play::Table;
use bg_match::Entry;
use bg_reports::Ending;

/// The messages to a player who takes back what was typed of a turn, to one who typed nothing of it,
/// and to one whose turn was played last.
const TAKEN_BACK: &[u8] = b"what you typed of this turn is taken back";

const NOTHING_TYPED: &[u8] = b"nothing to undo";

const SENT: &[u8] = b"nothing to undo: a turn that was sent can't be taken back";

impl<'a> Table<'a> {
    /// Returns whether the last entry is a turn of the player.
    fn has_just_moved(&self) -> bool {
        match self.seat.record() {
            Some(record) => {
                let last = record.len();
                record.by(last) == Some(self.player)
                    && matches!(record.entry(last), Some(Entry::Moved(_)))
            }
            None => false,
        }
    }

    /// Forgets what was typed of a turn.
    pub(super) fn undo(&mut self) -> Result<(), Ending> {
        if self.typed.is_empty() {
            let is_sent = self.claims_nothing() && self.has_just_moved();
            return self.screen.say(if is_sent { SENT } else { NOTHING_TYPED });
        }
        self.typed.clear();
        self.screen.say(TAKEN_BACK)?;
        self.prompt()
    }
}
