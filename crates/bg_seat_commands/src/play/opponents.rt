//! The messages on the other player's coming and going.

use crate::play::Table;
use crate::typed_lines::joined;
use bg_processes::OpponentChange;
use bg_reports::Ending;
use bg_text::letter;

impl<'a> Table<'a> {
    /// Prints whether the other player has come, left or returned, where there is news of that.
    /// Returns whether there was.
    pub(super) fn tell_of_opponent(&mut self) -> Result<bool, Ending> {
        let opponent = self.player.opponent();
        let is_awaited = self.seat.awaits(opponent);
        let socket = self.seat.link();
        let change = self.opponent.after_round(self.rt, socket, is_awaited);
        let Some(change) = change else {
            return Ok(false);
        };
        let words = [letter(opponent), words_of(change)];
        self.screen.say_made(joined(self.rt.alloc(), &words))?;
        Ok(true)
    }
}

/// Returns the words on the other player, which stand behind their letter.
fn words_of(change: OpponentChange) -> &'static str {
    match change {
        OpponentChange::Missing => "is not here yet",
        OpponentChange::Came => "is here now",
        OpponentChange::Left => {
            "is away: nothing was heard of that seat for ten seconds, and the match waits"
        }
        OpponentChange::Returned => "is back",
    }
}
