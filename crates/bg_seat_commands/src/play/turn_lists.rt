//! The list of legal turns.

use crate::play::Table;
use crate::play::turn_words::lines_behind;
use bg_board::Board;
use bg_console::allocated;
use bg_reports::Ending;
use bg_table::legal_turns_text;
use bg_turns::Dice;

/// Number of lines of a screen below those of legal turns: that of `more`, and that in which the
/// player types.
const LINES_BELOW: usize = 2;

/// The columns of a screen that is wider than any.
const MOST_COLUMNS: u16 = 400;

/// The message where there is nothing to move.
const NO_DICE: &[u8] = b"nothing to move: it isn't your turn, or you haven't rolled";

/// The message where not all legal turns were printed.
const THERE_IS_MORE: &[u8] = b"`more` lists further turns";

impl<'a> Table<'a> {
    /// Prints the only legal turn if there is one, and how to play it, unless a choice waits.
    pub(super) fn show_forced(&self) -> Result<(), Ending> {
        if !self.claims_nothing() || self.only_way()?.is_none() {
            return Ok(());
        }
        match self.to_move() {
            Some((board, dice)) => self.screen.say(&self.list_of(&board, dice)?),
            None => Ok(()),
        }
    }

    /// Returns the lines of the legal turns.
    fn list_of(&self, board: &Board, dice: Dice) -> Result<Vec<u8>, Ending> {
        let rt = self.rt;
        let columns = u16::try_from(self.screen.columns).unwrap_or(MOST_COLUMNS);
        let text = legal_turns_text(rt.alloc(), board, self.player, dice, columns);
        allocated(rt, text)
    }

    /// Prints the lines of the legal turns behind the first `behind`, as many as the screen has.
    pub(super) fn list_turns(&mut self, behind: usize) -> Result<(), Ending> {
        let Some((board, dice)) = self.to_move() else {
            self.screen.say(NO_DICE)?;
            return self.prompt();
        };
        let text = self.list_of(&board, dice)?;
        let at_once = self.screen.lines.saturating_sub(LINES_BELOW).max(1);
        let (shown, is_last) = lines_behind(&text, behind, at_once);
        self.screen.say(shown)?;
        if is_last {
            self.listed = 0;
            return Ok(());
        }
        self.listed = behind.saturating_add(at_once);
        self.screen.say(THERE_IS_MORE)
    }
}
