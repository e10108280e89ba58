//! Output for a person, in lines that fit their screen.

use bg_board::Player;
use bg_console::{
    Terminal, allocated, broken, with_bold_offers, with_coloured_checkers, write_out, written,
};
use bg_match::Number;
use bg_reports::Ending;
use bg_table::Drawing;
use std::alloc::AllocError;

/// The columns and the lines of a screen of unknown size.
const USUAL_COLUMNS: usize = 80;

const USUAL_LINES: usize = 24;

/// The columns of a board in rows: one more than the narrowest screen that has it.
const COLUMNS_OF_ROWS: usize = 51;

/// A screen, its numbers of columns and lines, and whether it has colours.
#[derive(Drop)]
pub(crate) struct Screen<'a> {
    rt: &'a HostRuntime,
    pub(crate) columns: usize,
    pub(crate) lines: usize,
    has_colours: bool,
}

impl<'a> Screen<'a> {
    /// Creates a screen with as many columns as the options say, or else as the terminal has, if it
    /// is one, and with its lines.
    pub(crate) fn new(
        rt: &'a HostRuntime,
        said: Option<u32>,
        terminal: Option<Terminal>,
    ) -> Screen<'a> {
        let (found, lines, has_colours) = match terminal {
            Some(terminal) => (terminal.columns, terminal.lines, terminal.has_colours),
            None => (USUAL_COLUMNS, USUAL_LINES, false),
        };
        let columns = match said {
            Some(columns) => columns as usize,
            None => found,
        };
        Screen {
            rt,
            columns,
            lines,
            has_colours,
        }
    }

    /// Prints a text as it is.
    pub(crate) fn print(&self, text: &[u8]) -> Result<(), Ending> {
        written(self.rt, write_out(self.rt, text))
    }

    /// Prints lines, broken between words where they don't fit.
    pub(crate) fn say(&self, lines: &[u8]) -> Result<(), Ending> {
        let text = allocated(self.rt, broken(self.rt.alloc(), lines, self.columns))?;
        self.print(&text)
    }

    /// Prints lines that were made just now as [`say`](Self::say) does. Reports where there was no
    /// memory for them.
    pub(crate) fn say_made(&self, lines: Result<Vec<u8>, AllocError>) -> Result<(), Ending> {
        self.say(&allocated(self.rt, lines)?)
    }

    /// Prints a text with a board as [`say`](Self::say) does, with the rows of the board whole. The
    /// checkers of this player are bold if there are colours.
    pub(crate) fn show_board(&self, text: &[u8], own: Player) -> Result<(), Ending> {
        let columns = match Drawing::fitting(self.columns) {
            Drawing::Points => self.columns,
            Drawing::Rows | Drawing::Stacks => self.columns.max(COLUMNS_OF_ROWS),
        };
        let text = allocated(self.rt, broken(self.rt.alloc(), text, columns))?;
        if !self.has_colours {
            return self.print(&text);
        }
        let coloured = with_coloured_checkers(self.rt.alloc(), &text, own);
        self.print(&allocated(self.rt, coloured)?)
    }

    /// Prints the line that says whose turn it is as [`say_made`](Self::say_made) does, with the
    /// offers bold if there are colours.
    pub(crate) fn say_turn(&self, line: Result<Vec<u8>, AllocError>) -> Result<(), Ending> {
        let line = allocated(self.rt, line)?;
        let text = allocated(self.rt, broken(self.rt.alloc(), &line, self.columns))?;
        if !self.has_colours {
            return self.print(&text);
        }
        let bold = with_bold_offers(self.rt.alloc(), &text);
        self.print(&allocated(self.rt, bold)?)
    }

    /// Prints a line with a number between these words.
    pub(crate) fn say_number(
        &self,
        before: &str,
        number: Number,
        behind: &str,
    ) -> Result<(), Ending> {
        let line = format!(in self.rt.alloc(); "{before}{number}{behind}");
        self.say(allocated(self.rt, line)?.as_bytes())
    }
}
