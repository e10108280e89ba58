//! The terminal that is printed to.

use std::env;
use std::env::VarError;
use std::io::IsTerminal;

/// The columns and the lines of a screen of unknown size.
const USUAL_COLUMNS: usize = 80;

const USUAL_LINES: usize = 24;

/// The kind of a terminal that knows no sequence.
const DUMB: &str = "dumb";

/// A terminal that is printed to.
#[derive(Clone, Copy)]
pub struct Terminal {
    pub columns: usize,
    pub lines: usize,
    /// Whether it knows the sequences by which a screen is redrawn in place.
    pub is_drawn_on: bool,
    /// Whether it is given colours.
    pub has_colours: bool,
}

/// Returns the number of columns of standard output, if it is a terminal: that of the environment
/// variable COLUMNS, or else 80, since the standard library has no call that asks the terminal.
pub fn columns(rt: &HostRuntime) -> Option<usize> {
    Some(output_terminal(rt)?.columns)
}

/// Returns what the environment says about standard output, if it is a terminal. Its columns and
/// lines are those of COLUMNS and LINES, or 80 and 24 where these are missing or 0. If TERM is
/// `dumb`, it knows no sequences and has no colours. If NO_COLOR is not empty, it has no colours.
pub fn output_terminal(rt: &HostRuntime) -> Option<Terminal> {
    if !rt.stdout().is_terminal() {
        return None;
    }
    let is_drawn_on = match env::var(rt, "TERM") {
        Ok(kind) => kind.as_str() != DUMB,
        Err(_) => true,
    };
    let wants_none = match env::var(rt, "NO_COLOR") {
        Ok(value) => !value.is_empty(),
        Err(error) => error != VarError::NotPresent,
    };
    Some(Terminal {
        columns: number_in(rt, "COLUMNS").unwrap_or(USUAL_COLUMNS),
        lines: number_in(rt, "LINES").unwrap_or(USUAL_LINES),
        is_drawn_on,
        has_colours: is_drawn_on && !wants_none,
    })
}

/// Returns the number in an environment variable, if it has one. A size of 0 is that of a terminal
/// that doesn't know its own.
fn number_in(rt: &HostRuntime, name: &str) -> Option<usize> {
    let number: usize = env::var(rt, name).ok()?.parse().ok()?;
    (number > 0).then_some(number)
}
