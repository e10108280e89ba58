//! The options and help of the command that plays a script.

use crate::arguments::Description;
use crate::requests::Request;
use crate::shared::{LENGTH, MISPLACED_FILE, RULES, WATCHERS, byte_in, terms_in};
use bg_match::Terms;
use clap::ArgMatches;

/// The help on `script`.
pub(crate) const ABOUT_SCRIPT: &str = "Apply the events on standard input to a match in memory.

Each line is one event: `due WORD`, `take PARTY PICK WORD`, `choose PLAYER ACTION`, `save PARTY`,
`tick PARTY` or `restart PARTY`. Party 0 is the referee, 1 and 2 are the seats of X and O, and
watchers are numbered from 3. Prints the outcome of each event, then how many entries each party
holds, and the board.

If any line is refused, no event is applied, and it prints `refused at line L: REASON`. An input
of more than 41943040 bytes is refused whole: `refused: input too long`.

Exit status: 0 if the script is accepted, 2 if it is refused, 1 if reading, writing or memory
failed.";

/// The match that a script is played on.
#[derive(Clone, Copy)]
pub struct ScriptOptions {
    pub terms: Terms,
    /// Number of watchers, at most 253.
    pub watchers: u8,
}

/// Returns the request that these options make, if none that it needs is missing.
pub(crate) fn request<'m, 'a>(options: &'m ArgMatches<'a>) -> Option<Request<'m, 'a>> {
    Some(Request::Script(ScriptOptions {
        terms: terms_in(options)?,
        watchers: byte_in(options, "watchers")?,
    }))
}

/// The command with its options and help.
pub(crate) static COMMAND: Description = Description {
    name: "script",
    about: "Apply the events on standard input to a match in memory",
    after_help: None,
    arguments: &[LENGTH, RULES, WATCHERS, MISPLACED_FILE],
};
