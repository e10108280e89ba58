//! The options and help of the command that runs the referee of a match.

use crate::arguments::Description;
use crate::requests::Request;
use crate::shared::{FOLDER, QUIET_LOG, THREE_TERMINALS};
use clap::ArgMatches;

/// The help on `referee`.
pub(crate) const ABOUT_REFEREE: &str = "Run the referee of the match in DIR until it is over.

Logs on standard error when it starts, the result of each game, who comes and goes, and when it
ends. It ends some seconds after every party has all entries.

Exit status: 0 once the match is over; 1 if the port is taken, another process uses DIR, its files
are damaged or of another match, or reading, writing or memory failed; 2 if DIR is not a folder,
can't be written to or is that of a match of `serve`, its match file is invalid, or a key file is
invalid or missing.";

/// The match whose referee is run.
#[derive(Clone, Copy)]
pub struct RefereeOptions<'a> {
    /// The folder of the match.
    pub folder: &'a str,
    /// Whether only errors are reported.
    pub is_quiet: bool,
}

/// Returns the request that these options make, if none that it needs is missing.
pub(crate) fn request<'m, 'a>(options: &'m ArgMatches<'a>) -> Option<Request<'m, 'a>> {
    Some(Request::Referee(RefereeOptions {
        folder: options.get_str("dir")?,
        is_quiet: options.get_flag("quiet"),
    }))
}

/// The command with its options and help.
pub(crate) static COMMAND: Description = Description {
    name: "referee",
    about: "Run the referee of a match until it is over",
    after_help: Some(THREE_TERMINALS),
    arguments: &[FOLDER, QUIET_LOG],
};
