//! The options and help of the command that shows saved files.

use crate::arguments::{Argument, Description, Kind, Need};
use crate::requests::Request;
use clap::ArgMatches;

/// The help on `show`.
pub(crate) const ABOUT_SHOW: &str =
    "Show what saved files hold: the two files of a party, or the six files of a folder.

A party saves its match in two files in turn: even saves in one, odd saves in the other. If a save
is cut short, the save before it is still in the other file. Prints a line for each file, and the
board of the newer one that loads. A missing file counts as empty.

For a folder, it shows the files party-P.S, where party 0 is the referee and parties 1 and 2 are
the seats of X and O. After a line for each file it prints how many entries each party holds, how
many it lacks, and the board of the party that holds most.

With --transcript it prints only the transcript of what the two files restore:

    bg_relay show --transcript DIR/party-0.0 DIR/party-0.1 > transcript.txt

Exit status: 0 if a file loads, 2 if none does, 1 if reading, writing or memory failed.";

/// The saved files to show.
#[derive(Clone, Copy)]
pub struct ShowOptions<'a> {
    /// The file of the even saves, or a folder.
    pub path0: &'a str,
    /// The file of the odd saves.
    pub path1: Option<&'a str>,
    /// Whether the transcript of what they restore is wanted.
    pub wants_transcript: bool,
}

/// Returns the request that these options make.
pub(crate) fn request<'m, 'a>(options: &'m ArgMatches<'a>) -> Request<'m, 'a> {
    Request::Show(ShowOptions {
        path0: options.get_str("FILE0").unwrap_or_default(),
        path1: options.get_str("FILE1"),
        wants_transcript: options.get_flag("transcript"),
    })
}

const TRANSCRIPT: Argument = Argument {
    name: "transcript",
    kind: Kind::Flag,
    need: Need::With("FILE1"),
    about: "Print the transcript of what the two files restore",
};

const FILE0: Argument = Argument {
    name: "FILE0",
    kind: Kind::File,
    need: Need::Required,
    about: "The file of the even saves, or a folder",
};

const FILE1: Argument = Argument {
    name: "FILE1",
    kind: Kind::File,
    need: Need::Optional,
    about: "The file of the odd saves",
};

/// The command with its options and help.
pub(crate) static COMMAND: Description = Description {
    name: "show",
    about: "Show what saved files hold",
    after_help: None,
    arguments: &[TRANSCRIPT, FILE0, FILE1],
};
