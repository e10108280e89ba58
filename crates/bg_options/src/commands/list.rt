//! The options and help of the command that lists matches.

use crate::arguments::{Argument, Description, Kind, Need};
use crate::requests::Request;
use clap::ArgMatches;

/// The help on `list`, with an example.
pub(crate) const ABOUT_LIST: &str =
    "List matches: a line for each referee's folder among those named, and for those up to three
folders below them.

    $ bg_relay list .
    FOLDER  MATCH  SCORE     GAME  NEXT       ENTRIES  LAST SAVE             OPEN  FILES
    ./anna  7132   3-1 of 7  5     X to roll  120      2026-11-27T09:21:40Z  open  saved
    ./otto  4402   0-2 of 5  2     O to roll  98       2026-11-26T21:03:10Z  -     saved

A line has the folder, the number of the match, the points of X and O and the length, the game,
what comes next, how many entries the referee has saved, and the time of its last save, in UTC.
`open` means that a process has locked the folder, as far as the system tells. The last field is
`saved` if the newest save is whole; otherwise it says what is wrong. The first line is a heading.

A folder or file that can't be read has a line too, with the reason. Links to folders are not
followed. It takes no lock and writes nothing, so the matches can go on meanwhile.

Exit status: 0 if all is well, 2 if a match file or a save is damaged or of another match, 1 if a
folder or file can't be read, or writing or memory failed.";

/// The format of a list of matches.
#[derive(Clone, Copy, PartialEq, Eq)]
pub enum ListFormat {
    /// Lines for people, with aligned columns.
    Text,
    /// One JSON object per line.
    Json,
}

/// The folders whose matches are listed, and the format.
#[derive(Clone, Copy)]
pub struct ListOptions<'m, 'a> {
    pub folders: &'m [&'a str],
    pub format: ListFormat,
}

/// Returns the request that these options make.
pub(crate) fn request<'m, 'a>(options: &'m ArgMatches<'a>) -> Request<'m, 'a> {
    Request::List(ListOptions {
        folders: options.get_strs("DIR").unwrap_or_default(),
        format: match options.get_str("format") {
            Some("json") => ListFormat::Json,
            _ => ListFormat::Text,
        },
    })
}

const FORMAT: Argument = Argument {
    name: "format",
    kind: Kind::OneOf("FORMAT", &["text", "json"]),
    need: Need::Usually("text"),
    about: "The format: text for people, or one JSON object per line for programs",
};

/// The folders of the matches.
const FOLDERS: Argument = Argument {
    name: "DIR",
    kind: Kind::SomeWords,
    need: Need::Required,
    about: "Referees' folders, or folders above them",
};

/// The command with its options and help.
pub(crate) static COMMAND: Description = Description {
    name: "list",
    about: "List matches and where they stand",
    after_help: None,
    arguments: &[FORMAT, FOLDERS],
};
