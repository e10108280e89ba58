//! The options and help of the command that watches a match.

use crate::arguments::{Argument, Description, Kind, Need};
use crate::requests::Request;
use crate::shared::{NUMBERING, QUIET_LOG, THREE_TERMINALS, TITLE, numbering_in};
use bg_picture::Numbering;
use clap::ArgMatches;

/// The help on `watch`.
pub(crate) const ABOUT_WATCH: &str =
    "Watch a match until it is over: the board at a terminal, the transcript elsewhere.

At a terminal it redraws the board in place, from X's side, with the newest entries below it and
whether the referee answers. If the terminal doesn't have 80 columns and 24 lines, export COLUMNS
and LINES. Elsewhere, and with --plain, it prints the transcript, entry by entry.

It takes the first watcher's number, from 3, whose port is free. The files that you name are left
as they are until the referee has answered. It logs on standard error when it starts, the result
of each game, whether the referee answers, and when it ends. If standard error is a terminal too,
and the board is drawn, it doesn't log.

Exit status: 0 for success; 1 if no port is free, or reading, writing or memory failed; 2 if the
match file is invalid.";

/// The match to watch, and the files that are kept of it.
#[derive(Clone, Copy)]
pub struct WatchOptions<'a> {
    /// The path of the watchers' key file.
    pub match_path: &'a str,
    pub board: Option<&'a str>,
    pub transcript: Option<&'a str>,
    pub page: Option<&'a str>,
    /// The title of the page, if one is given.
    pub title: Option<&'a str>,
    /// The numbering of the page's points.
    pub numbering: Numbering,
    /// Whether it continues where one of these files can't be written.
    pub goes_on: bool,
    /// Whether the transcript is printed at a terminal too, in place of the board.
    pub is_plain: bool,
    /// Whether only errors are reported.
    pub is_quiet: bool,
}

/// Returns the request that these options make, if none that it needs is missing.
pub(crate) fn request<'m, 'a>(options: &'m ArgMatches<'a>) -> Option<Request<'m, 'a>> {
    Some(Request::Watch(WatchOptions {
        match_path: options.get_str("match")?,
        board: options.get_str("board"),
        transcript: options.get_str("transcript"),
        page: options.get_str("page"),
        title: options.get_str("title"),
        numbering: numbering_in(options),
        goes_on: options.get_flag("go-on"),
        is_plain: options.get_flag("plain"),
        is_quiet: options.get_flag("quiet"),
    }))
}

const MATCH: Argument = Argument {
    name: "match",
    kind: Kind::Text("FILE"),
    need: Need::Required,
    about: "The watchers' key file, `match-watch`, which `new` made",
};

const BOARD: Argument = Argument {
    name: "board",
    kind: Kind::Text("FILE"),
    need: Need::Optional,
    about: "Keep the board in this file, whole at all times",
};

const TRANSCRIPT: Argument = Argument {
    name: "transcript",
    kind: Kind::Text("FILE"),
    need: Need::Optional,
    about: "Keep the transcript in this file, whole at all times",
};

const PAGE: Argument = Argument {
    name: "page",
    kind: Kind::Text("FILE"),
    need: Need::Optional,
    about: "Keep a web page in this file, whole at all times; browsers reload it by themselves",
};

/// The option to continue where a file can't be written.
const GO_ON: Argument = Argument {
    name: "go-on",
    kind: Kind::Flag,
    need: Need::Optional,
    about: "Continue if a file can't be written, and say so once; without it, watching ends there",
};

/// The option to print the transcript at a terminal.
const PLAIN: Argument = Argument {
    name: "plain",
    kind: Kind::Flag,
    need: Need::Optional,
    about: "Print the transcript at a terminal too, instead of the board",
};

/// The command with its options and help.
pub(crate) static COMMAND: Description = Description {
    name: "watch",
    about: "Watch a match",
    after_help: Some(THREE_TERMINALS),
    arguments: &[
        MATCH, BOARD, TRANSCRIPT, PAGE, TITLE, NUMBERING, GO_ON, PLAIN, QUIET_LOG,
    ],
};
