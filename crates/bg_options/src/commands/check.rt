//! The options and help of the command that judges many files.

use crate::arguments::{Argument, Description, Kind, Need};
use crate::requests::Request;
use clap::ArgMatches;

/// The help on `check`, with an example.
pub(crate) const ABOUT_CHECK: &str =
    "Judge many files, and print a line for each, in the order given.

    $ bg_relay check good.txt bad.txt other.mat
    good.txt: ok 2, not over
    bad.txt: refused at line 3: more can be played: X move 8-5
    other.mat: ok 10, O wins 1-0
    bg_relay: 2 ok, 1 refused

Transcripts are judged as by `judge`, and match files of other programs as by `import`, by rules
1. A file is taken for a match file if its first line that is neither blank nor a comment says
how long the match is, as `7 point match` does. So is any other file whose name ends in `.mat`,
unless it begins with `length `.

With --recursive, a folder stands for all files in it and below it, in the order of their names.
Links to folders are not followed, and files whose names begin with a dot are skipped.

For programs, --format tsv prints a line of column names, and then a line for each file, with tabs
between the fields. --format json prints an object for each file. Both have the file, its kind and
the verdict; the refused line and the reason; the entries, length, rules, score, game, winner and
state of a legal match; and the players, date, event and place that a match file names.

One process judges one file after another. To judge several at once, use xargs:

    find archive -name '*.mat' -print0 | xargs -0 -n 1000 -P 4 bg_relay check --quiet

The refused line follows the reason. At a terminal it is cut to the width of the screen (COLUMNS,
or else 80), and elsewhere to 1000 columns. Characters that can't be printed are escaped. A file
that can't be read is reported on standard error, and the others are still judged. If standard
error is a terminal, progress is shown there once a second.

Exit status: 0 if all files are legal, 2 if one is refused, 1 if one can't be read (even if
another is refused) or writing failed.";

/// The format of the results.
#[derive(Clone, Copy, PartialEq, Eq)]
pub enum CheckFormat {
    /// Lines for people.
    Text,
    /// Fields with tabs between them, below a line of their names.
    Tsv,
    /// One JSON object per line.
    Json,
}

/// The files to judge, and the format of their results.
#[derive(Clone, Copy)]
pub struct CheckOptions<'m, 'a> {
    pub files: &'m [&'a str],
    /// A file with the names of further files.
    pub list: Option<&'a str>,
    /// Whether nothing is printed for good files.
    pub is_quiet: bool,
    /// Whether a folder stands for the files below it.
    pub is_recursive: bool,
    pub format: CheckFormat,
}

/// Returns the request that these options make.
pub(crate) fn request<'m, 'a>(options: &'m ArgMatches<'a>) -> Request<'m, 'a> {
    Request::Check(CheckOptions {
        files: options.get_strs("FILE").unwrap_or_default(),
        list: options.get_str("files-from"),
        is_quiet: options.get_flag("quiet"),
        is_recursive: options.get_flag("recursive"),
        format: match options.get_str("format") {
            Some("tsv") => CheckFormat::Tsv,
            Some("json") => CheckFormat::Json,
            _ => CheckFormat::Text,
        },
    })
}

const QUIET: Argument = Argument {
    name: "quiet",
    kind: Kind::Flag,
    need: Need::Optional,
    about: "Print only refused files",
};

const RECURSIVE: Argument = Argument {
    name: "recursive",
    kind: Kind::Flag,
    need: Need::Optional,
    about: "Judge all files in the folders named, and below them",
};

const FORMAT: Argument = Argument {
    name: "format",
    kind: Kind::OneOf("FORMAT", &["text", "tsv", "json"]),
    need: Need::Usually("text"),
    about: "The format: text for people; tab-separated fields or one JSON object per line for programs",
};

const LIST: Argument = Argument {
    name: "files-from",
    kind: Kind::Text("LIST"),
    need: Need::Optional,
    about: "A file with the names of more files, one per line; - is standard input",
};

const FILES: Argument = Argument {
    name: "FILE",
    kind: Kind::SomeWords,
    need: Need::Unless("files-from"),
    about: "Files, and folders with --recursive; - is standard input",
};

/// The command with its options and help.
pub(crate) static COMMAND: Description = Description {
    name: "check",
    about: "Judge many files",
    after_help: None,
    arguments: &[QUIET, LIST, FORMAT, RECURSIVE, FILES],
};
