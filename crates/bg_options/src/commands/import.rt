//! The options and help of the command that imports a match file of another program.

use crate::arguments::{Argument, Description, Kind, Need};
use crate::batches::{BatchOptions, FILES, FORCE, OUT};
use crate::headers::WITH_HEADERS;
use crate::requests::Request;
use crate::shared::{RULES, rules_in};
use bg_match::Rules;
use clap::ArgMatches;

/// The help on `import`, with an example.
pub(crate) const ABOUT_IMPORT: &str =
    "Convert a match file of another program into a transcript: bg_relay import < FILE.mat

Reads a match file (.mat) as most backgammon programs write it, and prints the transcript of its
match. The player in the left column becomes X. From

     1 point match

     Game 1
     Ada : 0                     Zoe : 0
      1) 31: 8/5 6/5

it makes

    length 1
    open 3 1
    X move 8-5 6-5

A file is refused if it isn't a match file, or if the rules here don't allow its match (a money
game, or a cube above 128). The refused line is reported on standard error, and nothing is
printed. With --headers, the names of the players, the date, the event and the place are written
to a file, as far as the match file has them.

With --out, each FILE is converted into a folder: `import --out DIR a.mat b.mat` writes DIR/a.txt
and DIR/b.txt. With --with-headers it also writes DIR/a.headers, if a.mat has names or the like.
No file is overwritten without --force. A refused file is reported as by `check`, and the others
are still converted.

Exit status: 0 for success, 2 if a file is refused, 1 if reading, writing or memory failed.";

/// The options of `import`.
#[derive(Clone, Copy)]
pub struct ImportOptions<'m, 'a> {
    /// The rules of the match, which no match file gives.
    pub rules: Rules,
    /// The file into which the headers of the match file are written.
    pub headers: Option<&'a str>,
    /// Whether a file that exists may be overwritten.
    pub is_forced: bool,
    /// The files that are taken over into a folder, in place of the standard input.
    pub batch: Option<BatchOptions<'m, 'a>>,
}

/// Returns the request that these options make, if none that it needs is missing.
pub(crate) fn request<'m, 'a>(options: &'m ArgMatches<'a>) -> Option<Request<'m, 'a>> {
    Some(Request::Import(ImportOptions {
        rules: rules_in(options)?,
        headers: options.get_str("headers"),
        is_forced: options.get_flag("force"),
        batch: BatchOptions::read(options),
    }))
}

const HEADERS: Argument = Argument {
    name: "headers",
    kind: Kind::Text("FILE"),
    need: Need::Optional,
    about: "Write names, date, event and place of the match to this file",
};

/// The command with its options and help.
pub(crate) static COMMAND: Description = Description {
    name: "import",
    about: "Convert a match file of another program into a transcript",
    after_help: None,
    arguments: &[RULES, HEADERS, OUT, WITH_HEADERS, FORCE, FILES],
};
