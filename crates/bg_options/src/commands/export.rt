//! The options and help of the command that writes a match for other programs.

use crate::arguments::{Argument, Description, Kind, Need};
use crate::batches::{BatchOptions, FILES, FORCE, OUT};
use crate::headers::{DATE, EVENT, HeaderOptions, PLACE, WITH_HEADERS};
use crate::requests::Request;
use clap::ArgMatches;

/// The help on `export`, with an example.
pub(crate) const ABOUT_EXPORT: &str =
    "Convert a transcript into a match file for other programs: bg_relay export < TRANSCRIPT

Prints a match file (.mat) as most backgammon programs read it. From

    length 1
    open 3 1
    X move 8-5 6-5

it makes

     1 point match

     Game 1
     X : 0                          O : 0
      1) 31: 8/5 6/5

Match files have no place for the number of the match, its rules, and offers to resign that were
rejected, so these are left out. A transcript has no names: give them with --x and --o, instead of
X and O, and what else stands above a match with --date, --event and --place. Each has 1 to 64
bytes.

A refused transcript is reported on standard error as by `check`, and nothing is printed.

With --out, each FILE is converted into a folder: `export --out DIR a.txt b.txt` writes DIR/a.mat
and DIR/b.mat. No file is overwritten without --force. A refused file is reported, and the others
are still converted. With --with-headers, names and the like are read from the file a.headers
beside a.txt, if there is one, as `import` writes it; --x, --date and the others override it.

Exit status: 0 for success, 2 if a transcript is refused, 1 if reading, writing or memory failed.";

/// The options of `export`.
#[derive(Clone, Copy)]
pub struct ExportOptions<'m, 'a> {
    pub headers: HeaderOptions<'a>,
    /// The files that are written into a folder, in place of the standard input.
    pub batch: Option<BatchOptions<'m, 'a>>,
}

/// Returns the request that these options make.
pub(crate) fn request<'m, 'a>(options: &'m ArgMatches<'a>) -> Request<'m, 'a> {
    Request::Export(ExportOptions {
        headers: HeaderOptions::read(options, "x", "o"),
        batch: BatchOptions::read(options),
    })
}

const X: Argument = Argument {
    name: "x",
    kind: Kind::Text("NAME"),
    need: Need::Optional,
    about: "The name of player X, 1 to 64 bytes",
};

const O: Argument = Argument {
    name: "o",
    kind: Kind::Text("NAME"),
    need: Need::Optional,
    about: "The name of player O, 1 to 64 bytes",
};

/// The command with its options and help.
pub(crate) static COMMAND: Description = Description {
    name: "export",
    about: "Convert a transcript into a match file for other programs",
    after_help: None,
    arguments: &[X, O, DATE, EVENT, PLACE, OUT, WITH_HEADERS, FORCE, FILES],
};
