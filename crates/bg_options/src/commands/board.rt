//! The options and help of the command that keeps pages of many matches.

use crate::arguments::{Argument, Description, Kind, Need};
use crate::requests::Request;
use crate::shared::{NUMBERING, numbering_in};
use bg_picture::Numbering;
use clap::ArgMatches;

/// The help on `board`, with an example.
pub(crate) const ABOUT_BOARD: &str =
    "Keep web pages of many matches: of each referee's folder among those named, and of those up to
three folders below them. A folder with a key file `match-watch` and no match file stands for its
match too, and so does a key file that is named: such a match is watched.

    $ bg_relay board tables --out public
    $ ls public
    index.html  monday.html  monday.svg  tuesday.html  tuesday.svg
    $ bg_relay board friday/match-watch --out public

`index.html` shows all boards in small, with names, scores and whose turn it is; finished matches
are listed separately. Each match has a page and a picture, named after its folder. In their
names, every character except letters, digits, `.`, `_` and `-` becomes `-`. If two folders have
the same name, the number of the match is added to the second.

It reads the referees' saved files once a second, and looks for new matches every ten seconds. It
writes only the files that changed, and each file is whole at all times. It takes no lock, and sends
nothing to referees whose folders it has, so the matches can go on meanwhile. With a key file it is
a watcher, as `watch` is: it says whether the referee is heard, and writes nothing before. A match
that can't be read is reported once on standard error, and its files stay as they are; the others
go on.

Runs until it is stopped, or with --once until each file is written. --once leaves out matches that
would be watched.

Exit status: 0 for success, 2 if FOLDER is not a folder, 1 if writing or memory failed.";

/// The folders whose matches are shown, and the place of the pages.
#[derive(Clone, Copy)]
pub struct BoardOptions<'m, 'a> {
    /// The folders, and the key files of matches that are watched.
    pub places: &'m [&'a str],
    /// The folder of the pages.
    pub out: &'a str,
    /// The title of the index.
    pub title: &'a str,
    /// The numbering of the points.
    pub numbering: Numbering,
    /// Whether it ends once each file is written.
    pub is_once: bool,
}

/// Returns the request that these options make, if none that it needs is missing.
pub(crate) fn request<'m, 'a>(options: &'m ArgMatches<'a>) -> Option<Request<'m, 'a>> {
    Some(Request::Board(BoardOptions {
        places: options.get_strs("DIR").unwrap_or_default(),
        out: options.get_str("out")?,
        title: options.get_str("title")?,
        numbering: numbering_in(options),
        is_once: options.get_flag("once"),
    }))
}

const OUT: Argument = Argument {
    name: "out",
    kind: Kind::Text("FOLDER"),
    need: Need::Required,
    about: "The folder to write the pages to, for a web server to serve",
};

const TITLE: Argument = Argument {
    name: "title",
    kind: Kind::Text("TITLE"),
    need: Need::Usually("Backgammon matches"),
    about: "The title of the index",
};

const ONCE: Argument = Argument {
    name: "once",
    kind: Kind::Flag,
    need: Need::Optional,
    about: "Write each file once, and end",
};

/// The folders of the matches, and key files.
const PLACES: Argument = Argument {
    name: "DIR",
    kind: Kind::SomeWords,
    need: Need::Required,
    about: "Folders of referees or with key files, folders above them, or key files",
};

/// The command with its options and help.
pub(crate) static COMMAND: Description = Description {
    name: "board",
    about: "Keep web pages of many matches",
    after_help: None,
    arguments: &[OUT, TITLE, NUMBERING, ONCE, PLACES],
};
