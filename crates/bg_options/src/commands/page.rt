//! The options and help of the command that makes a page of a transcript.

use crate::arguments::{Argument, Description, Kind, Need};
use crate::headers::{DATE, EVENT, HeaderOptions, PLACE};
use crate::requests::Request;
use crate::shared::{MISPLACED_FILE, NAME_O, NAME_X, NUMBERING, TITLE, names_of, numbering_in};
use bg_picture::Numbering;
use bg_system::Names;
use clap::ArgMatches;

/// The help on `page`, with an example.
pub(crate) const ABOUT_PAGE: &str = "Turn the transcript on standard input into a web page.

    $ bg_relay page --title \"Anna against Otto\" < transcript.txt > match.html

The page is one file and loads nothing else. It shows each position with its entry, the pip counts
and the last move, and lists the entries by game. Keys, buttons, links and the list of games step
through it, and no result is shown before the reader gets there. Without scripts it is a plain
list, with the last position below.

The names of the players come from --name-x and --name-o, or else from the FILE of --match.
Without --title, the names are the title. The event, the place and the date follow it, as far as
they are given. A refused transcript is reported on standard error as by `check`, and nothing is
printed.

Exit status: 0 for success, 2 if the transcript or a name is refused or FILE is neither a match
file nor a key file, 1 if reading, writing or memory failed.";

/// The contents of a page beside the positions.
#[derive(Clone, Copy)]
pub struct PageOptions<'a> {
    /// The title, if one is given.
    pub title: Option<&'a str>,
    /// The path of the match file or key file that has the names of the players.
    pub match_path: Option<&'a str>,
    /// Who plays, when, where, and at what event, as far as it is given.
    pub headers: HeaderOptions<'a>,
    /// The numbering of the points.
    pub numbering: Numbering,
}

impl<'a> PageOptions<'a> {
    /// Returns the names of the players that the options give.
    pub fn names(&self) -> Names {
        names_of(self.headers.x, self.headers.o)
    }
}

/// Returns the request that these options make.
pub(crate) fn request<'m, 'a>(options: &'m ArgMatches<'a>) -> Request<'m, 'a> {
    Request::Page(PageOptions {
        title: options.get_str("title"),
        match_path: options.get_str("match"),
        headers: HeaderOptions::read(options, "name-x", "name-o"),
        numbering: numbering_in(options),
    })
}

const MATCH: Argument = Argument {
    name: "match",
    kind: Kind::Text("FILE"),
    need: Need::Optional,
    about: "A match file or key file with the names of the players",
};

/// The command with its options and help.
pub(crate) static COMMAND: Description = Description {
    name: "page",
    about: "Turn a transcript into a web page",
    after_help: None,
    arguments: &[
        TITLE,
        MATCH,
        NAME_X,
        NAME_O,
        DATE,
        EVENT,
        PLACE,
        NUMBERING,
        MISPLACED_FILE,
    ],
};
