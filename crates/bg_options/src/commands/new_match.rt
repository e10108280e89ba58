//! The options and help of the command that makes a match between processes.

use crate::arguments::{Argument, Description, Kind, Need};
use crate::requests::Request;
use crate::shared::{
    FOLDER, LENGTH, NAME_O, NAME_X, RULES, THREE_TERMINALS, names_of, port_in, terms_in,
};
use bg_match::Terms;
use bg_system::{HIGHEST_PORT, LOWEST_PORT, Names};
use clap::ArgMatches;

/// The help on `new`.
pub(crate) const ABOUT_NEW: &str = "Make a match between processes.

Writes the referee's files into DIR, which is made if it is missing, and prints the line of
`match`. Hand `match-x` to player X, `match-o` to player O, and `match-watch` to whoever may
watch. Each has the key of its party, so show it to nobody else. `secret`, which decides the dice,
and `key-secret`, from which all keys are derived, stay with the referee. The last line printed is
the SHA-256 of `secret`, which the file `dice` has too: tell it to both players before the first
roll. When the match is over, hand them `secret`, and `bg_relay dice` checks each roll by it. The
match uses port P and the 255 above it.

You can name the players: `play`, `watch`, `list` and pages show the names. A name has 1 to 64
bytes, no control characters, none that change the direction of text, and no blank at either end.
Programs older than names can't read the files of a match that has them.

Exit status: 0 for success; 2 if a name is refused, DIR has a match already, or a match beside it
that isn't over uses one of these ports; 1 if reading, writing or memory failed.";

/// A new match between processes, and the place of its files.
#[derive(Clone, Copy)]
pub struct NewOptions<'a> {
    pub terms: Terms,
    /// The referee's port, from 1024 to 65280.
    pub port: u16,
    /// The names of X and of O, as far as they have any.
    pub name_x: Option<&'a str>,
    pub name_o: Option<&'a str>,
    pub folder: &'a str,
}

impl<'a> NewOptions<'a> {
    /// Returns the names of the players.
    pub fn names(&self) -> Names {
        names_of(self.name_x, self.name_o)
    }
}

/// Returns the request that these options make, if none that it needs is missing.
pub(crate) fn request<'m, 'a>(options: &'m ArgMatches<'a>) -> Option<Request<'m, 'a>> {
    Some(Request::New(NewOptions {
        terms: terms_in(options)?,
        port: port_in(options, "port")?,
        name_x: options.get_str("name-x"),
        name_o: options.get_str("name-o"),
        folder: options.get_str("dir")?,
    }))
}

const PORT: Argument = Argument {
    name: "port",
    kind: Kind::Number("P", LOWEST_PORT as u32, HIGHEST_PORT as u32),
    need: Need::Required,
    about: "The referee's port on 127.0.0.1; the 255 above it are for the others: 1024 to 65280",
};

/// The command with its options and help.
pub(crate) static COMMAND: Description = Description {
    name: "new",
    about: "Make a match between processes",
    after_help: Some(THREE_TERMINALS),
    arguments: &[LENGTH, RULES, PORT, FOLDER, NAME_X, NAME_O],
};
