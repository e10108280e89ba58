//! The names of a match's players, for people who watch.

use crate::messages::allocated;
use bg_picture::PageWords;
use bg_reports::Ending;
use bg_system::{Name, Names};
use std::fmt;
use std::fmt::{Display, Formatter, Write};

/// The title of a page that is given none, for a match whose players don't both have names.
const USUAL_TITLE: &str = "Backgammon match";

/// A player by name and letter, `Anna (X)`, or by letter alone if there is no name.
#[derive(Clone, Copy)]
pub struct Called {
    letter: char,
    name: Option<Name>,
}

impl Called {
    /// Returns player X, with the name that these have.
    pub fn x(names: &Names) -> Called {
        Called {
            letter: 'X',
            name: names.x,
        }
    }

    /// Returns player O, with the name that these have.
    pub fn o(names: &Names) -> Called {
        Called {
            letter: 'O',
            name: names.o,
        }
    }
}

impl Display for Called {
    fn fmt<W: Write>(&self, f: &mut Formatter<W>) -> fmt::Result {
        let Called { letter, name } = *self;
        match name {
            Some(name) => write!(f, "{name} ({letter})"),
            None => f.write_char(letter),
        }
    }
}

/// Two players: `Anna against Otto`. A player without a name is called by letter.
#[derive(Clone, Copy)]
pub struct Pairing(Names);

impl Pairing {
    /// Returns the players of a match, if at least one of them has a name.
    pub fn of(names: &Names) -> Option<Pairing> {
        if names.x.is_none() && names.o.is_none() {
            return None;
        }
        Some(Pairing(*names))
    }
}

impl Display for Pairing {
    fn fmt<W: Write>(&self, f: &mut Formatter<W>) -> fmt::Result {
        let (x, o) = (word_for(&self.0.x, "X"), word_for(&self.0.o, "O"));
        write!(f, "{x} against {o}")
    }
}

/// Returns the name of a player, or this word if there is no name.
fn word_for<'a>(name: &'a Option<Name>, word: &'a str) -> &'a str {
    match name {
        Some(name) => name.as_str(),
        None => word,
    }
}

/// Returns the words of a page that has this title, of a match whose players have these names.
pub fn page_words<'a>(title: &'a str, names: &'a Names) -> PageWords<'a> {
    PageWords {
        title,
        x: word_for(&names.x, ""),
        o: word_for(&names.o, ""),
    }
}

/// Returns the title of a page: the one that is given, or else the names of both players, or else
/// the usual one. Ends with `Failed` where memory runs out.
pub fn title_of(rt: &HostRuntime, given: Option<&str>, names: &Names) -> Result<String, Ending> {
    if let Some(title) = given {
        return allocated(rt, String::from_str(rt.alloc(), title));
    }
    let title = match (&names.x, &names.o) {
        (Some(x), Some(o)) => format!(in rt.alloc(); "{x} against {o}"),
        _ => String::from_str(rt.alloc(), USUAL_TITLE),
    };
    allocated(rt, title)
}
