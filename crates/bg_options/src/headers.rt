//! The options for what stands above a match, for people: who met, when, where, and at what event.

use crate::arguments::{Argument, Kind, Need};
use clap::ArgMatches;

/// What stands above a match, for people. Each text is a valid name.
#[derive(Clone, Copy, Default)]
pub struct HeaderOptions<'a> {
    pub x: Option<&'a str>,
    pub o: Option<&'a str>,
    pub date: Option<&'a str>,
    pub event: Option<&'a str>,
    pub place: Option<&'a str>,
}

impl<'a> HeaderOptions<'a> {
    /// Reads the texts that options give; those for the names of X and O are called so.
    pub(crate) fn read(options: &ArgMatches<'a>, x: &str, o: &str) -> HeaderOptions<'a> {
        HeaderOptions {
            x: options.get_str(x),
            o: options.get_str(o),
            date: options.get_str("date"),
            event: options.get_str("event"),
            place: options.get_str("place"),
        }
    }

    /// Returns these texts, and those of the other for what these leave out.
    pub fn or(self, other: HeaderOptions<'a>) -> HeaderOptions<'a> {
        HeaderOptions {
            x: self.x.or(other.x),
            o: self.o.or(other.o),
            date: self.date.or(other.date),
            event: self.event.or(other.event),
            place: self.place.or(other.place),
        }
    }
}

pub(crate) const DATE: Argument = Argument {
    name: "date",
    kind: Kind::Text("DATE"),
    need: Need::Optional,
    about: "The date of the match, 1 to 64 bytes",
};

pub(crate) const EVENT: Argument = Argument {
    name: "event",
    kind: Kind::Text("EVENT"),
    need: Need::Optional,
    about: "The event, such as a tournament, 1 to 64 bytes",
};

pub(crate) const PLACE: Argument = Argument {
    name: "place",
    kind: Kind::Text("PLACE"),
    need: Need::Optional,
    about: "Where the match was played, 1 to 64 bytes",
};

/// The option to keep what stands above each match in a file beside it.
pub(crate) const WITH_HEADERS: Argument = Argument {
    name: "with-headers",
    kind: Kind::Flag,
    need: Need::Optional,
    about: "With --out: keep names, date, event and place of each match in NAME.headers beside it",
};
