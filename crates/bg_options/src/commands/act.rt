//! The options and help of the command of one action, for scripts.

use crate::arguments::{Argument, Description, Kind, Need};
use crate::commands::play::SeatOptions;
use crate::requests::Request;
use crate::shared::{FOLDER, PLAYER, SEAT_KEY, THREE_TERMINALS, number_in};
use bg_match::{MOST_ENTRIES, Number};
use clap::ArgMatches;

/// The help on `act`.
pub(crate) const ABOUT_ACT: &str =
    "Make one action on the player's turn, and wait for its entry. Without ACTION, wait for the turn.
Prints the entries since the last call, and the board.

If an earlier call left a claim, this call follows it up first.

Exit status: 0 if the entry answers the action; 2 if the action is refused, and so nothing is
claimed, or if the entry is another one; 1 if the time is over, or as for `play`.";

/// Number of seconds that one action may take, at most.
const MOST_SECONDS: u32 = 1_000_000;

/// The one action to make.
#[derive(Clone, Copy)]
pub struct ActOptions<'m, 'a> {
    pub seat: SeatOptions<'a>,
    /// The words of the action; without any, the command waits for the player's turn.
    pub words: &'m [&'a str],
    /// The number, from 1 to 1000000, of the entry that the action is to be claimed as.
    pub entry: Option<Number>,
    /// Number of seconds that it may take, from 1 to 1000000.
    pub seconds: u32,
}

/// Returns the request that these options make, if none that it needs is missing.
pub(crate) fn request<'m, 'a>(options: &'m ArgMatches<'a>) -> Option<Request<'m, 'a>> {
    Some(Request::Act(ActOptions {
        seat: SeatOptions::read(options)?,
        words: options.get_strs("ACTION").unwrap_or_default(),
        entry: number_in(options, "entry"),
        seconds: number_in(options, "seconds")?,
    }))
}

const SECONDS: Argument = Argument {
    name: "seconds",
    kind: Kind::Number("N", 1, MOST_SECONDS),
    need: Need::Required,
    about: "How many seconds to wait at most: 1 to 1000000",
};

const ENTRY: Argument = Argument {
    name: "entry",
    kind: Kind::Number("N", 1, MOST_ENTRIES),
    need: Need::Optional,
    about: "The entry to claim the action as, so that a repeated call acts once: 1 to 1000000",
};

const ACTION: Argument = Argument {
    name: "ACTION",
    kind: Kind::Words,
    need: Need::Optional,
    about: "The action, as in transcripts: roll, double, take, drop, move 8-5 6-5, resign normal, ..",
};

/// The command with its options and help.
pub(crate) static COMMAND: Description = Description {
    name: "act",
    about: "Make one action, for scripts",
    after_help: Some(THREE_TERMINALS),
    arguments: &[PLAYER, SEAT_KEY, FOLDER, SECONDS, ENTRY, ACTION],
};
