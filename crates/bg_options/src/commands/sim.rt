//! The options and help of the command that plays an automatic match in memory.

use crate::arguments::{Argument, Description, Kind, Need};
use crate::requests::Request;
use crate::shared::{LENGTH, RULES, SEED, WATCHERS, byte_in, number_in, seed_in, terms_in};
use bg_match::Terms;
use clap::ArgMatches;

/// The help on `sim`.
pub(crate) const ABOUT_SIM: &str = "Play an automatic match in memory.

Random events happen to a referee, two seats and watchers: packets are sent and received, players
act, parties save and restart. The network loses, repeats and reorders packets. Prints the
transcript of the referee's record, then how many entries each party holds, and the board.

Seed, length and rules alone decide what the entries are; the other options decide how many of
them are played. If standard error is a terminal, progress is shown there once a second.

Exit status: 0 for success, 1 if writing or memory failed.";

/// Number of events of an automatic match, at most.
const MOST_STEPS: u32 = 1_000_000;

/// An automatic match in memory.
#[derive(Clone, Copy)]
pub struct SimOptions {
    /// The seed of the random words, and the number of the match.
    pub seed: u64,
    pub terms: Terms,
    /// Number of watchers, at most 253.
    pub watchers: u8,
    /// Number of events, at most 1000000.
    pub steps: u32,
}

/// Returns the request that these options make, if none that it needs is missing.
pub(crate) fn request<'m, 'a>(options: &'m ArgMatches<'a>) -> Option<Request<'m, 'a>> {
    Some(Request::Sim(SimOptions {
        seed: seed_in(options, "seed")?,
        terms: terms_in(options)?,
        watchers: byte_in(options, "watchers")?,
        steps: number_in(options, "steps")?,
    }))
}

const STEPS: Argument = Argument {
    name: "steps",
    kind: Kind::Number("N", 0, MOST_STEPS),
    need: Need::Required,
    about: "The number of events: 0 to 1000000",
};

/// The command with its options and help.
pub(crate) static COMMAND: Description = Description {
    name: "sim",
    about: "Play an automatic match in memory",
    after_help: None,
    arguments: &[SEED, LENGTH, RULES, WATCHERS, STEPS],
};
