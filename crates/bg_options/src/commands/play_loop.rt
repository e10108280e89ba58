//! The options and help of the command that plays a match over sockets and files.

use crate::arguments::{Argument, Description, Kind, Need};
use crate::requests::Request;
use crate::shared::{LENGTH, RULES, SEED, number_in, seed_in, terms_in};
use bg_match::Terms;
use clap::ArgMatches;

/// The help on `loop`.
pub(crate) const ABOUT_LOOP: &str = "Play an automatic match over UDP sockets and files.

A referee, two seats and one watcher send each other packets over sockets on 127.0.0.1. They save
to the files `party-P.S` of DIR, where P is the party and S the slot. With the same folder, seed,
length and rules, the match continues where it was left, also after a crash. At the end it prints
how many entries each party holds, and the board. If standard error is a terminal, progress is
shown there once a second.

Exit status: 0 for success; 1 if another process uses DIR, a socket can't be opened, the files
can't be read, are damaged or of another match, or writing or memory failed; 2 if DIR is not a
folder, or has a match between processes.";

/// Number of rounds of a match over sockets, at most.
const MOST_ROUNDS: u32 = 1_000_000;

/// An automatic match over sockets and files.
#[derive(Clone, Copy)]
pub struct LoopOptions<'a> {
    /// The seed of the random words, and the number of the match.
    pub seed: u64,
    pub terms: Terms,
    /// Number of rounds, at most 1000000.
    pub rounds: u32,
    pub folder: &'a str,
}

/// Returns the request that these options make, if none that it needs is missing.
pub(crate) fn request<'m, 'a>(options: &'m ArgMatches<'a>) -> Option<Request<'m, 'a>> {
    Some(Request::Loop(LoopOptions {
        seed: seed_in(options, "seed")?,
        terms: terms_in(options)?,
        rounds: number_in(options, "rounds")?,
        folder: options.get_str("dir")?,
    }))
}

const ROUNDS: Argument = Argument {
    name: "rounds",
    kind: Kind::Number("N", 0, MOST_ROUNDS),
    need: Need::Required,
    about: "The number of rounds: 0 to 1000000",
};

const FOLDER: Argument = Argument {
    name: "dir",
    kind: Kind::Text("DIR"),
    need: Need::Required,
    about: "The folder of the saved files; it must exist",
};

/// The command with its options and help.
pub(crate) static COMMAND: Description = Description {
    name: "loop",
    about: "Play an automatic match over UDP sockets and files",
    after_help: None,
    arguments: &[SEED, LENGTH, RULES, ROUNDS, FOLDER],
};
