//! The options that several commands have, and their values.

use crate::arguments::{Argument, Kind, Need};
use crate::requests::RequestFault;
use bg_board::Player;
use bg_match::{LONGEST_MATCH, Rules, SHORTEST_MATCH, Terms};
use bg_picture::Numbering;
use bg_system::{Name, Names};
use bg_wire::{FIRST_WATCHER, LAST_WATCHER};
use clap::ArgMatches;

/// Number of watchers of a match, at most.
const MOST_WATCHERS: u8 = LAST_WATCHER - FIRST_WATCHER + 1;

/// The argument for a file that is named to a command that reads the standard input. Help leaves it
/// out; it is there so that the message can say how to pass the file.
pub(crate) const MISPLACED_FILE: Argument = Argument {
    name: "FILE",
    kind: Kind::HiddenFile,
    need: Need::Optional,
    about: "",
};

/// The start of a match between processes, for the help on each of its commands.
pub(crate) const THREE_TERMINALS: &str =
    "A match of length 3 between two people, in three terminals of one machine:

    bg_relay new --length 3 --port 4000 --dir table
    bg_relay referee --dir table
    bg_relay play --match table/match-x --dir table-x
    bg_relay play --match table/match-o --dir table-o

The first two go into one terminal. Whoever has table/match-watch can watch:
bg_relay watch --match table/match-watch. You can stop and restart each process at any moment.";

/// Returns the number that an option gives, if it is there.
pub(crate) fn number_in(options: &ArgMatches<'_>, name: &str) -> Option<u32> {
    u32::try_from(seed_in(options, name)?).ok()
}

/// Returns the number that an option gives, if it is there and at most 255.
pub(crate) fn byte_in(options: &ArgMatches<'_>, name: &str) -> Option<u8> {
    u8::try_from(number_in(options, name)?).ok()
}

/// Returns the port that an option gives, if it is there.
pub(crate) fn port_in(options: &ArgMatches<'_>, name: &str) -> Option<u16> {
    u16::try_from(number_in(options, name)?).ok()
}

pub(crate) const SEED: Argument = Argument {
    name: "seed",
    kind: Kind::LongNumber("N"),
    need: Need::Required,
    about: "The seed of the random words, and the number of the match: 0 to 18446744073709551615",
};

/// Returns the number of 64 bits that an option gives, if it is there.
pub(crate) fn seed_in(options: &ArgMatches<'_>, name: &str) -> Option<u64> {
    options.get_one(name)
}

pub(crate) const LENGTH: Argument = Argument {
    name: "length",
    kind: Kind::Number("N", SHORTEST_MATCH as u32, LONGEST_MATCH as u32),
    need: Need::Required,
    about: "The length of the match, in points: 1 to 99",
};

pub(crate) const RULES: Argument = Argument {
    name: "rules",
    kind: Kind::Number("N", 1, 2),
    need: Need::Usually("1"),
    about: "The rules: 1, or 2, by which the referee passes a turn in which nothing can be moved",
};

/// Returns the length and the rules of the match that the options name.
pub(crate) fn terms_in(options: &ArgMatches<'_>) -> Option<Terms> {
    Some(Terms {
        length: byte_in(options, "length")?,
        rules: rules_in(options)?,
    })
}

/// Returns the rules that the options name.
pub(crate) fn rules_in(options: &ArgMatches<'_>) -> Option<Rules> {
    match number_in(options, "rules")? {
        1 => Some(Rules::One),
        2 => Some(Rules::Two),
        _ => None,
    }
}

pub(crate) const WATCHERS: Argument = Argument {
    name: "watchers",
    kind: Kind::Number("N", 0, MOST_WATCHERS as u32),
    need: Need::Required,
    about: "The number of watchers: 0 to 253",
};

pub(crate) const PLAYER: Argument = Argument {
    name: "player",
    kind: Kind::OneOf("P", &["X", "O", "x", "o"]),
    need: Need::Optional,
    about: "The player; without it, the owner of the key file",
};

/// Returns the player that an option gives, if it is there.
pub(crate) fn player_in(options: &ArgMatches<'_>, name: &str) -> Option<Player> {
    match options.get_str(name)? {
        "X" | "x" => Some(Player::X),
        "O" | "o" => Some(Player::O),
        _ => None,
    }
}

/// Refuses a text of an option with one of these names that is not a valid name of a player.
///
/// # Errors
/// `Name`, for the first that is not valid.
pub(crate) fn check_names(
    options: &ArgMatches<'_>,
    names: &[&'static str],
) -> Result<(), RequestFault> {
    for option in names {
        if let Some(text) = options.get_str(option) {
            if let Err(why) = Name::new(text) {
                return Err(RequestFault::Name(*option, why));
            }
        }
    }
    Ok(())
}

pub(crate) const NUMBERING: Argument = Argument {
    name: "numbering",
    kind: Kind::OneOf("WHOSE", &["mover", "X"]),
    need: Need::Usually("mover"),
    about: "Number the points from the side of the player who moves, or always from X's",
};

/// Returns the numbering of the points that the options name.
pub(crate) fn numbering_in(options: &ArgMatches<'_>) -> Numbering {
    match options.get_str("numbering") {
        Some("X") => Numbering::X,
        _ => Numbering::Mover,
    }
}

pub(crate) const TITLE: Argument = Argument {
    name: "title",
    kind: Kind::Text("TITLE"),
    need: Need::Optional,
    about: "The title of the page; without it both players' names, or else \"Backgammon match\"",
};

pub(crate) const NAME_X: Argument = Argument {
    name: "name-x",
    kind: Kind::Text("NAME"),
    need: Need::Optional,
    about: "The name of player X, 1 to 64 bytes",
};

pub(crate) const NAME_O: Argument = Argument {
    name: "name-o",
    kind: Kind::Text("NAME"),
    need: Need::Optional,
    about: "The name of player O, 1 to 64 bytes",
};

/// Returns the names of players that options give, which were checked before.
pub(crate) fn names_of(x: Option<&str>, o: Option<&str>) -> Names {
    Names {
        x: named(x),
        o: named(o),
    }
}

/// Returns the name that a text is, which was checked before.
fn named(text: Option<&str>) -> Option<Name> {
    Name::new(text?).ok()
}

/// The option for the key file of a seat.
pub(crate) const SEAT_KEY: Argument = Argument {
    name: "match",
    kind: Kind::Text("FILE"),
    need: Need::Required,
    about: "The player's key file, `match-x` or `match-o`, which `new` made",
};

/// The option to log only errors.
pub(crate) const QUIET_LOG: Argument = Argument {
    name: "quiet",
    kind: Kind::Flag,
    need: Need::Optional,
    about: "Log only problems on standard error",
};

pub(crate) const FOLDER: Argument = Argument {
    name: "dir",
    kind: Kind::Text("DIR"),
    need: Need::Required,
    about: "The folder of the saved files; no other process may use it",
};
