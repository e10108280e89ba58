//! The reasons why matches are not served.

use bg_console::say;
use bg_wire::Slot;
use std::alloc::AllocError;
use std::io;

/// The words on what is no failure of the system, with what to do.
const NO_MATCH_FILE: &str =
    "its `match` is no match file: put back a copy of it, and start the server again";

const OTHER_DICE: &str =
    "its `dice` and its `secret` don't belong together: put back the one that was changed, and start the server again";

const DAMAGED: &str =
    "the saves of its referee are damaged: `bg_relay show` says how; put back a copy of them, and start the server again";

const OF_ANOTHER: &str =
    "the saves of its referee are of another match: put back its own, and start the server again";

const IN_USE: &str = "another process uses it: end that process, and start the server again";

const NO_ROOM: &str =
    "the server has no room or no memory for it: move its folder to another server";

/// A part of the folder of a match.
#[derive(Clone, Copy)]
pub(crate) enum Part {
    /// The folder itself.
    Folder,
    /// The file `match`.
    Match,
    /// The file `seats`.
    Seats,
    /// The secret of the dice.
    Secret,
    /// The SHA-256 of that secret.
    Dice,
    /// A slot of the referee.
    Save(Slot),
}

impl Part {
    /// Returns the name of the part.
    fn name(self) -> &'static str {
        match self {
            Part::Folder => "folder",
            Part::Match => "`match`",
            Part::Seats => "`seats`",
            Part::Secret => "`secret`",
            Part::Dice => "`dice`",
            Part::Save(Slot::Zero) => "`party-0.0`",
            Part::Save(Slot::One) => "`party-0.1`",
        }
    }
}

/// The reason why a match is not served.
#[derive(Drop)]
pub(crate) enum Unserved {
    /// This part of its folder can't be used.
    Part(Part, io::Error),
    /// Its file `match` has something else.
    NoMatchFile,
    /// Its `dice` is not the SHA-256 of its `secret`.
    OtherDice,
    /// The saves of its referee are damaged.
    Damaged,
    /// The saves of its referee are of another match.
    OfAnother,
    /// Another process uses its folder.
    InUse,
    /// The server has no room or no memory for it.
    NoRoom,
}

impl From<AllocError> for Unserved {
    fn from(error: AllocError) -> Unserved {
        Unserved::Part(Part::Folder, io::Error::from(error))
    }
}

impl Unserved {
    /// Logs that the match of this name is left out, and why.
    pub(crate) fn tell(&self, rt: &HostRuntime, name: &str) {
        let words = match self {
            Unserved::Part(part, error) => {
                let part = part.name();
                say(
                    rt,
                    format_args!(
                        "the match in {name} is left out: its {part} can't be used: {error}; mend that, and start the server again"
                    ),
                );
                return;
            }
            Unserved::NoMatchFile => NO_MATCH_FILE,
            Unserved::OtherDice => OTHER_DICE,
            Unserved::Damaged => DAMAGED,
            Unserved::OfAnother => OF_ANOTHER,
            Unserved::InUse => IN_USE,
            Unserved::NoRoom => NO_ROOM,
        };
        say(rt, format_args!("the match in {name} is left out: {words}"));
    }

    /// Returns the reason as an error of the system.
    pub(crate) fn into_error(self) -> io::Error {
        match self {
            Unserved::Part(_, error) => error,
            _ => io::Error::from(io::ErrorKind::InvalidData),
        }
    }
}

/// A match that is left out, and why.
#[derive(Drop)]
pub(crate) struct LeftOut {
    pub(crate) name: String,
    pub(crate) why: Unserved,
}

/// Returns the value of an attempt to use this part of the folder of a match.
///
/// # Errors
/// The reason why it failed, with the part.
pub(crate) fn used<T>(part: Part, attempt: io::Result<T>) -> Result<T, Unserved> {
    match attempt {
        Ok(value) => Ok(value),
        Err(error) => Err(Unserved::Part(part, error)),
    }
}
