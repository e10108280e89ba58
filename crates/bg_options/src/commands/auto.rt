//! The options and help of the command that plays for a player until the match is over.

use crate::arguments::Description;
use crate::shared::{FOLDER, PLAYER, SEAT_KEY, THREE_TERMINALS};

/// The help on `auto`.
pub(crate) const ABOUT_AUTO: &str =
    "Let an automatic player play a match until it is over, and print its transcript.

Saves its actions in DIR, a folder for this player alone, which is made if it is missing.

Exit status: as for `play`.";

/// The command with its options and help.
pub(crate) static COMMAND: Description = Description {
    name: "auto",
    about: "Let an automatic player play a match",
    after_help: Some(THREE_TERMINALS),
    arguments: &[PLAYER, SEAT_KEY, FOLDER],
};
