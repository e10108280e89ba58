//! The entries that somebody else made for a player.

use bg_board::Player;
use bg_match::{Action, Number, Record};
use bg_reports::{Ending, ending_of};

/// The words before and behind the number of an entry that somebody else made for the player.
pub(crate) const NOT_CHOSEN: (&str, &str) = (
    "somebody else plays for you: entry ",
    " is in your name, and was not chosen here: go on with the --dir that you had, or find out who has your key file",
);

/// Returns the number of the first entry after entry `behind` that is in the player's name, and
/// doesn't answer this claim.
pub(crate) fn first_foreign(
    held: Option<&Record>,
    player: Player,
    behind: Number,
    claim: &Option<(Number, Action)>,
) -> Option<Number> {
    let record = held?;
    for before in behind..record.len() {
        if record.by(before + 1) == Some(player) && !is_claimed(record, before + 1, claim) {
            return Some(before + 1);
        }
    }
    None
}

/// Returns whether the entry with this number answers this claim.
fn is_claimed(record: &Record, number: Number, claim: &Option<(Number, Action)>) -> bool {
    match claim {
        Some((claimed, action)) if *claimed == number => {
            ending_of(record, action, number) == Ending::Served
        }
        _ => false,
    }
}
