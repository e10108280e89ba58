//! The words on a choice that waits for the referee.

use bg_board::Player;
use bg_match::{Action, Entry};
use bg_text::{entry_text, level_word, put_text};
use std::alloc::{AllocError, Global};

/// Returns the line that tells a player which choice of theirs waits for the referee, as in
/// `your choice, move 8-5 6-5, is kept, and waits for the referee`.
pub(super) fn kept_text(
    alloc: Global,
    player: Player,
    action: &Action,
) -> Result<Vec<u8>, AllocError> {
    let mut text = Vec::new(alloc);
    put_text(&mut text, "your choice, ")?;
    put_action(&mut text, player, action)?;
    put_text(&mut text, ", is kept, and waits for the referee\n")?;
    Ok(text)
}

/// Appends an action, as it is typed.
fn put_action(text: &mut Vec<u8>, player: Player, action: &Action) -> Result<(), AllocError> {
    let word = match action {
        Action::Move(turn) => {
            let line = entry_text(Some(player), &Entry::Moved(turn.copy()));
            let (_, words) = line.as_str().split_once(' ').unwrap_or_default();
            return put_text(text, words);
        }
        Action::Resign(level) => {
            put_text(text, "resign ")?;
            level_word(*level)
        }
        Action::Roll => "roll",
        Action::Double => "double",
        Action::Take => "take",
        Action::Drop => "drop",
        Action::Accept => "accept",
        Action::Reject => "reject",
    };
    put_text(text, word)
}
