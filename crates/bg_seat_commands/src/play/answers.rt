//! The outcome of each answer to a double or to an offer to resign.

use bg_board::Player;
use bg_match::{Entry, Standing};
use bg_table::{offered, result_text};
use bg_text::{put_number, put_text};
use std::alloc::{AllocError, Global};

/// Returns the lines that tell a player the outcome of each answer to an offer, as in `take: you
/// own the cube at 4` and `drop: X wins 2 points: 3 to 1`. Returns an empty text where the player
/// has no offer to answer.
pub(super) fn answers_text(
    alloc: Global,
    standing: &Standing,
    player: Player,
) -> Result<Vec<u8>, AllocError> {
    let mut text = Vec::new(alloc);
    let offers = offered(standing, player);
    if offers.take {
        put_text(&mut text, "take: you own the cube at ")?;
        put_number(&mut text, 2 * u64::from(standing.cube().value))?;
        put_text(&mut text, "\n")?;
    }
    if offers.drop {
        put_answer(&mut text, "drop: ", standing, &Entry::Dropped, player)?;
    }
    if offers.accept {
        put_answer(&mut text, "accept: ", standing, &Entry::Accepted, player)?;
        put_text(&mut text, "reject: the game goes on\n")?;
    }
    Ok(text)
}

/// Appends an answer, and the line with the result of the game that its entry would end.
fn put_answer(
    text: &mut Vec<u8>,
    answer: &str,
    standing: &Standing,
    entry: &Entry,
    player: Player,
) -> Result<(), AllocError> {
    put_text(text, answer)?;
    let Ok(after) = standing.next(entry) else {
        return Ok(());
    };
    let result = result_text(*text.allocator(), standing, &after, player)?;
    text.extend_from_slice(&result)
}
