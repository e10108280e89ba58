//! Boards from words.
use bg_board::Board;
use std::process::Abort;

fn number(rt: &impl Abort, word: &str) -> u8 {
    word.parse().expect(rt, word)
}

/// Puts so many of the checkers that are off on a point, as "24:2".
fn place(rt: &impl Abort, counts: &mut [u8; 26], word: &str) {
    let (point, count) = word.split_once(':').expect(rt, word);
    let count = number(rt, count);
    counts[0] = counts[0].checked_sub(count).expect(rt, word);
    let place = counts.get_mut(usize::from(number(rt, point)));
    *place.expect(rt, word) = count;
}

/// Where a player's checkers stand, in his own numbering, as "24:2 13:5 8:3 6:5", where 25 is the
/// bar. The others are off, as "0:15".
pub(crate) fn counts(rt: &impl Abort, words: &str) -> [u8; 26] {
    let mut counts = [0; 26];
    counts[0] = 15;
    for word in words.split(' ') {
        place(rt, &mut counts, word);
    }
    counts
}

/// The board where the checkers of X and of O stand so.
pub(crate) fn board(rt: &impl Abort, x: &str, o: &str) -> Board {
    Board::from_counts(counts(rt, x), counts(rt, o)).expect(rt, "a board")
}
