//! What the words of rows say. A word that says nothing of the kind ends the test.
use std::process::Abort;

/// A word of a row, by its place from 0 on.
pub(crate) fn word<'a>(rt: &impl Abort, row: &'a str, place: usize) -> &'a str {
    row.split(' ').nth(place).expect(rt, "a word")
}

/// The number that a word says.
pub(crate) fn number(rt: &impl Abort, word: &str) -> u32 {
    word.parse().expect(rt, "a number")
}

/// The number up to 255 that a word says.
pub(crate) fn small_number(rt: &impl Abort, word: &str) -> u8 {
    word.parse().expect(rt, "a number up to 255")
}
