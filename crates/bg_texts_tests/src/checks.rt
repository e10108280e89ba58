//! Checks that the tests of several crates share. Each ends the test with a message that names what
//! was wrong.
use std::alloc::{AllocError, Global};
use std::fmt::Display;
use std::process::Abort;

/// It holds of this row.
pub(crate) fn check_row(rt: &impl Abort, row: &str, holds: bool) {
    assert!(rt; holds, "{row}");
}

/// It holds of this number.
pub(crate) fn check_number(rt: &impl Abort, what: &str, number: usize, holds: bool) {
    assert!(rt; holds, "{what} {number}");
}

/// What is told of this row is what was expected.
pub(crate) fn check_told(rt: &impl Abort, row: &str, told: &str, wanted: &str) {
    assert!(rt; told == wanted, "\"{told}\" for \"{row}\"");
}

/// What was made, for which there is memory, is this text.
pub(crate) fn check_text(
    rt: &impl Abort,
    row: &str,
    made: Result<Vec<u8>, AllocError>,
    wanted: &str,
) {
    let made = made.expect(rt, "memory");
    check_told(rt, row, text_of(&made), wanted);
}

/// What was put into words, for which there is memory, is this.
pub(crate) fn check_words(
    rt: &impl Abort,
    row: &str,
    words: Result<String, AllocError>,
    wanted: &str,
) {
    let words = words.expect(rt, "memory");
    check_told(rt, row, words.as_str(), wanted);
}

/// A value is printed so.
pub(crate) fn check_printed<T: Display>(rt: &impl Abort, alloc: Global, value: &T, words: &str) {
    check_words(rt, words, format!(in alloc; "{value}"), words);
}

/// Returns what stands before an arrow and behind it.
pub(crate) fn parted<'a>(rt: &impl Abort, row: &'a str) -> (&'a str, &'a str) {
    row.split_once(" -> ").expect(rt, "an arrow")
}

/// Returns what is written in bytes.
pub(crate) fn text_of(bytes: &[u8]) -> &str {
    std::str::from_utf8(bytes).unwrap_or("no text")
}

/// It holds of this row. Ends the test too where the growth that comes next is refused: so
/// `tools/checks/refuse_growths` learns how many came before.
pub(crate) fn check_last(rt: &impl Abort, alloc: Global, row: &str, holds: bool) {
    check_row(rt, row, holds);
    let growth = Vec::<u8>::with_capacity(alloc, 1);
    check_row(rt, "no growth is left", growth.is_ok());
}
