//! Checks that name their row. A message with a value in it takes a second to prove: so tests share
//! this one.
use std::process::Abort;

/// Ends the test with its row where something is not so.
pub(crate) fn check(rt: &impl Abort, is_so: bool, row: &str) {
    assert!(rt; is_so, "{row}");
}

/// The same of a number.
pub(crate) fn check_number(rt: &impl Abort, is_so: bool, what: &str, number: u32) {
    assert!(rt; is_so, "{what} {number}");
}

/// The same of what was said for a row.
pub(crate) fn check_said(rt: &impl Abort, is_so: bool, row: &str, said: &str) {
    assert!(rt; is_so, "\"{said}\" for \"{row}\"");
}
