//! Checks that the tests share. Each ends the test with a message that names what was wrong: an
//! assertion with a value in its message is dear to prove, and a call of one is cheap.
use std::process::Abort;

/// It holds of this row.
pub(crate) fn check_row(rt: &impl Abort, row: &str, holds: bool) {
    assert!(rt; holds, "{row}");
}

/// It holds of this number.
pub(crate) fn check_number(rt: &impl Abort, what: &str, number: u32, holds: bool) {
    assert!(rt; holds, "{what} {number}");
}

/// It holds of what this row came to.
pub(crate) fn check_answer(rt: &impl Abort, row: &str, answer: &str, holds: bool) {
    assert!(rt; holds, "{row} came to {answer}");
}
