//! Checks that these tests share. Each fails with a message that names what was wrong: a message
//! with a value in it takes a second to prove, so that there are few.
use std::alloc::Global;
use std::fmt::Display;
use std::process::Abort;

/// Ends the test with its row, or with what was said, where something is not so.
pub(crate) fn check(rt: &impl Abort, is_so: bool, row: &str) {
    assert!(rt; is_so, "{row}");
}

/// It holds of this number.
pub(crate) fn check_number(rt: &impl Abort, what: &str, number: u64, holds: bool) {
    assert!(rt; holds, "{what} {number}");
}

/// Whether a value is printed so.
pub(crate) fn is_printed<T: Display>(alloc: Global, value: &T, text: &str) -> bool {
    match format!(in alloc; "{value}") {
        Ok(printed) => printed.as_str() == text,
        Err(_) => false,
    }
}

/// Ends the test where the growth that comes next is refused: so `tools/checks/refuse_growths`
/// learns how many came before.
pub(crate) fn check_no_growth_is_left(rt: &(impl AllocGlobal + Abort)) {
    let growth = Vec::<u8>::with_capacity(rt.alloc(), 1);
    check(rt, growth.is_ok(), "no growth is left");
}
