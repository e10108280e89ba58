//! Checks that the tests share. Each ends the test with a message that names what was wrong.
use std::alloc::Global;
use std::fmt::Display;
use std::process::Abort;

/// It holds of this row.
pub(crate) fn check_row(rt: &impl Abort, row: &str, holds: bool) {
    assert!(rt; holds, "{row}");
}

/// It holds of this line of a section.
pub(crate) fn check_line(rt: &impl Abort, section: &str, line: &str, holds: bool) {
    assert!(rt; holds, "{section}: {line}");
}

/// It holds of this number.
pub(crate) fn check_number(rt: &impl Abort, what: &str, number: usize, holds: bool) {
    assert!(rt; holds, "{what} {number}");
}

/// It holds of these bytes.
pub(crate) fn check_bytes(rt: &impl Abort, bytes: &[u8], holds: bool) {
    assert!(rt; holds, "{bytes:?}");
}

/// The text is this one.
pub(crate) fn check_told(rt: &impl Abort, text: &str, wanted: &str) {
    assert!(rt; text == wanted, "\"{text}\" in place of \"{wanted}\"");
}

/// Whether a value is printed so.
pub(crate) fn is_printed<T: Display>(alloc: Global, value: &T, text: &str) -> bool {
    match format!(in alloc; "{value}") {
        Ok(printed) => printed.as_str() == text,
        Err(_) => false,
    }
}

/// A value is printed so.
pub(crate) fn check_printed<T: Display>(rt: &(impl AllocGlobal + Abort), value: &T, text: &str) {
    check_row(rt, text, is_printed(rt.alloc(), value, text));
}

/// Ends the test where the growth that comes next is refused: so `tools/checks/refuse_growths`
/// learns how many came before.
pub(crate) fn check_no_growth_is_left(rt: &(impl AllocGlobal + Abort)) {
    let growth = Vec::<u8>::with_capacity(rt.alloc(), 1);
    check_row(rt, "no growth is left", growth.is_ok());
}
