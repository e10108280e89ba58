//! What tests say of a row that does not hold, how those of refused growths end, and values that
//! last.
//!
//! What is dropped is dropped at each call that may end the test, which is dear to prove. So tests
//! keep most of what they make as long as their process lasts.
use bg_world::Outcome;
use std::alloc::{AllocError, Global};
use std::process::Abort;
use std::test::Fail;

/// The value, which lasts as long as its process.
pub(crate) fn lasting<'a, T: Drop + 'a>(alloc: Global, value: T) -> Result<&'a mut T, AllocError> {
    Ok(Box::leak(Box::new(alloc, value)?))
}

/// It holds of what these words name.
pub(crate) fn check(rt: &impl Abort, what: &str, holds: bool) {
    assert!(rt; holds, "{what}");
}

/// It holds of this number.
pub(crate) fn check_number(rt: &impl Abort, what: &str, number: u64, holds: bool) {
    assert!(rt; holds, "{what} {number}");
}

/// The row holds.
pub(crate) fn check_row(rt: &impl Abort, row: usize, holds: bool) {
    assert!(rt; holds, "row {row}");
}

/// It holds of this party.
pub(crate) fn check_party(rt: &impl Abort, party: u8, holds: bool) {
    assert!(rt; holds, "party {party}");
}

/// It holds of what the event of a row comes to.
pub(crate) fn check_outcome(rt: &impl Abort, row: usize, outcome: &Outcome, holds: bool) {
    assert!(rt; holds, "row {row} comes to {outcome:?}");
}

/// Fails where the growth that comes next is refused: so `tools/checks/refuse_growths` learns how
/// many came before.
pub(crate) fn check_no_growth_is_left(alloc: Global) -> Result<(), Fail> {
    match Vec::<u8>::with_capacity(alloc, 1) {
        Ok(_) => Ok(()),
        Err(AllocError) => Err(Fail::from("no growth is left")),
    }
}
