//! What lasts as long as the process. It has nothing to drop, and what has nothing to drop is cheap
//! to prove.
use std::process::Abort;

/// A value that is never dropped.
pub(crate) fn lasting<'a, T: Drop + 'a>(rt: &(impl AllocGlobal + Abort), value: T) -> &'a mut T {
    match Box::new(rt.alloc(), value) {
        Ok(kept) => Box::leak(kept),
        Err(_) => panic!(rt; "memory for a value"),
    }
}
