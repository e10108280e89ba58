//! What lasts as long as the process. It has nothing to drop, and what has nothing to drop is cheap
//! to prove.
use std::process::Abort;
use std::str;

/// A value that is never dropped.
pub(crate) fn lasting<'a, T: Drop + 'a>(rt: &(impl AllocGlobal + Abort), value: T) -> &'a mut T {
    match Box::new(rt.alloc(), value) {
        Ok(kept) => Box::leak(kept),
        Err(_) => panic!(rt; "memory for a value"),
    }
}

/// The same of a text.
pub(crate) fn lasting_text<'a>(text: String) -> &'a str {
    str::from_utf8(text.into_bytes().leak()).unwrap_or_default()
}
