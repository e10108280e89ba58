//! Texts of several parts.

use bg_text::put_text;
use std::alloc::AllocError;

/// Appends these parts to a text, one after the other.
pub(crate) fn put_texts(out: &mut Vec<u8>, parts: &[&str]) -> Result<(), AllocError> {
    for part in parts {
        put_text(out, part)?;
    }
    Ok(())
}
