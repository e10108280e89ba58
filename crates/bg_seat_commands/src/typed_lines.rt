//! Lines that a person types.

use std::alloc::{AllocError, Global};

/// The length at which a line is cut. A longer line is not an action.
const LONGEST_LINE: usize = 256;

/// Joins words to one line, with a blank between two.
pub(crate) fn joined(alloc: Global, words: &[&str]) -> Result<Vec<u8>, AllocError> {
    let mut line = Vec::new(alloc);
    for word in words {
        if !line.is_empty() {
            line.push(b' ')?;
        }
        line.extend_from_slice(word.as_bytes())?;
    }
    Ok(line)
}

/// The bytes that have come, and the complete lines in them.
#[derive(Drop)]
pub(crate) struct TypedLines {
    bytes: Vec<u8>,
}

impl TypedLines {
    pub(crate) fn new(alloc: Global) -> TypedLines {
        TypedLines {
            bytes: Vec::new(alloc),
        }
    }

    /// Appends bytes that have come.
    pub(crate) fn push(&mut self, bytes: &[u8]) -> Result<(), AllocError> {
        self.bytes.extend_from_slice(bytes)
    }

    /// Takes the oldest complete line, without its end, and cut where it is too long.
    pub(crate) fn next(&mut self, alloc: Global) -> Result<Option<Vec<u8>>, AllocError> {
        let Some(end) = self.bytes.iter().position(|byte| *byte == b'\n') else {
            return Ok(None);
        };
        let mut line = Vec::new(alloc);
        for byte in self.bytes.iter().take(end.min(LONGEST_LINE)) {
            if *byte != b'\r' {
                line.push(*byte)?;
            }
        }
        self.bytes.drain(..=end);
        Ok(Some(line))
    }
}
