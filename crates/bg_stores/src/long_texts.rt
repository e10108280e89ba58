//! Matches with texts that come near the limit of a store.

use bg_etcd::{MOST_TEXT, NEAR_TEXT};
use bg_world::DeviceFault;
use std::alloc::Global;
use std::cell::RefCell;

/// A match with a text that comes near the limit, or is beyond it.
#[derive(Drop)]
struct LongMatch {
    name: String,
    /// Whether the text is beyond the limit: then nothing more of the match is saved.
    is_full: bool,
    is_told: bool,
}

/// The matches with texts that came near the limit.
#[derive(Drop)]
pub struct LongTexts {
    alloc: Global,
    found: RefCell<Vec<LongMatch>>,
}

impl LongTexts {
    /// Creates a `LongTexts` without matches.
    pub fn none(alloc: Global) -> LongTexts {
        LongTexts {
            alloc,
            found: RefCell::new(Vec::new(alloc)),
        }
    }

    /// Refuses the text of a file if it is beyond the limit. Notes the match of a text that is
    /// beyond the limit, or comes near it.
    ///
    /// # Errors
    /// `Failed` if the text is beyond the limit, and `Memory` if memory runs out.
    pub fn check(&self, file: &str, length: usize) -> Result<(), DeviceFault> {
        if length >= NEAR_TEXT {
            let name = file.split('/').next().unwrap_or(file);
            self.note(name, length > MOST_TEXT)?;
        }
        if length > MOST_TEXT {
            return Err(DeviceFault::Failed);
        }
        Ok(())
    }

    /// Notes a match, unless it is already noted with the same `is_full`, or as full.
    fn note(&self, name: &str, is_full: bool) -> Result<(), DeviceFault> {
        match self.found.try_borrow_mut() {
            Ok(mut found) => note_in(self.alloc, &mut found, name, is_full),
            Err(_) => Ok(()),
        }
    }

    /// Returns whether nothing more of a match is saved.
    pub fn is_full(&self, name: &str) -> bool {
        let Ok(found) = self.found.try_borrow() else {
            return false;
        };
        found
            .iter()
            .any(|long| long.is_full && long.name.as_str() == name)
    }

    /// Forgets a match, because it has another state now.
    pub fn forget(&self, name: &str) {
        if let Ok(mut found) = self.found.try_borrow_mut() {
            found.retain(|long| long.name.as_str() != name);
        }
    }

    /// Returns the name of the next match that was not reported yet, and whether it is full. Marks
    /// the match as reported. Returns `None` if there is none, or no memory for its name.
    pub fn next_untold(&self) -> Option<(String, bool)> {
        match self.found.try_borrow_mut() {
            Ok(mut found) => next_untold_in(self.alloc, &mut found),
            Err(_) => None,
        }
    }
}

/// Adds a match, unless it is already there with the same `is_full`, or as full.
fn note_in(
    alloc: Global,
    found: &mut Vec<LongMatch>,
    name: &str,
    is_full: bool,
) -> Result<(), DeviceFault> {
    for long in found.iter() {
        if long.name.as_str() == name && (long.is_full || !is_full) {
            return Ok(());
        }
    }
    found.push(LongMatch {
        name: String::from_str(alloc, name)?,
        is_full,
        is_told: false,
    })?;
    Ok(())
}

/// Marks the next match that was not reported yet as reported. Returns its name, and whether it is
/// full.
fn next_untold_in(alloc: Global, found: &mut [LongMatch]) -> Option<(String, bool)> {
    for long in found.iter_mut() {
        if !long.is_told {
            let name = String::from_str(alloc, long.name.as_str()).ok()?;
            long.is_told = true;
            return Some((name, long.is_full));
        }
    }
    None
}
