//! The changes that are still to be put into a store, by match.

use crate::known::Known;
use crate::troubles::Trouble;
use bg_etcd::{Batches, Changes, File};
use bg_journal::FileText;
use std::alloc::{AllocError, Global};

/// The changes that are still to be put into a store.
#[derive(Drop)]
pub struct Pending {
    alloc: Global,
    /// The new files of each match.
    pub changes: Vec<Changes>,
    /// How many of the first of these get a transaction each, because one with all of them was
    /// refused.
    alone: usize,
    /// The matches to be removed, each with the revision up to which it is known. They come before
    /// the changes.
    pub removals: Vec<Changes>,
}

impl Pending {
    /// Creates a `Pending` without changes.
    pub fn nothing(alloc: Global) -> Pending {
        Pending {
            alloc,
            changes: Vec::new(alloc),
            alone: 0,
            removals: Vec::new(alloc),
        }
    }

    /// Returns whether nothing is to be put or removed.
    pub fn is_empty(&self) -> bool {
        self.changes.is_empty() && self.removals.is_empty()
    }

    /// Adds a copy of a file, which replaces an older copy of it.
    ///
    /// # Errors
    /// Only `Memory`, as a fault of the store, if memory runs out.
    pub fn add_file(&mut self, known: &Known, file: &FileText) -> Result<(), Trouble> {
        let Some((folder, _)) = file.name.as_str().split_once('/') else {
            return Ok(());
        };
        let copy = copy_of(self.alloc, file)?;
        match self.changes_of(folder) {
            Some(changes) => changes.put(copy)?,
            None => {
                let mut changes = Changes::new(self.alloc, folder, known.of(folder))?;
                changes.put(copy)?;
                self.changes.push(changes)?;
            }
        }
        Ok(())
    }

    /// Returns the changes of a match, if it has any.
    fn changes_of(&mut self, folder: &str) -> Option<&mut Changes> {
        for changes in self.changes.iter_mut() {
            if changes.folder.as_str() == folder {
                return Some(changes);
            }
        }
        None
    }

    /// Adds a match to those to be removed, and drops its other changes.
    ///
    /// # Errors
    /// Only `Memory`, as a fault of the store, if memory runs out.
    pub fn add_removal(&mut self, known: &Known, folder: &str) -> Result<(), Trouble> {
        self.changes
            .retain(|changes| changes.folder.as_str() != folder);
        self.removals
            .push(Changes::new(self.alloc, folder, known.of(folder))?)?;
        Ok(())
    }

    /// Returns how many matches go into the next transaction: as many as fit, or one if it goes
    /// alone.
    pub fn batch(&self) -> usize {
        if self.alone > 0 {
            return 1;
        }
        let mut batch = Batches::new();
        for (index, changes) in self.changes.iter().enumerate() {
            if !batch.take(changes) {
                return index;
            }
        }
        self.changes.len()
    }

    /// Gives each of the first `count` matches a transaction of its own.
    pub fn part(&mut self, count: usize) {
        self.alone = count;
    }

    /// Removes and returns the first match, because its changes are done.
    pub fn take_first(&mut self) -> Option<Changes> {
        if self.changes.is_empty() {
            return None;
        }
        self.alone = self.alone.saturating_sub(1);
        Some(self.changes.remove(0))
    }
}

/// Returns a copy of a file that is not in the store yet.
fn copy_of(alloc: Global, file: &FileText) -> Result<File, AllocError> {
    Ok(File {
        name: String::from_str(alloc, file.name.as_str())?,
        text: file.text.as_slice().to_vec(alloc)?,
        revision: 0,
    })
}
