//! How changes are put into a store, and how its answers are handled.

use crate::clusters::Cluster;
use bg_etcd::{Changes, File, Taken, removal_text, taken_in, transaction_text};
use bg_stores::{Trouble, is_slot_name};
use std::alloc::{AllocError, Global};
use std::mem;

impl<'a> Cluster<'a> {
    /// Puts all pending removals and changes into the store.
    pub(crate) fn put_all(&mut self) -> Result<(), Trouble> {
        for _ in 0..u64::MAX {
            if !self.pending.removals.is_empty() {
                self.put_removal()?;
            } else if !self.pending.changes.is_empty() {
                self.put_some()?;
            } else {
                break;
            }
        }
        Ok(())
    }

    /// Removes a match from the store, even if others have changed it meanwhile. Its revision is
    /// compared nevertheless, so that a late request doesn't remove a match that was restored.
    fn put_removal(&mut self) -> Result<(), Trouble> {
        let Some(removal) = self.pending.removals.last() else {
            return Ok(());
        };
        let text = removal_text(self.rt.alloc(), removal.folder.as_str(), removal.known)?;
        let taken = self.put(text.as_str())?;
        if taken.is_taken || taken.files.is_empty() {
            self.note_removed(taken.revision)?;
        } else if let Some(removal) = self.pending.removals.last_mut() {
            removal.known = taken.revision;
        }
        Ok(())
    }

    /// Puts the changes of as many matches as fit into one transaction.
    fn put_some(&mut self) -> Result<(), Trouble> {
        let count = self.pending.batch();
        let some = self.pending.changes.get(..count).unwrap_or_default();
        let text = transaction_text(self.rt.alloc(), some)?;
        let mut taken = self.put(text.as_str())?;
        if taken.is_taken {
            self.note_taken(count, taken.revision)
        } else if count > 1 {
            self.pending.part(count);
            Ok(())
        } else {
            self.note_refused(&mut taken)
        }
    }

    /// Sends a transaction, and waits a while for its result. Refuses that of an older store.
    fn put(&mut self, transaction: &str) -> Result<Taken, Trouble> {
        let (status, body) = self.ask_awhile("/v3/kv/txn", transaction)?;
        let taken = taken_in(self.rt.alloc(), status, &body)?;
        self.check_age(taken.revision)?;
        Ok(taken)
    }

    /// Notes that the last of the pending removals was made at a revision.
    fn note_removed(&mut self, revision: u64) -> Result<(), Trouble> {
        let Some(removal) = self.pending.removals.last() else {
            return Ok(());
        };
        self.removed.note(removal.folder.as_str(), revision)?;
        self.copies.remove_rest(removal.folder.as_str())?;
        let _ = self.pending.removals.pop();
        Ok(())
    }

    /// Checks that the store isn't older than what was read from it, as one restored from a
    /// snapshot is. Nothing can be compared with an older store.
    ///
    /// # Errors
    /// `Older` if it is older.
    pub(crate) fn check_age(&mut self, revision: u64) -> Result<(), Trouble> {
        self.is_older = self.is_older || revision < self.watched;
        if self.is_older {
            return Err(Trouble::Older);
        }
        Ok(())
    }

    /// Notes that the changes of the first matches were put. Only slots have to be written to the
    /// folder: the other files came from there.
    fn note_taken(&mut self, count: usize, revision: u64) -> Result<(), Trouble> {
        for _ in 0..count {
            let Some(changes) = self.pending.take_first() else {
                break;
            };
            self.known.note(changes.folder.as_str(), revision)?;
            for file in changes.files {
                if is_slot_name(file.name.as_str()) {
                    self.place_slot(file)?;
                }
            }
        }
        Ok(())
    }

    /// Handles the refusal of the first match's changes. Another server changed the match first,
    /// unless the store has these very changes, as it does if an answer was lost.
    fn note_refused(&mut self, taken: &mut Taken) -> Result<(), Trouble> {
        let Some(changes) = self.pending.changes.first() else {
            return Ok(());
        };
        if changes.are_all_in(&taken.files) {
            return self.note_taken(1, taken.revision);
        }
        let is_there = !taken.files.is_empty();
        let again = changes_again(self.rt.alloc(), changes, taken.revision)?;
        self.lose(&again, taken)?;
        // A change by the operator doesn't bring back a deleted match.
        if is_there && !again.files.is_empty() {
            self.add(again)?;
        }
        Ok(())
    }

    /// Takes in the first match, which another server changed first, but for what is put `again`.
    fn lose(&mut self, again: &Changes, taken: &mut Taken) -> Result<(), Trouble> {
        let alloc = self.rt.alloc();
        let folder = again.folder.as_str();
        let mut files = mem::replace(&mut taken.files, Vec::new(alloc));
        files.retain(|file| !again.has(file.name.as_str()));
        self.take_in(folder, files, taken.revision)?;
        self.lost.push(String::from_str(alloc, folder)?)?;
        let _ = self.pending.take_first();
        Ok(())
    }
}

/// Returns the operator's changes of a match that another server changed first. They are put again.
fn changes_again(alloc: Global, lost: &Changes, revision: u64) -> Result<Changes, AllocError> {
    let mut again = Changes::new(alloc, lost.folder.as_str(), revision)?;
    for file in lost.files.iter() {
        if !is_slot_name(file.name.as_str()) {
            again.put(File {
                name: String::from_str(alloc, file.name.as_str())?,
                text: file.text.as_slice().to_vec(alloc)?,
                revision: 0,
            })?;
        }
    }
    Ok(again)
}
