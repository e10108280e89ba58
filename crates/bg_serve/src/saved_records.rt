//! Reading the records of matches from their folders.

use crate::folders::FolderStore;
use crate::notes::noted;
use crate::unserved::{Part, Unserved, used};
use bg_console::path_in;
use bg_match::{Record, Terms};
use bg_processes::{MatchFile, read_saved};
use bg_wire::{REFEREE, RestoreRefusal, Slot, restore};
use std::alloc::{AllocError, Global};
use std::io;

impl<'a> FolderStore<'a> {
    /// Reads the record that a match's referee has saved.
    pub(crate) fn try_load(&self, name: &str) -> io::Result<Option<Record>> {
        let path = path_in(self.rt.alloc(), self.folder, name)?;
        let Some(file) = self.table_in(path.as_str())? else {
            return Ok(None);
        };
        let zero = self.saved_in(name, "party-0.0")?;
        let one = self.saved_in(name, "party-0.1")?;
        Ok(record_in(self.rt.alloc(), &zero, &one, file))
    }

    /// Refuses a match whose referee's saves can't be read, or are not of it. Without them it would
    /// be shown as one that has just begun.
    ///
    /// # Errors
    /// The reason why the match can't be served.
    pub(crate) fn check_saves(&self, name: &str, id: u64, terms: Terms) -> Result<(), Unserved> {
        let zero = used(Part::Save(Slot::Zero), self.saved_in(name, "party-0.0"))?;
        let one = used(Part::Save(Slot::One), self.saved_in(name, "party-0.1"))?;
        let (length, rules) = (terms.length, terms.rules);
        match restore(self.rt.alloc(), &zero, &one, REFEREE, id, length, rules) {
            Ok(_) => Ok(()),
            Err(RestoreRefusal::Damaged) => Err(Unserved::Damaged),
            Err(RestoreRefusal::WrongMatch) => Err(Unserved::OfAnother),
            Err(RestoreRefusal::Memory) => Err(Unserved::from(AllocError)),
        }
    }

    /// Reads the match file of a folder without the names; `None` if there is no match file.
    fn table_in(&self, path: &str) -> io::Result<Option<MatchFile>> {
        let path = path_in(self.rt.alloc(), path, "match")?;
        MatchFile::read(self.rt, path.as_str())
    }

    /// Reads a slot of a match, from the gathered saves if its file may be older.
    fn saved_in(&self, name: &str, slot: &str) -> io::Result<Vec<u8>> {
        let file = path_in(self.rt.alloc(), name, slot)?;
        if let Some(turn) = &self.turn {
            if let Some(text) = noted(turn.newest(self.rt.alloc(), file.as_str()))? {
                return Ok(text);
            }
        }
        let path = path_in(self.rt.alloc(), self.folder, file.as_str())?;
        read_saved(self.rt, path.as_str())
    }
}

/// Returns the record in a referee's two slots, if they have one of this match.
fn record_in(alloc: Global, zero: &[u8], one: &[u8], file: MatchFile) -> Option<Record> {
    let (id, length, rules) = (file.id, file.terms.length, file.terms.rules);
    match restore(alloc, zero, one, REFEREE, id, length, rules) {
        Ok(Some(saved)) => Some(saved.log),
        _ => None,
    }
}
