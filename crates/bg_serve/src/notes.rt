//! Notes for a database or a store about the files of matches, besides the saves of the parties.

use crate::folders::FolderStore;
use bg_etcd::File;
use bg_journal::{Change, FileText};
use bg_stores::{BESIDE_SLOTS, Copies};
use bg_world::DeviceFault;
use std::io;
use std::io::ErrorKind;

impl<'a> FolderStore<'a> {
    /// Notes that the files of a match are gone.
    ///
    /// # Errors
    /// `OutOfMemory` if it can't be noted. The other notes also fail if a file has more bytes than
    /// a store takes, or with the reason why the files can't be read.
    pub(crate) fn note_gone(&self, name: &str) -> io::Result<()> {
        match &self.turn {
            Some(turn) => noted(turn.remove(self.rt.alloc(), name)),
            None => Ok(()),
        }
    }

    /// Notes that the files of a match are new. A store gets them, and a database discards what it
    /// has of them.
    pub(crate) fn note_new(&self, name: &str) -> io::Result<()> {
        if self.is_shared() {
            return self.share(name, self.copies().all_files(name)?);
        }
        self.note_gone(name)
    }

    /// Notes that files of a match other than its slots may have changed. A store gets them.
    pub(crate) fn note_changed(&self, name: &str) -> io::Result<()> {
        if self.is_shared() {
            return self.share(name, self.copies().files(name, &BESIDE_SLOTS)?);
        }
        Ok(())
    }

    /// Returns whether the matches are in a store that several servers share.
    fn is_shared(&self) -> bool {
        self.turn.as_ref().is_some_and(|turn| turn.long.is_some())
    }

    /// Returns the folder as a copy of a store.
    fn copies(&self) -> Copies<'a> {
        Copies {
            rt: self.rt,
            folder: self.folder,
        }
    }

    /// Adds files of a match to what the store gets at the end of the turn: all of them, or none if
    /// one is too long. A match without seats is not shared, because other processes may play it.
    fn share(&self, name: &str, files: Vec<File>) -> io::Result<()> {
        let Some(turn) = &self.turn else {
            return Ok(());
        };
        if !self.copies().has_seats(name)? {
            return Ok(());
        }
        if let Some(long) = &turn.long {
            for file in files.iter() {
                noted(long.check(file.name.as_str(), file.text.len()))?;
            }
        }
        for file in files {
            let File { name, text, .. } = file;
            noted(turn.add(Change::Put(FileText { name, text })))?;
        }
        Ok(())
    }
}

/// Returns the result of a call for the saves of a turn as an I/O result; every error becomes
/// `OutOfMemory`.
pub(crate) fn noted<T>(attempt: Result<T, DeviceFault>) -> io::Result<T> {
    match attempt {
        Ok(value) => Ok(value),
        Err(_) => Err(io::Error::from(ErrorKind::OutOfMemory)),
    }
}
