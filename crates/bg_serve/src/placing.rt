//! Copying what the store has into the folder of a server.

use crate::clusters::Cluster;
use bg_console::path_in;
use bg_etcd::File;
use bg_journal::{Change, FileText};
use bg_stores::{SLOTS, Trouble, is_slot, parts_of};

impl<'a> Cluster<'a> {
    /// Takes in a match as the store has it at a revision. If the store has no files of it, its
    /// folder is removed.
    pub(crate) fn take_in(
        &mut self,
        folder: &str,
        files: Vec<File>,
        revision: u64,
    ) -> Result<(), Trouble> {
        if files.is_empty() {
            self.known.forget(folder);
            return self.remove(folder);
        }
        self.forget_length(folder);
        self.remove_lacking(folder, &files)?;
        for file in files {
            self.place(file)?;
        }
        self.known.note(folder, revision)?;
        Ok(())
    }

    /// Removes the slots of a match that the store doesn't have. They are left over from before the
    /// match was removed and restored.
    fn remove_lacking(&self, folder: &str, files: &[File]) -> Result<(), Trouble> {
        for slot in SLOTS.iter() {
            let name = path_in(self.rt.alloc(), folder, slot)?;
            if !files.iter().any(|file| file.name.as_str() == name.as_str()) {
                self.remove_slot(name.as_str())?;
            }
        }
        Ok(())
    }

    /// Removes the file of a slot, and forgets what is to be written into it.
    fn remove_slot(&self, name: &str) -> Result<(), Trouble> {
        if let Ok(mut behind) = self.saves.behind.try_borrow_mut() {
            behind.forget(name);
        }
        Ok(self.copies.remove_slot(name)?)
    }

    /// Writes a file of the store into the folder; a file that a party writes follows later. If the
    /// operator has changed the match since, its file stays, and will be put into the store.
    pub(crate) fn place(&self, file: File) -> Result<(), Trouble> {
        let Some((folder, name)) = parts_of(file.name.as_str()) else {
            return Ok(());
        };
        if is_slot(name) {
            return self.place_slot(file);
        }
        if !self.copies.is_changed(folder)? {
            self.copies.write(folder, name, &file.text)?;
        }
        Ok(())
    }

    /// Notes that the file of a slot is older than the store's.
    pub(crate) fn place_slot(&self, file: File) -> Result<(), Trouble> {
        let File { name, text, .. } = file;
        if let Ok(mut behind) = self.saves.behind.try_borrow_mut() {
            behind.reserve(1)?;
            behind.note(Change::Put(FileText { name, text }));
        }
        Ok(())
    }

    /// Forgets whether a match is too long, because its state has changed or it is gone.
    fn forget_length(&self, folder: &str) {
        if let Some(long) = &self.saves.long {
            long.forget(folder);
        }
    }

    /// Removes the folder of a match.
    pub(crate) fn remove(&self, folder: &str) -> Result<(), Trouble> {
        self.forget_length(folder);
        self.note_removal(folder)?;
        Ok(self.copies.remove(folder)?)
    }
}
