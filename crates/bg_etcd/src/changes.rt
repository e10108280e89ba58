//! Changes of folders, and how many of them fit into one transaction.

use crate::limits::{MOST_BYTES, MOST_PUTS};
use std::alloc::{AllocError, Global};

/// A file of the store.
#[derive(Drop)]
pub struct File {
    /// `FOLDER/FILE`.
    pub name: String,
    pub text: Vec<u8>,
    /// The revision at which the text was written to the store; 0 if it has not been written yet.
    pub revision: u64,
}

/// The files of a folder that are to have new texts: either all of them, or none.
#[derive(Drop)]
pub struct Changes {
    pub folder: String,
    /// The revision up to which the folder is known; 0 if it is to be new.
    pub known: u64,
    pub files: Vec<File>,
}

impl Changes {
    /// Returns changes without files, of a folder that is known up to a revision.
    ///
    /// # Errors
    /// `AllocError` if memory runs out.
    pub fn new(alloc: Global, folder: &str, known: u64) -> Result<Changes, AllocError> {
        Ok(Changes {
            folder: String::from_str(alloc, folder)?,
            known,
            files: Vec::new(alloc),
        })
    }

    /// Adds the text of a file, which replaces an older one of the same name.
    ///
    /// # Errors
    /// `AllocError` if memory runs out.
    pub fn put(&mut self, file: File) -> Result<(), AllocError> {
        let name = file.name.as_str();
        self.files.retain(|older| older.name.as_str() != name);
        self.files.push(file)?;
        Ok(())
    }

    /// Returns whether a file of this name is among the changes.
    pub fn has(&self, name: &str) -> bool {
        self.files.iter().any(|file| file.name.as_str() == name)
    }

    /// Returns the total number of bytes of the texts.
    pub fn bytes(&self) -> usize {
        let mut bytes = 0usize;
        for file in self.files.iter() {
            bytes = bytes.saturating_add(file.text.len());
        }
        bytes
    }

    /// Returns whether a folder with these files has all of these changes, and nothing else in it
    /// is newer than the known revision. Then the changes were made, by whomever, and nothing has
    /// changed since.
    pub fn are_all_in(&self, files: &[File]) -> bool {
        self.files.iter().all(|file| has_file(files, file)) && self.has_newer(files)
    }

    /// Returns whether each of these files that is newer than the known revision is among the
    /// changes.
    fn has_newer(&self, files: &[File]) -> bool {
        for file in files.iter() {
            if file.revision > self.known && !has_file(&self.files, file) {
                return false;
            }
        }
        true
    }
}

/// Returns whether a file with this name and text is among others.
fn has_file(files: &[File], file: &File) -> bool {
    for other in files.iter() {
        if other.name.as_str() == file.name.as_str() && other.text == file.text {
            return true;
        }
    }
    false
}

/// The size of a transaction, which decides how many changes of folders fit into it.
#[derive(Clone, Copy, Debug, PartialEq, Eq)]
pub struct Batches {
    puts: usize,
    bytes: usize,
}

impl Batches {
    /// Begins a transaction without changes.
    pub fn new() -> Batches {
        Batches { puts: 0, bytes: 0 }
    }

    /// Adds the changes of a folder to the transaction, if they fit in addition to those before.
    /// Returns whether they fit; the first ones always do.
    pub fn take(&mut self, changes: &Changes) -> bool {
        let puts = self.puts.saturating_add(changes.files.len());
        let bytes = self.bytes.saturating_add(changes.bytes());
        let fits = self.puts == 0 || puts <= MOST_PUTS && bytes <= MOST_BYTES;
        if fits {
            self.puts = puts;
            self.bytes = bytes;
        }
        fits
    }
}
