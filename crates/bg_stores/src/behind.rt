//! Files whose newest texts are durable in the database, while the files themselves may be older.
ghost use Rattle.std.specs.Prelude.{◌≤◌, length};

use bg_journal::{Change, FileText, is_below};
use std::alloc::{AllocError, Global};

/// The newest texts of the files that may be older than the database.
#[derive(Drop)]
pub struct Behind {
    /// The files, sorted by name; each name occurs once.
    pub files: Vec<FileText>,
}

impl Behind {
    /// Creates a `Behind` without files.
    pub fn new(alloc: Global) -> Behind {
        Behind {
            files: Vec::new(alloc),
        }
    }

    /// Reserves room for `files` more files.
    ///
    /// # Errors
    /// `AllocError` if memory runs out.
    pub fn reserve(&mut self, files: usize) -> Result<(), AllocError> {
        self.files.reserve(files)
    }

    /// Returns the index of a file, or the index at which it would be inserted.
    fn place_of(&self, name: &str) -> usize
        ensures { result ≤ length self.now.files.items }
    {
        self.files.partition_point(|file| file.name.as_str() < name)
    }

    /// Returns the newest text of a file; `None` if the file isn't behind.
    pub fn text_of(&self, name: &str) -> Option<&[u8]> {
        match self.files.get(self.place_of(name)) {
            Some(file) if file.name.as_str() == name => Some(&file.text),
            _ => None,
        }
    }

    /// Notes a change that is durable. Room for it must have been reserved.
    pub fn note(&mut self, change: Change) {
        match change {
            Change::Put(file) => self.put(file),
            Change::Remove(folder) => self
                .files
                .retain(|file| !is_below(file.name.as_str(), folder.as_str())),
        }
    }

    /// Notes that a file no longer exists.
    pub fn forget(&mut self, name: &str) {
        self.files.retain(|file| file.name.as_str() != name);
    }

    /// Notes the newest text of a file.
    fn put(&mut self, file: FileText) {
        let place = self.place_of(file.name.as_str());
        match self.files.get_mut(place) {
            Some(older) if older.name.as_str() == file.name.as_str() => older.text = file.text,
            _ => {
                let _ = self.files.insert(place, file);
            }
        }
    }
}
