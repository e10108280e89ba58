//! The revision of a store up to which each of its folders is known.
ghost use Rattle.std.specs.Prelude.{◌≤◌, vec_len};

use std::alloc::{AllocError, Global};

/// A folder, and the revision up to which it is known.
#[derive(Drop)]
struct KnownFolder {
    name: String,
    revision: u64,
}

/// The known folders.
#[derive(Drop)]
pub struct Known {
    alloc: Global,
    /// The folders, sorted by name; each name occurs once.
    folders: Vec<KnownFolder>,
}

impl Known {
    /// Creates a `Known` without folders.
    pub fn nothing(alloc: Global) -> Known {
        Known {
            alloc,
            folders: Vec::new(alloc),
        }
    }

    /// Returns the index of a folder, or the index at which it would be inserted.
    fn place_of(&self, name: &str) -> usize
        ensures { result ≤ vec_len self.now.folders }
    {
        self.folders
            .partition_point(|folder| folder.name.as_str() < name)
    }

    /// Returns the revision up to which a folder is known; 0 if the folder isn't known.
    pub fn of(&self, name: &str) -> u64 {
        match self.folders.get(self.place_of(name)) {
            Some(folder) if folder.name.as_str() == name => folder.revision,
            _ => 0,
        }
    }

    /// Notes that a folder is known up to a revision. A revision below the noted one changes
    /// nothing.
    ///
    /// # Errors
    /// `AllocError` if memory runs out.
    pub fn note(&mut self, name: &str, revision: u64) -> Result<(), AllocError> {
        let place = self.place_of(name);
        match self.folders.get_mut(place) {
            Some(folder) if folder.name.as_str() == name => {
                folder.revision = folder.revision.max(revision);
            }
            _ => {
                let name = String::from_str(self.alloc, name)?;
                let at = place.min(self.folders.len());
                self.folders.insert(at, KnownFolder { name, revision })?;
            }
        }
        Ok(())
    }

    /// Notes that a folder no longer exists.
    pub fn forget(&mut self, name: &str) {
        self.folders.retain(|folder| folder.name.as_str() != name);
    }

    /// Returns the names of the folders that are known only up to a revision before this one.
    ///
    /// # Errors
    /// `AllocError` if memory runs out.
    pub fn older_than(&self, revision: u64) -> Result<Vec<String>, AllocError> {
        let mut names = Vec::new(self.alloc);
        for folder in self.folders.iter() {
            if folder.revision < revision {
                names.push(String::from_str(self.alloc, folder.name.as_str())?)?;
            }
        }
        Ok(names)
    }
}
