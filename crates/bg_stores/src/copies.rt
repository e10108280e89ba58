//! The folder of a server that shares its matches, which is a copy of the store.

use crate::changes::is_changed;
use crate::followers::overwrite;
use crate::marks::{hide, is_hidden, show};
use bg_console::{entries_in, path_in};
use bg_etcd::File;
use bg_requests::is_name;
use bg_wire::{LoadFault, load};
use std::alloc::Global;
use std::fs::DirBuilder;
use std::io::ErrorKind;
use std::os::unix::fs::DirBuilderExt;
use std::{fs, io};

/// The mode of a new folder, which only its owner can use.
const FOLDER: u32 = 0o700;

/// The file that each match has: without it, a folder is not a match.
pub const MATCH: &str = "match";

/// The file that says who may play.
const SEATS: &str = "seats";

/// The file that says whether lists leave a match out. In the store, its text is `yes` or `no`. A
/// folder has an empty file if lists leave the match out, and no file otherwise.
const HIDDEN: &str = "hidden";

const YES: &str = "yes";

const NO: &str = "no";

/// The files of a match that its parties don't write.
pub const BESIDE_SLOTS: [&str; 5] = [MATCH, "secret", "dice", SEATS, HIDDEN];

/// The files of a match that its parties write.
pub const SLOTS: [&str; 6] = [
    "party-0.0",
    "party-0.1",
    "party-1.0",
    "party-1.1",
    "party-2.0",
    "party-2.1",
];

/// Splits a name in the store into the names of the match and of its file; `None` if it isn't the
/// name of a file of a match.
pub fn parts_of(name: &str) -> Option<(&str, &str)> {
    let (folder, file) = name.split_once('/')?;
    if is_name(folder) && (is_slot(file) || BESIDE_SLOTS.iter().any(|other| *other == file)) {
        Some((folder, file))
    } else {
        None
    }
}

/// Returns whether a file is one that a party writes.
pub fn is_slot(file: &str) -> bool {
    SLOTS.iter().any(|slot| *slot == file)
}

/// Returns whether the file of this name in the store is one that a party writes.
pub fn is_slot_name(name: &str) -> bool {
    match parts_of(name) {
        Some((_, file)) => is_slot(file),
        None => false,
    }
}

/// The folder of all matches, as a copy of the store.
#[derive(Clone, Copy)]
pub struct Copies<'a> {
    pub rt: &'a HostRuntime,
    /// The path of the folder.
    pub folder: &'a str,
}

impl<'a> Copies<'a> {
    /// Writes a file of a match, unless it has this text already.
    ///
    /// # Errors
    /// The reason why the file can't be written.
    pub fn write(&self, folder: &str, file: &str, text: &[u8]) -> io::Result<()> {
        let alloc = self.rt.alloc();
        let above = path_in(alloc, self.folder, folder)?;
        DirBuilder::new()
            .recursive(true)
            .mode(FOLDER)
            .create(self.rt, above.as_str())?;
        if file == HIDDEN {
            return if text == YES.as_bytes() {
                hide(self.rt, above.as_str())
            } else {
                show(self.rt, above.as_str())
            };
        }
        let path = path_in(alloc, above.as_str(), file)?;
        if fs::read(self.rt, path.as_str()).is_ok_and(|old| old.as_slice() == text) {
            return Ok(());
        }
        overwrite(self.rt, path.as_str(), text)
    }

    /// Writes a file by its name in the store. Ignores a name that isn't that of a file of a match.
    ///
    /// # Errors
    /// The reason why the file can't be written.
    pub fn write_named(&self, name: &str, text: &[u8]) -> io::Result<()> {
        match parts_of(name) {
            Some((folder, file)) => self.write(folder, file, text),
            None => Ok(()),
        }
    }

    /// Removes the folder of a match, if it exists. First renames it to a name that no match has,
    /// so that a kill doesn't leave part of a match.
    ///
    /// # Errors
    /// The reason why it can't be removed.
    pub fn remove(&self, folder: &str) -> io::Result<()> {
        let path = path_in(self.rt.alloc(), self.folder, folder)?;
        let gone = format!(in self.rt.alloc(); "{}.deleted", path.as_str())?;
        // A kill may have left the folder of an earlier removal, so that goes first.
        let _ = fs::remove_dir_all(self.rt, gone.as_str());
        match fs::rename(self.rt, path.as_str(), gone.as_str()) {
            Err(error) if error.kind() == ErrorKind::NotFound => return Ok(()),
            renamed => renamed?,
        }
        fs::remove_dir_all(self.rt, gone.as_str())
    }

    /// Removes the file of a slot by its name in the store, if it exists.
    ///
    /// # Errors
    /// The reason why it can't be removed.
    pub fn remove_slot(&self, name: &str) -> io::Result<()> {
        let path = path_in(self.rt.alloc(), self.folder, name)?;
        match fs::remove_file(self.rt, path.as_str()) {
            Err(error) if error.kind() == ErrorKind::NotFound => Ok(()),
            removed => removed,
        }
    }

    /// Removes what is left of the folder of a match, unless the folder has a match again.
    ///
    /// # Errors
    /// The reason why it can't be removed.
    pub fn remove_rest(&self, folder: &str) -> io::Result<()> {
        let above = path_in(self.rt.alloc(), self.folder, folder)?;
        let path = path_in(self.rt.alloc(), above.as_str(), MATCH)?;
        if fs::metadata(self.rt, path.as_str()).is_ok() {
            return Ok(());
        }
        self.remove(folder)
    }

    /// Returns whether the operator has changed a match, and the change is not taken in or not
    /// saved yet.
    ///
    /// # Errors
    /// Only `OutOfMemory`, if memory runs out.
    pub fn is_changed(&self, folder: &str) -> io::Result<bool> {
        is_changed(self.rt, self.folder, folder)
    }

    /// Returns the names of the matches that are played here, which are those with seats.
    ///
    /// # Errors
    /// The reason why the folder can't be read.
    pub fn names(&self) -> io::Result<Vec<String>> {
        let mut names = Vec::new(self.rt.alloc());
        for entry in entries_in(self.rt, self.folder)? {
            let name = entry.name.as_str();
            if is_name(name) && self.has_seats(name)? {
                names.push(entry.name)?;
            }
        }
        Ok(names)
    }

    /// Returns whether a match has seats here.
    ///
    /// # Errors
    /// The reason why that can't be told.
    pub fn has_seats(&self, folder: &str) -> io::Result<bool> {
        let above = path_in(self.rt.alloc(), self.folder, folder)?;
        let seats = path_in(self.rt.alloc(), above.as_str(), SEATS)?;
        match fs::metadata(self.rt, seats.as_str()) {
            Ok(_) => Ok(true),
            Err(error) if error.kind() == ErrorKind::NotFound => Ok(false),
            Err(error) => Err(error),
        }
    }

    /// Returns those of the named files that a match has, with the texts that the store is to have.
    ///
    /// # Errors
    /// The reason why they can't be read.
    pub fn files(&self, folder: &str, names: &[&str]) -> io::Result<Vec<File>> {
        let mut files = Vec::new(self.rt.alloc());
        for file in names.iter() {
            if let Some(text) = self.text_of(folder, file)? {
                let name = path_in(self.rt.alloc(), folder, file)?;
                let revision = 0;
                files.push(File {
                    name,
                    text,
                    revision,
                })?;
            }
        }
        Ok(files)
    }

    /// Returns all files of a match that the store is to have. Of the two slots of a party, that is
    /// the one with the newer save, so that the files of a long match fit into one transaction.
    ///
    /// # Errors
    /// The reason why they can't be read.
    pub fn all_files(&self, folder: &str) -> io::Result<Vec<File>> {
        let mut files = self.files(folder, &BESIDE_SLOTS)?;
        for slots in SLOTS.chunks(2) {
            if let Some(file) = self.newer_file(folder, slots)? {
                files.push(file)?;
            }
        }
        Ok(files)
    }

    /// Returns the file of the slot with the newer save, or the first one if neither has a save.
    fn newer_file(&self, folder: &str, slots: &[&str]) -> io::Result<Option<File>> {
        let (mut newer, mut newest) = (None, 0);
        for file in self.files(folder, slots)? {
            let save = save_in(self.rt.alloc(), &file.text)?;
            if newer.is_none() || save > newest {
                newest = save;
                newer = Some(file);
            }
        }
        Ok(newer)
    }

    /// Returns the text that the store is to have for a file; `None` if there is no such file.
    fn text_of(&self, folder: &str, file: &str) -> io::Result<Option<Vec<u8>>> {
        let alloc = self.rt.alloc();
        let above = path_in(alloc, self.folder, folder)?;
        if file == HIDDEN {
            let is_hidden = is_hidden(self.rt, above.as_str())?;
            let text = if is_hidden { YES } else { NO };
            return Ok(Some(text.as_bytes().to_vec(alloc)?));
        }
        let path = path_in(alloc, above.as_str(), file)?;
        match fs::read(self.rt, path.as_str()) {
            Err(error) if error.kind() == ErrorKind::NotFound => Ok(None),
            read => Ok(Some(read?)),
        }
    }
}

/// Returns the number of the save that a text has; 0 if it has none.
fn save_in(alloc: Global, text: &[u8]) -> io::Result<u32> {
    match load(alloc, text) {
        Ok(saved) => Ok(saved.save),
        Err(LoadFault::Memory) => Err(io::Error::from(ErrorKind::OutOfMemory)),
        Err(_) => Ok(0),
    }
}
