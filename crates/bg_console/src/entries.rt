//! The entries of a folder.

use std::fs::FileType;
use std::io::ErrorKind;
use std::{fs, io};

/// An entry of a folder.
#[derive(Drop)]
pub struct FolderEntry {
    pub name: String,
    /// What it is; of a link this says that it is one. `None` if the system can't tell.
    pub kind: Option<FileType>,
}

/// Returns the entries of a folder, sorted by name, except those whose names are not text.
///
/// # Errors
/// The reason why the folder can't be read; `OutOfMemory` if memory runs out.
pub fn entries_in(rt: &HostRuntime, folder: &str) -> io::Result<Vec<FolderEntry>> {
    let mut entries = Vec::new(rt.alloc());
    for found in fs::read_dir(rt, folder)? {
        match found {
            Ok(found) => entries.push(FolderEntry {
                name: String::from_str(rt.alloc(), found.file_name())?,
                kind: found.file_type().ok(),
            })?,
            Err(error) if error.kind() == ErrorKind::InvalidFilename => {}
            Err(error) => return Err(error),
        }
    }
    entries.sort_by(|one: &FolderEntry, other: &FolderEntry| one
        .name
        .as_str()
        .cmp(other.name.as_str()))?;
    Ok(entries)
}
