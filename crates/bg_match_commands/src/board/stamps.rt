//! Stamps of saved files, which tell whether these have changed.

use bg_console::slot_path;
use bg_wire::{REFEREE, Slot};
use std::alloc::{AllocError, Global};
use std::fs;
use std::os::unix::fs::MetadataExt;

/// The paths of a referee's two saved files.
#[derive(Drop)]
pub(crate) struct SavedFiles {
    pub(crate) zero: String,
    pub(crate) one: String,
}

/// A stamp of a file: its number, its size, and when it was written.
#[derive(Clone, Copy, PartialEq, Eq)]
pub(crate) struct FileStamp {
    inode: u64,
    size: u64,
    seconds: i64,
    nanoseconds: i64,
}

/// The stamps of both saved files; `None` where there is no such file.
#[derive(Clone, Copy, PartialEq, Eq)]
pub(crate) struct Stamps {
    zero: Option<FileStamp>,
    one: Option<FileStamp>,
}

impl SavedFiles {
    /// Returns the paths of the files in a match's folder.
    ///
    /// # Errors
    /// `AllocError` where memory runs out.
    pub(crate) fn of(alloc: Global, folder: &str) -> Result<SavedFiles, AllocError> {
        Ok(SavedFiles {
            zero: slot_path(alloc, folder, REFEREE, Slot::Zero)?,
            one: slot_path(alloc, folder, REFEREE, Slot::One)?,
        })
    }

    /// Returns the stamps that the files have now.
    pub(crate) fn stamps(&self, rt: &HostRuntime) -> Stamps {
        Stamps {
            zero: stamp_of(rt, self.zero.as_str()),
            one: stamp_of(rt, self.one.as_str()),
        }
    }
}

/// Returns the stamp of a file.
pub(crate) fn stamp_of(rt: &HostRuntime, path: &str) -> Option<FileStamp> {
    let found = fs::metadata(rt, path).ok()?;
    Some(FileStamp {
        inode: found.ino(),
        size: found.size(),
        seconds: found.mtime(),
        nanoseconds: found.mtime_nsec(),
    })
}
