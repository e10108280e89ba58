//! Opening files only where they are plain ones.

use std::fs::File;
use std::io::ErrorKind;
use std::rt::Files;
use std::{fs, io};

/// Opens a plain file for reading.
///
/// # Errors
/// The system's error where it can't be opened; `InvalidInput` where it is something else, such as
/// a pipe, whose opening would block.
pub(crate) fn open_plain(rt: &impl Files<File = File>, path: &str) -> io::Result<File> {
    check_plain(rt, path)?;
    File::open(rt, path)
}

/// Refuses what isn't a plain file, before it is opened.
///
/// # Errors
/// `InvalidInput` where something else is at the path; otherwise the system's error in looking at
/// it.
pub(crate) fn check_plain(rt: &impl Files<File = File>, path: &str) -> io::Result<()> {
    if fs::metadata(rt, path)?.is_file() {
        return Ok(());
    }
    Err(io::Error::new(ErrorKind::InvalidInput, "it is no plain file"))
}
