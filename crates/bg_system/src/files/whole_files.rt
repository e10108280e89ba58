//! Files that are complete, or not there at all.

use crate::files::slot_folders::sync_names;
use std::fmt::Display;
use std::fs::{File, OpenOptions};
use std::io::{ErrorKind, Write};
use std::os::unix::fs::OpenOptionsExt;
use std::rt::Files;
use std::{fs, io};

/// The mode of a file that only its owner reads and writes.
pub(crate) const OWNER_ALONE: u32 = 0o600;

/// The mode of a file that anybody reads.
const FOR_ALL: u32 = 0o644;

/// Creates a file in a folder that only its owner reads. It is written under another name and made
/// durable, and then takes its own name, so that no kill leaves a part of it.
///
/// # Errors
/// The system's error in the step that failed.
pub fn write_whole(
    rt: &(impl Files<File = File> + AllocGlobal),
    folder: &str,
    name: &str,
    bytes: &[u8],
) -> io::Result<()> {
    let path = format!(in rt.alloc(); "{folder}/{name}")?;
    put(rt, path.as_str(), bytes, OWNER_ALONE, true)?;
    sync_names(rt, folder)
}

/// Creates such a file with what `Display` writes of a value.
///
/// # Errors
/// Those of [`write_whole`]; `OutOfMemory` where there is no memory for the text.
pub(crate) fn write_shown<D: Display>(
    rt: &(impl Files<File = File> + AllocGlobal),
    folder: &str,
    name: &str,
    value: &D,
) -> io::Result<()> {
    let text = format!(in rt.alloc(); "{value}")?;
    write_whole(rt, folder, name, text.as_bytes())
}

/// Replaces the bytes of a published file, which others may read at any moment. They see the old
/// contents or the new ones, complete.
///
/// # Errors
/// The system's error where the file can't be written, or can't be put in its place.
pub fn publish(
    rt: &(impl Files<File = File> + AllocGlobal),
    path: &str,
    bytes: &[u8],
) -> io::Result<()> {
    put(rt, path, bytes, FOR_ALL, false)
}

/// Writes bytes into a new file beside the one at a path, and renames it to that path. Removes the
/// new file where a step fails, as the next attempt would need another name.
fn put(
    rt: &(impl Files<File = File> + AllocGlobal),
    path: &str,
    bytes: &[u8],
    mode: u32,
    lasting: bool,
) -> io::Result<()> {
    let (mut file, name) = new_file(rt, path, mode)?;
    let filled = fill(&mut file, bytes, lasting);
    drop(file);
    let renamed = match filled {
        Ok(()) => fs::rename(rt, name.as_str(), path),
        Err(error) => Err(error),
    };
    if renamed.is_err() {
        let _ = fs::remove_file(rt, name.as_str());
    }
    renamed
}

/// Writes bytes into a new file, and makes them durable where they are to last.
fn fill(file: &mut File, bytes: &[u8], lasting: bool) -> io::Result<()> {
    file.write_all(bytes)?;
    if lasting {
        file.sync_all()?;
    }
    Ok(())
}

/// Number of files that may be written for one path at once, at most. Those that a kill left behind
/// count too.
const MOST_NEW: u8 = 100;

/// The error text where there are so many of them.
const ALL_TAKEN: &str = "99 files beside it end in .new to .new98: delete them";

/// Creates a file `PATH.new`, or `PATH.new1` and so on where such files exist. It follows no link
/// that is there, and of two processes that write for the same path each has its own file.
fn new_file(
    rt: &(impl Files<File = File> + AllocGlobal),
    path: &str,
    mode: u32,
) -> io::Result<(File, String)> {
    let mut name = format!(in rt.alloc(); "{path}.new")?;
    for number in 1..MOST_NEW {
        match OpenOptions::new()
            .write(true)
            .create_new(true)
            .mode(mode)
            .open(rt, name.as_str())
        {
            Err(error) if error.kind() == ErrorKind::AlreadyExists => {}
            Err(error) => return Err(error),
            Ok(file) => return Ok((file, name)),
        }
        name = format!(in rt.alloc(); "{path}.new{number}")?;
    }
    Err(io::Error::new(ErrorKind::AlreadyExists, ALL_TAKEN))
}
