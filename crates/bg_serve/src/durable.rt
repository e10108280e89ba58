//! Reading files, and writing them durably.

use bg_console::path_in;
use std::fs::{File, OpenOptions};
use std::io::{ErrorKind, Write};
use std::os::unix::fs::OpenOptionsExt;
use std::{fs, io};

/// The mode of a file that only its owner can read and write.
pub(crate) const OWNER_ALONE: u32 = 0o600;

/// Returns the text of a file of a folder; `None` if there is no such file.
///
/// # Errors
/// The reason why it can't be read; `InvalidData` if it isn't text.
pub(crate) fn read_text(rt: &HostRuntime, folder: &str, name: &str) -> io::Result<Option<String>> {
    let path = path_in(rt.alloc(), folder, name)?;
    match fs::read_to_string(rt, path.as_str()) {
        Ok(text) => Ok(Some(text)),
        Err(error) if error.kind() == ErrorKind::NotFound => Ok(None),
        Err(error) => Err(error),
    }
}

/// Makes a file durable, or the entries of a folder.
///
/// # Errors
/// The reason why it can't be opened or synced.
pub(crate) fn sync(rt: &HostRuntime, path: &str) -> io::Result<()> {
    File::open(rt, path)?.sync_all()
}

/// Writes a file that only its owner can read and write, and makes it durable.
///
/// # Errors
/// The reason why it can't be written.
pub(crate) fn write_through(rt: &HostRuntime, path: &str, bytes: &[u8]) -> io::Result<()> {
    let mut file = OpenOptions::new()
        .write(true)
        .create(true)
        .truncate(true)
        .mode(OWNER_ALONE)
        .open(rt, path)?;
    file.write_all(bytes)?;
    file.sync_all()
}

/// Replaces a file of a folder atomically, and makes that durable. Only the owner can read and
/// write the new file.
///
/// # Errors
/// The reason why it can't be replaced.
pub(crate) fn replace_file(
    rt: &HostRuntime,
    folder: &str,
    name: &str,
    text: &str,
) -> io::Result<()> {
    let path = path_in(rt.alloc(), folder, name)?;
    let beside = format!(in rt.alloc(); "{}.new", path.as_str())?;
    write_through(rt, beside.as_str(), text.as_bytes())?;
    fs::rename(rt, beside.as_str(), path.as_str())?;
    sync(rt, folder)
}
