//! The file in a match's folder that says what was published about its dice before the first roll.

use crate::secrets::{Digest, bytes_of};
use crate::texts::told_text;
use std::fs::{File, OpenOptions};
use std::io::{ErrorKind, Write};
use std::os::unix::fs::OpenOptionsExt;
use std::rt::Files;
use std::{fs, io};

/// The name of the file.
const NAME: &str = "dice";

/// The mode of a file that only its owner can read and write.
const OWNER_ALONE: u32 = 0o600;

/// Writes the SHA-256 of the secret of a match's dice into its folder, and syncs it. The file is
/// written under another name and then renamed, so that a kill never leaves part of it.
///
/// # Errors
/// The system's error if the file can't be written.
pub fn write_digest(
    rt: &(impl Files<File = File> + AllocGlobal),
    folder: &str,
    digest: &Digest,
) -> io::Result<()> {
    let path = format!(in rt.alloc(); "{folder}/{NAME}")?;
    let beside = format!(in rt.alloc(); "{folder}/{NAME}.new")?;
    let text = told_text(rt.alloc(), Some(digest), None)?;
    write_through(rt, beside.as_str(), &text)?;
    fs::rename(rt, beside.as_str(), path.as_str())?;
    File::open(rt, folder)?.sync_all()
}

/// Writes a file, and syncs it.
fn write_through(rt: &impl Files<File = File>, path: &str, bytes: &[u8]) -> io::Result<()> {
    let mut file = OpenOptions::new()
        .write(true)
        .create(true)
        .truncate(true)
        .mode(OWNER_ALONE)
        .open(rt, path)?;
    file.write_all(bytes)?;
    file.sync_all()
}

/// Reads the SHA-256 that was published before the first roll of a match. Returns `None` if nothing
/// was published, as with older versions.
///
/// # Errors
/// The system's error if the file can't be read; `InvalidData` if the file has something else.
pub fn read_digest(
    rt: &(impl Files<File = File> + AllocGlobal),
    folder: &str,
) -> io::Result<Option<Digest>> {
    let path = format!(in rt.alloc(); "{folder}/{NAME}")?;
    let text = match fs::read_to_string(rt, path.as_str()) {
        Err(error) if error.kind() == ErrorKind::NotFound => return Ok(None),
        read => read?,
    };
    match digest_in(text.as_str()) {
        Some(digest) => Ok(Some(digest)),
        None => Err(io::Error::from(ErrorKind::InvalidData)),
    }
}

/// Returns the digest in a line `sha256 DIGITS`.
fn digest_in(text: &str) -> Option<Digest> {
    bytes_of(text.strip_prefix("sha256 ")?.strip_suffix('\n')?)
}
