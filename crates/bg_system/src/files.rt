//! Files in the folders of a match.

pub(crate) mod folder_locks;
pub(crate) mod key_digits;
pub(crate) mod key_files;
pub(crate) mod match_files;
pub(crate) mod name_lines;
pub(crate) mod named_matches;
pub(crate) mod names;
pub(crate) mod numbers;
pub(crate) mod party_files;
pub(crate) mod plain_files;
pub(crate) mod secrets;
pub(crate) mod slot_files;
pub(crate) mod slot_folders;
pub(crate) mod slot_names;
pub(crate) mod whole_files;

use crate::files::plain_files::open_plain;
use bg_wire::LONGEST_SAVED_TEXT;
use std::alloc::Global;
use std::fs::File;
use std::io;
use std::io::Read;
use std::rt::Files;

/// Number of bytes of a saved file that are read, at most: one more than the longest saved text
/// has.
const MOST_SAVED_BYTES: u64 = LONGEST_SAVED_TEXT as u64 + 1;

/// Returns the bytes of a saved file, up to the length of a saved text; none where it is missing.
///
/// # Errors
/// The system's error where the file can't be opened or read; `InvalidInput` where it isn't a plain
/// file.
pub fn read_saved(rt: &(impl Files<File = File> + AllocGlobal), path: &str) -> io::Result<Vec<u8>> {
    match open_plain(rt, path) {
        Ok(file) => saved_bytes(rt.alloc(), file),
        Err(error) if error.kind() == io::ErrorKind::NotFound => Ok(Vec::new(rt.alloc())),
        Err(error) => Err(error),
    }
}

/// Returns the bytes of an open file, up to the length of a saved text.
fn saved_bytes(alloc: Global, file: File) -> io::Result<Vec<u8>> {
    let mut bytes = Vec::new(alloc);
    file.take(MOST_SAVED_BYTES).read_to_end(&mut bytes)?;
    Ok(bytes)
}
