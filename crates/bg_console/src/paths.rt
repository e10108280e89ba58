//! The paths of files and folders.

use crate::messages::allocated;
use bg_reports::Ending;
use bg_system::SlotName;
use bg_wire::Slot;
use std::alloc::{AllocError, Global};
use std::io;
use std::io::ErrorKind;

/// Returns the path of a file with this name in a folder. A slash at the end of the folder's name
/// is not doubled.
///
/// # Errors
/// `AllocError` where memory runs out.
pub fn path_in(alloc: Global, folder: &str, name: &str) -> Result<String, AllocError> {
    let slash = if folder.ends_with('/') { "" } else { "/" };
    format!(in alloc; "{folder}{slash}{name}")
}

/// Returns the path of a file with this name in a folder, behind the folder's name as it is. Ends
/// with `Failed` where memory runs out.
pub(crate) fn file_in(rt: &HostRuntime, folder: &str, name: &str) -> Result<String, Ending> {
    allocated(rt, format!(in rt.alloc(); "{folder}/{name}"))
}

/// Returns the path of a party's file in a folder.
///
/// # Errors
/// `AllocError` where memory runs out.
pub fn slot_path(alloc: Global, folder: &str, party: u8, slot: Slot) -> Result<String, AllocError> {
    let name = SlotName { party, slot };
    format!(in alloc; "{folder}/{name}")
}

/// Returns the name of a folder without the slashes at its end; that of the root stays `/`.
pub fn without_slashes(folder: &str) -> &str {
    let name = folder.trim_end_matches('/');
    if name.is_empty() { "/" } else { name }
}

/// Returns the folder of the file with this path: `.` if the path has no slash.
pub fn folder_of(path: &str) -> &str {
    match path.rsplit_once('/') {
        Some(("", _)) => "/",
        Some((folder, _)) => folder,
        None => ".",
    }
}

/// Returns the error, unless it is lack of memory.
///
/// # Errors
/// Only `OutOfMemory`.
pub fn not_memory(error: io::Error) -> io::Result<io::Error> {
    match error.kind() {
        ErrorKind::OutOfMemory => Err(error),
        _ => Ok(error),
    }
}
