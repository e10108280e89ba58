//! The keys of files: `bg_relay/FOLDER/FILE`.

use std::alloc::{AllocError, Global};

/// The prefix of all keys.
pub(crate) const ROOT: &str = "bg_relay/";

/// The exclusive end of the range of all keys: the character after `/` is `0`.
pub(crate) const ROOT_END: &str = "bg_relay0";

/// The file that each folder has from its first change to its last.
pub(crate) const HEART: &str = "match";

/// Returns the key of a file by its name, which is `FOLDER/FILE`.
///
/// # Errors
/// `AllocError` if memory runs out, as for all functions here.
pub(crate) fn key_of(alloc: Global, name: &str) -> Result<String, AllocError> {
    let mut key = String::from_str(alloc, ROOT)?;
    key.push_str(name)?;
    Ok(key)
}

/// Returns the key of a file in a folder. An empty name gives the start of the range of all such
/// keys.
pub(crate) fn key_in(alloc: Global, folder: &str, file: &str) -> Result<String, AllocError> {
    let mut key = key_of(alloc, folder)?;
    key.push('/')?;
    key.push_str(file)?;
    Ok(key)
}

/// Returns the exclusive end of the range of the keys of all files in a folder.
pub(crate) fn end_of(alloc: Global, folder: &str) -> Result<String, AllocError> {
    let mut key = key_of(alloc, folder)?;
    key.push('0')?;
    Ok(key)
}
