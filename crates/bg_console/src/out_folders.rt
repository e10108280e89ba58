//! The folders that files are written into, and the files that are replaced.

use crate::handed_files::NO_NAME;
use crate::messages::{wrong, wrong_at, wrong_for};
use crate::startup::check_folder_name;
use bg_reports::Ending;
use std::fs;
use std::io::ErrorKind;

/// The message on a folder that can't be used.
const NOT_USED: &str = " can't be used: name another folder, or give the right to enter it";

/// Refuses what isn't a folder, is missing or has no name, and says what to do. Ends with
/// `WrongArguments`.
pub fn check_out_folder(rt: &HostRuntime, folder: &str) -> Result<(), Ending> {
    check_folder_name(rt, folder)?;
    match fs::metadata(rt, folder) {
        Ok(found) if found.is_dir() => Ok(()),
        Ok(_) => Err(wrong_at(rt, folder, " is no folder: name another one")),
        Err(error) if error.kind() == ErrorKind::NotFound => {
            Err(wrong_at(rt, folder, " is missing: make it first"))
        }
        Err(error) => Err(wrong_for(rt, folder, NOT_USED, &error)),
    }
}

/// Refuses an empty path, and what is there and is no regular file, such as a device, since writing
/// a file replaces what is at its path. Ends with `WrongArguments`.
pub fn check_out_file(rt: &HostRuntime, path: &str) -> Result<(), Ending> {
    if path.is_empty() {
        return Err(wrong(rt, NO_NAME));
    }
    match fs::metadata(rt, path) {
        Ok(found) if !found.is_file() => {
            Err(wrong_at(rt, path, " is no regular file: name another one"))
        }
        _ => Ok(()),
    }
}
