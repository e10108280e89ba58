//! The keys in a folder: a secret that they are derived from, or the key files of all parties.

use crate::handed_files::{UNREAD, key_file_of};
use crate::messages::{failed_with, wrong};
use crate::paths::file_in;
use crate::startup::check_folder_name;
use bg_reports::Ending;
use bg_system::{KeyFile, KeyFiles, MatchFile, Printable, name_of_key_file};
use bg_wire::{FIRST_WATCHER, SEAT_OF_O, SEAT_OF_X};
use std::fs;
use std::io::ErrorKind;

/// What to do with a key file of another match.
const OTHER_MATCH: &str = "put the file of this match in its place, or name another folder";

/// What to do if the system can't tell whether keys are there: nobody makes new ones then.
const UNSEEN: &str = "let the process read it: new keys would make the old ones useless";

/// Returns whether a referee's folder has a secret that its keys are derived from. Ends with
/// `Failed` where that can't be seen, or memory runs out.
pub fn has_key_secret(rt: &HostRuntime, folder: &str) -> Result<bool, Ending> {
    let path = file_in(rt, folder, "key-secret")?;
    is_there(rt, path.as_str())
}

/// Returns whether there is a file at a path. Ends with `Failed` where that can't be seen.
fn is_there(rt: &HostRuntime, path: &str) -> Result<bool, Ending> {
    match fs::symlink_metadata(rt, path) {
        Ok(_) => Ok(true),
        Err(error) if error.kind() == ErrorKind::NotFound => Ok(false),
        Err(error) => Err(failed_with(rt, path, UNREAD, &error, UNSEEN)),
    }
}

/// Returns the key files in a referee's folder without a secret of keys, or `None` if it has no key
/// files at all. Ends with `WrongArguments` where some are missing, or one is another party's or
/// another match's, and with `Failed` where one can't be read.
pub fn key_files_of(
    rt: &HostRuntime,
    folder: &str,
    table: &MatchFile,
) -> Result<Option<KeyFiles>, Ending> {
    let x = found_in(rt, folder, table, SEAT_OF_X)?;
    let o = found_in(rt, folder, table, SEAT_OF_O)?;
    let watchers = found_in(rt, folder, table, FIRST_WATCHER)?;
    match (x, o, watchers) {
        (Some(x), Some(o), Some(watchers)) => Ok(Some(KeyFiles { x, o, watchers })),
        (None, None, None) => Ok(None),
        (None, _, _) => Err(lacks(rt, folder, SEAT_OF_X)),
        (_, None, _) => Err(lacks(rt, folder, SEAT_OF_O)),
        (_, _, None) => Err(lacks(rt, folder, FIRST_WATCHER)),
    }
}

/// Returns the key files of a match in a folder to which they were all copied. Ends with
/// `WrongArguments` where the folder has no name, or one is another party's or another match's, and
/// with `Failed` where one can't be read.
pub fn key_files_in(rt: &HostRuntime, folder: &str, table: &MatchFile) -> Result<KeyFiles, Ending> {
    check_folder_name(rt, folder)?;
    Ok(KeyFiles {
        x: key_file_in(rt, folder, table, SEAT_OF_X)?,
        o: key_file_in(rt, folder, table, SEAT_OF_O)?,
        watchers: key_file_in(rt, folder, table, FIRST_WATCHER)?,
    })
}

/// Returns the key file of a party of this match in a folder.
fn key_file_in(
    rt: &HostRuntime,
    folder: &str,
    table: &MatchFile,
    party: u8,
) -> Result<KeyFile, Ending> {
    let path = file_in(rt, folder, name_of_key_file(party))?;
    let file = key_file_of(rt, path.as_str(), party)?;
    if file.table == *table {
        return Ok(file);
    }
    let (shown, id) = (Printable(path.as_str()), table.id);
    Err(wrong(
        rt,
        format_args!(
            "{shown} is not of match {id}, or has another length, other rules or another port: {OTHER_MATCH}"
        ),
    ))
}

/// Returns the key file of a party of this match in a folder, or `None` if it is missing.
fn found_in(
    rt: &HostRuntime,
    folder: &str,
    table: &MatchFile,
    party: u8,
) -> Result<Option<KeyFile>, Ending> {
    let path = file_in(rt, folder, name_of_key_file(party))?;
    if !is_there(rt, path.as_str())? {
        return Ok(None);
    }
    Ok(Some(key_file_in(rt, folder, table, party)?))
}

/// Reports that a folder without a secret of keys lacks the key file of a party, and what to do.
fn lacks(rt: &HostRuntime, folder: &str, party: u8) -> Ending {
    let (shown, name) = (Printable(folder), name_of_key_file(party));
    wrong(
        rt,
        format_args!(
            "{shown} has neither `key-secret` nor `{name}`: put a copy of `{name}` there, or remove the other key files, and `bg_relay keys --dir {shown}` makes new ones"
        ),
    )
}
