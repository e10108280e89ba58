//! Changes that an operator makes while the server runs. Each changed match has a mark: an empty
//! file with the name of the match, in a folder of marks. Once a second the server looks there,
//! renames the marks that it finds, and reads their matches again. It removes a mark once it has
//! saved what it read. So after a kill, the next server reads the match again.

use bg_console::{entries_in, path_in};
use mio::{Events, Poll};
use std::alloc::{AllocError, Global};
use std::fs::{DirBuilder, OpenOptions};
use std::io::ErrorKind;
use std::os::unix::fs::{DirBuilderExt, OpenOptionsExt};
use std::time::Duration;
use std::{fs, io};

/// The name of the folder of marks, within the folder of all matches. No match has a name with a
/// dot.
const CHANGES: &str = ".changes";

/// The suffix of a mark whose change has been taken in. No match has a name with a dot.
const TAKEN: &str = ".taken";

/// The mode of a new folder, which only its owner can use.
const FOLDER: u32 = 0o700;

/// The mode of a new file, which only its owner can use.
const FILE: u32 = 0o600;

/// The most checks whether a change is saved.
const MOST_LOOKS: u32 = 100;

/// The milliseconds between two checks.
const BETWEEN_LOOKS: u64 = 50;

/// Returns the names of the changed matches, and notes that their changes were taken in.
///
/// # Errors
/// The reason why the marks can't be read or renamed.
pub fn take_changes(rt: &HostRuntime, tables: &str) -> io::Result<Vec<String>> {
    let folder = path_in(rt.alloc(), tables, CHANGES)?;
    let mut names: Vec<String> = Vec::new(rt.alloc());
    let entries = match entries_in(rt, folder.as_str()) {
        Err(error) if error.kind() == ErrorKind::NotFound => return Ok(names),
        entries => entries?,
    };
    for entry in &entries {
        let name = take_change(rt, folder.as_str(), entry.name.as_str())?;
        if names.iter().all(|other| other.as_str() != name.as_str()) {
            names.push(name)?;
        }
    }
    Ok(names)
}

/// Renames a mark to note that its change was taken in. Returns the name of its match.
fn take_change(rt: &HostRuntime, folder: &str, mark: &str) -> io::Result<String> {
    if let Some(name) = mark.strip_suffix(TAKEN) {
        return Ok(String::from_str(rt.alloc(), name)?);
    }
    let path = path_in(rt.alloc(), folder, mark)?;
    let taken = format!(in rt.alloc(); "{}{TAKEN}", path.as_str())?;
    fs::rename(rt, path.as_str(), taken.as_str())?;
    Ok(String::from_str(rt.alloc(), mark)?)
}

/// Forgets a change that was taken in, because what was read then is saved.
///
/// # Errors
/// The reason why the mark can't be removed. The change will then be taken in again.
pub fn forget_change(rt: &HostRuntime, tables: &str, name: &str) -> io::Result<()> {
    let taken = taken_path(rt.alloc(), tables, name)?;
    fs::remove_file(rt, taken.as_str())
}

/// Returns whether the operator has changed a match, and the change is not taken in or not saved
/// yet.
///
/// # Errors
/// Only `OutOfMemory`, if memory runs out.
pub fn is_changed(rt: &HostRuntime, tables: &str, name: &str) -> io::Result<bool> {
    let path = change_path(rt.alloc(), tables, name)?;
    let taken = taken_path(rt.alloc(), tables, name)?;
    // The server may rename the mark meanwhile, so the new name is checked last.
    Ok(is_there(rt, path.as_str()) || is_there(rt, taken.as_str()))
}

/// Returns whether a file exists.
fn is_there(rt: &HostRuntime, path: &str) -> bool {
    fs::metadata(rt, path).is_ok()
}

/// Returns the path of the mark of a match.
fn change_path(alloc: Global, tables: &str, name: &str) -> Result<String, AllocError> {
    let folder = path_in(alloc, tables, CHANGES)?;
    path_in(alloc, folder.as_str(), name)
}

/// Returns the path of the mark of a match once its change was taken in.
fn taken_path(alloc: Global, tables: &str, name: &str) -> Result<String, AllocError> {
    let path = change_path(alloc, tables, name)?;
    format!(in alloc; "{}{TAKEN}", path.as_str())
}

/// Tells a server that a match was changed, and waits at most five seconds until the server has
/// saved the change. Returns whether it has.
///
/// # Errors
/// The reason why the mark can't be made or checked.
pub fn tell_change(rt: &HostRuntime, tables: &str, name: &str) -> io::Result<bool> {
    let folder = path_in(rt.alloc(), tables, CHANGES)?;
    DirBuilder::new()
        .recursive(true)
        .mode(FOLDER)
        .create(rt, folder.as_str())?;
    let path = change_path(rt.alloc(), tables, name)?;
    let _ = OpenOptions::new()
        .write(true)
        .create(true)
        .mode(FILE)
        .open(rt, path.as_str())?;
    is_saved(rt, tables, name)
}

/// Waits at most five seconds until a change is forgotten. Returns whether it is.
fn is_saved(rt: &HostRuntime, tables: &str, name: &str) -> io::Result<bool> {
    let (mut poll, mut events) = (Poll::new(rt)?, Events::with_capacity(rt.alloc(), 1)?);
    for _ in 0..MOST_LOOKS {
        if !is_changed(rt, tables, name)? {
            return Ok(true);
        }
        poll.poll(&mut events, Some(Duration::from_millis(BETWEEN_LOOKS)))?;
    }
    Ok(false)
}
