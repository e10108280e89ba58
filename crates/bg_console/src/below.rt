//! The matches below a folder.

use crate::entries::entries_in;
use crate::paths::{not_memory, path_in, without_slashes};
use std::alloc::Global;
use std::io::ErrorKind;
use std::{fs, io};

/// Number of levels that are searched below a named folder.
const MOST_DEEP: u8 = 3;

/// The message after the name of a folder without a match.
pub const NO_MATCH: &str = " has no match, nor has a folder at most three folders deep in it";

/// What a search finds of a match.
#[derive(Drop)]
pub enum Finding {
    /// The folder of its referee.
    Match,
    /// A folder with a key file of the watchers, and no match file.
    WatchKey,
    /// A folder that can't be read, and the reason.
    Unread(io::Error),
}

/// A folder that was found, by its path: this begins with the folder that was searched.
#[derive(Drop)]
pub struct MatchBelow {
    pub path: String,
    pub finding: Finding,
}

/// Returns the folders that have a match file or a key file of the watchers, or can't be read,
/// among a folder and those up to three levels below it, sorted by path. A folder with a match file
/// is not searched, and links to folders are not followed.
///
/// # Errors
/// Only `OutOfMemory`.
pub fn matches_below(rt: &HostRuntime, folder: &str) -> io::Result<Vec<MatchBelow>> {
    let mut found = Vec::new(rt.alloc());
    let mut level = Vec::new(rt.alloc());
    level.push(String::from_str(rt.alloc(), without_slashes(folder))?)?;
    for depth in 0..=MOST_DEEP {
        level = search_level(rt, &level, depth < MOST_DEEP, &mut found)?;
    }
    found.sort_by(|one: &MatchBelow, other: &MatchBelow| one
        .path
        .as_str()
        .cmp(other.path.as_str()))?;
    Ok(found)
}

/// Appends what is found in these folders. Returns the folders in them, where these are to be
/// searched.
fn search_level(
    rt: &HostRuntime,
    level: &[String],
    is_searched: bool,
    found: &mut Vec<MatchBelow>,
) -> io::Result<Vec<String>> {
    let mut below = Vec::new(rt.alloc());
    for path in level {
        search(rt, path.as_str(), is_searched, found, &mut below)?;
    }
    Ok(below)
}

/// Appends what is found in a folder. Appends the folders in it to `below` where they are to be
/// searched.
fn search(
    rt: &HostRuntime,
    path: &str,
    is_searched: bool,
    found: &mut Vec<MatchBelow>,
    below: &mut Vec<String>,
) -> io::Result<()> {
    let finding = finding_in(rt, path)?;
    let is_searched = is_searched && matches!(finding, None | Some(Finding::WatchKey));
    put(rt.alloc(), found, path, finding)?;
    if is_searched {
        if let Err(error) = add_folders(rt, path, below) {
            let unread = Finding::Unread(not_memory(error)?);
            put(rt.alloc(), found, path, Some(unread))?;
        }
    }
    Ok(())
}

/// Appends what was found in a folder, if anything was.
fn put(
    alloc: Global,
    found: &mut Vec<MatchBelow>,
    path: &str,
    finding: Option<Finding>,
) -> io::Result<()> {
    if let Some(finding) = finding {
        let path = String::from_str(alloc, path)?;
        found.push(MatchBelow { path, finding })?;
    }
    Ok(())
}

/// Returns what is found in a folder.
fn finding_in(rt: &HostRuntime, folder: &str) -> io::Result<Option<Finding>> {
    match has_file(rt, folder, "match")? {
        Ok(true) => return Ok(Some(Finding::Match)),
        Ok(false) => {}
        Err(error) => return Ok(Some(Finding::Unread(error))),
    }
    Ok(match has_file(rt, folder, "match-watch")? {
        Ok(true) => Some(Finding::WatchKey),
        _ => None,
    })
}

/// Returns whether a folder has a file with this name, or why that can't be seen.
fn has_file(rt: &HostRuntime, folder: &str, name: &str) -> io::Result<io::Result<bool>> {
    let path = path_in(rt.alloc(), folder, name)?;
    Ok(match fs::metadata(rt, path.as_str()) {
        Ok(found) => Ok(found.is_file()),
        Err(error) => match error.kind() {
            ErrorKind::NotFound | ErrorKind::NotADirectory => Ok(false),
            _ => Err(error),
        },
    })
}

/// Appends the folders in a folder to others, except those whose names are not text.
fn add_folders(rt: &HostRuntime, path: &str, folders: &mut Vec<String>) -> io::Result<()> {
    for found in entries_in(rt, path)?.iter() {
        if found.kind.is_some_and(|kind| kind.is_dir()) {
            folders.push(path_in(rt.alloc(), path, found.name.as_str())?)?;
        }
    }
    Ok(())
}
