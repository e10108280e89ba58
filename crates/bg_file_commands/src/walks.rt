//! The files below a folder.

use bg_console::{entries_in, not_memory, path_in, without_slashes};
use std::alloc::Global;
use std::io::ErrorKind;
use std::rt::Files;
use std::{fs, io};

/// Number of folders that a file may stand in below the one that is named, at most.
const MOST_DEEP: u8 = 40;

/// A file, or a folder that can't be read.
#[derive(Drop)]
pub(crate) struct Place {
    pub(crate) path: String,
    /// The reason why a folder can't be read.
    pub(crate) fault: Option<io::Error>,
}

/// Returns whether a path is that of a folder.
pub(crate) fn is_folder(rt: &HostRuntime, path: &str) -> bool {
    fs::metadata(rt, path).is_ok_and(|found| found.is_dir())
}

/// Returns the files in a folder and below it, sorted by their paths, and the folders that can't be
/// read. Links to folders are not followed. Files and folders whose names begin with a dot are left
/// out, and so are those whose names are not text, and what is neither file nor folder, as a pipe.
///
/// # Errors
/// `OutOfMemory` alone.
pub(crate) fn files_below(rt: &HostRuntime, folder: &str) -> io::Result<Vec<Place>> {
    let mut places = Vec::new(rt.alloc());
    add_files(rt, folder, &mut places)?;
    places.sort_by(|one: &Place, other: &Place| one.path.as_str().cmp(other.path.as_str()))?;
    Ok(places)
}

/// Appends the files in a folder and below it, and the folders that can't be read.
fn add_files(rt: &HostRuntime, folder: &str, places: &mut Vec<Place>) -> io::Result<()> {
    let mut level = Vec::new(rt.alloc());
    level.push(String::from_str(rt.alloc(), without_slashes(folder))?)?;
    for _ in 0..MOST_DEEP {
        level = add_level(rt, &level, places)?;
    }
    for path in &level {
        let fault = io::Error::from(ErrorKind::FilesystemLoop);
        add_unread(rt.alloc(), places, path.as_str(), fault)?;
    }
    Ok(())
}

/// Appends the files in these folders, and those of them that can't be read. Returns the folders in
/// them.
fn add_level(
    rt: &HostRuntime,
    level: &[String],
    places: &mut Vec<Place>,
) -> io::Result<Vec<String>> {
    let mut below = Vec::new(rt.alloc());
    for path in level {
        if let Err(error) = add_content(rt, path.as_str(), places, &mut below) {
            add_unread(rt.alloc(), places, path.as_str(), error)?;
        }
    }
    Ok(below)
}

/// Appends a folder that can't be read.
fn add_unread(
    alloc: Global,
    places: &mut Vec<Place>,
    path: &str,
    error: io::Error,
) -> io::Result<()> {
    let fault = Some(not_memory(error)?);
    let path = String::from_str(alloc, path)?;
    Ok(places.push(Place { path, fault })?)
}

/// Appends the files in a folder, and the folders in it.
fn add_content(
    rt: &HostRuntime,
    folder: &str,
    files: &mut Vec<Place>,
    folders: &mut Vec<String>,
) -> io::Result<()> {
    for found in entries_in(rt, folder)?.iter() {
        let Some(kind) = found.kind else {
            continue;
        };
        if found.name.as_str().starts_with('.') {
            continue;
        }
        let path = path_in(rt.alloc(), folder, found.name.as_str())?;
        if kind.is_dir() {
            folders.push(path)?;
        } else if kind.is_file() || kind.is_symlink() && leads_to_file(rt, path.as_str()) {
            files.push(Place { path, fault: None })?;
        }
    }
    Ok(())
}

/// Returns whether a link leads to a file, or nowhere.
fn leads_to_file(rt: &HostRuntime, path: &str) -> bool {
    match fs::metadata(rt, path) {
        Ok(found) => found.is_file(),
        Err(_) => true,
    }
}
