//! The matches beside a folder.

use crate::entries::entries_in;
use crate::messages::no_memory;
use crate::paths::path_in;
use bg_reports::Ending;
use bg_system::MatchFile;
use std::os::unix::fs::MetadataExt;
use std::path::Path;
use std::{fs, io};

/// A match in a folder beside another one.
#[derive(Drop)]
pub struct MatchBeside {
    /// The path of its match file, as short as possible.
    pub path: String,
    pub file: MatchFile,
}

/// Returns the matches in the folders beside a folder, its own among them, as far as they can be
/// read. Ends with `Failed` where there is no memory for them.
pub fn matches_beside(rt: &HostRuntime, folder: &str) -> Result<Vec<MatchBeside>, Ending> {
    match found_beside(rt, folder) {
        Ok(found) => Ok(found),
        Err(error) if error.kind() == io::ErrorKind::OutOfMemory => Err(no_memory(rt)),
        Err(_) => Ok(Vec::new(rt.alloc())),
    }
}

fn found_beside(rt: &HostRuntime, folder: &str) -> io::Result<Vec<MatchBeside>> {
    let above = folder_above(rt, folder)?;
    let listed = if above.as_str().is_empty() {
        "."
    } else {
        above.as_str()
    };
    let mut matches = Vec::new(rt.alloc());
    for found in entries_in(rt, listed)?.iter() {
        let name = path_in(rt.alloc(), found.name.as_str(), "match")?;
        let path = Path::new(above.as_str()).join(rt.alloc(), name.as_str())?;
        if let Ok(Some(file)) = MatchFile::read(rt, path.as_str()) {
            matches.push(MatchBeside {
                path: path.into_string(),
                file,
            })?;
        }
    }
    Ok(matches)
}

/// Returns the parent of a folder, which need not exist yet; the empty path is the current folder
/// of the process. The parent is taken from the path where that names it. Otherwise, as for `.` and
/// for links, the system finds it.
fn folder_above(rt: &HostRuntime, folder: &str) -> io::Result<String> {
    if let Some(named) = Path::new(folder).parent() {
        let above = format!(in rt.alloc(); "{folder}/..")?;
        if fs::metadata(rt, folder).is_err() || is_one_folder(rt, named.as_str(), above.as_str()) {
            return Ok(String::from_str(rt.alloc(), named.as_str())?);
        }
    }
    let found = fs::canonicalize(rt, folder)?;
    let above = found.parent().unwrap_or(found.as_path());
    Ok(String::from_str(rt.alloc(), above.as_str())?)
}

/// Returns whether two paths lead to one folder. An empty one leads to the current folder of the
/// process.
fn is_one_folder(rt: &HostRuntime, one: &str, other: &str) -> bool {
    let one = if one.is_empty() { "." } else { one };
    match (fs::metadata(rt, one), fs::metadata(rt, other)) {
        (Ok(one), Ok(other)) => (one.dev(), one.ino()) == (other.dev(), other.ino()),
        _ => false,
    }
}
