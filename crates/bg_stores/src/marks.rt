//! What a folder says about its match: whether lists leave it out, and when it was last saved.

use bg_console::path_in;
use std::fs::OpenOptions;
use std::io::ErrorKind;
use std::os::unix::fs::{MetadataExt, OpenOptionsExt};
use std::time::SystemTime;
use std::{fs, io};

/// The name of an empty file, which a match has if lists leave it out.
const HIDDEN: &str = "hidden";

/// The slots of the referee.
const SLOTS: [&str; 2] = ["party-0.0", "party-0.1"];

/// The mode of a file that only its owner can read and write.
const OWNER_ALONE: u32 = 0o600;

/// Returns whether lists leave out the match of a folder.
///
/// # Errors
/// `OutOfMemory` if memory runs out, as for all functions here.
pub fn is_hidden(rt: &HostRuntime, folder: &str) -> io::Result<bool> {
    let path = path_in(rt.alloc(), folder, HIDDEN)?;
    Ok(fs::metadata(rt, path.as_str()).is_ok())
}

/// Makes lists leave out the match of a folder.
///
/// # Errors
/// The reason why the file can't be written.
pub fn hide(rt: &HostRuntime, folder: &str) -> io::Result<()> {
    let path = path_in(rt.alloc(), folder, HIDDEN)?;
    let file = OpenOptions::new()
        .write(true)
        .create(true)
        .mode(OWNER_ALONE)
        .open(rt, path.as_str())?;
    file.sync_all()
}

/// Makes lists show the match of a folder again.
///
/// # Errors
/// The reason why the file can't be removed.
pub fn show(rt: &HostRuntime, folder: &str) -> io::Result<()> {
    let path = path_in(rt.alloc(), folder, HIDDEN)?;
    match fs::remove_file(rt, path.as_str()) {
        Err(error) if error.kind() == ErrorKind::NotFound => Ok(()),
        removed => removed,
    }
}

/// Returns the number of minutes since the referee of a folder last saved; 0 if it never has.
///
/// # Errors
/// The reason why the clock can't be read.
pub fn quiet_minutes(rt: &HostRuntime, folder: &str) -> io::Result<u64> {
    let mut saved = 0;
    for slot in SLOTS {
        let path = path_in(rt.alloc(), folder, slot)?;
        if let Ok(found) = fs::metadata(rt, path.as_str()) {
            saved = saved.max(u64::try_from(found.mtime()).unwrap_or(0));
        }
    }
    if saved == 0 {
        return Ok(0);
    }
    match SystemTime::now(rt)?.duration_since(SystemTime::UNIX_EPOCH) {
        Ok(now) => Ok(now.as_secs().saturating_sub(saved) / 60),
        Err(_) => Ok(0),
    }
}
