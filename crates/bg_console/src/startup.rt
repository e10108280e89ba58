//! The start of the commands that run one party, and the reasons why they don't start or end early.

use crate::messages::says::say_of;
use crate::messages::{failed, failed_or, failed_with, wrong, wrong_at, wrong_for};
use crate::paths::file_in;
use bg_reports::Ending;
use bg_system::{FolderLock, Printable, Ticking, Waiting};
use std::fs::{DirBuilder, File, TryLockError};
use std::io::ErrorKind;
use std::os::fd::RawFd;
use std::os::unix::fs::{DirBuilderExt, MetadataExt};
use std::path::Path;
use std::{fs, io};

/// The messages on a folder that can't be locked, made or used, with what to do.
const NO_LOCK: &str = "its file system locks no folder: use a folder on a disk of this machine";

const NOT_MADE: &str = " can't be made: give another --dir, or the right to make it there";

const NOT_USED: &str = " can't be used: name another folder, or give the right to enter it";

/// The message on a socket that can't be waited for, and what to do.
const NOT_WAITED: &str = "the socket can't be waited for";

const MORE_FILES: &str = "; allow it more open files (`ulimit -n`), and start it again";

/// Locks a folder, and returns the lock. Ends with `Failed` where another process plays over it, or
/// it can't be locked.
pub fn lock_of(rt: &HostRuntime, folder: &str) -> Result<FolderLock, Ending> {
    match FolderLock::take(rt, folder) {
        Ok(lock) => Ok(lock),
        Err(TryLockError::WouldBlock) => {
            let shown = Printable(folder);
            Err(failed(
                rt,
                format_args!(
                    "another process plays over {shown}: end it first; `fuser {shown}` names it"
                ),
            ))
        }
        Err(TryLockError::Error(error)) => {
            Err(failed_with(rt, folder, " could not be locked", &error, NO_LOCK))
        }
    }
}

/// The mode of a folder that only its owner reads, writes and enters, whatever the umask.
const OWNER_ALONE: u32 = 0o700;

/// Creates a folder for its owner alone where there is none, with its parents, and locks it. The
/// names of new folders last through a cut of the power, where the system lets the folders above be
/// opened. Returns the lock. Warns where an existing folder is open to others. Ends with
/// `WrongArguments` where there is none and none can be created, and otherwise as [`lock_of`].
pub fn own_folder(rt: &HostRuntime, folder: &str) -> Result<FolderLock, Ending> {
    let missing = missing_folders(rt, folder);
    let made = DirBuilder::new()
        .recursive(true)
        .mode(OWNER_ALONE)
        .create(rt, folder);
    match made {
        Err(error) if error.kind() != ErrorKind::AlreadyExists => {
            return Err(wrong_for(rt, folder, NOT_MADE, &error));
        }
        // An empty path creates nothing.
        _ => check_folder(rt, folder, " is no folder: give another --dir")?,
    }
    sync_above(rt, folder, missing);
    let lock = lock_of(rt, folder)?;
    tell_if_open(rt, folder);
    Ok(lock)
}

/// Returns how many folders are missing at a path: the folder, and those above it.
fn missing_folders(rt: &HostRuntime, folder: &str) -> usize {
    let mut missing = 0usize;
    for path in Path::new(folder).ancestors() {
        if path.as_str().is_empty() || fs::metadata(rt, path.as_str()).is_ok() {
            break;
        }
        missing = missing.saturating_add(1);
    }
    missing
}

/// Syncs so many folders above a folder, the nearest first.
fn sync_above(rt: &HostRuntime, folder: &str, count: usize) {
    for above in Path::new(folder).ancestors().skip(1).take(count) {
        let above = match above.as_str() {
            "" => ".",
            named => named,
        };
        if let Ok(opened) = File::open(rt, above) {
            let _ = opened.sync_all();
        }
    }
}

/// The bits of a mode by which others than the owner may read, write or enter.
const OTHERS: u32 = 0o077;

/// Warns where a folder is open to others than its owner.
pub fn tell_if_open(rt: &HostRuntime, folder: &str) {
    if let Ok(found) = fs::metadata(rt, folder) {
        if found.mode() & OTHERS != 0 {
            say_of(rt, folder, " is open to other users: `chmod 700` closes it");
        }
    }
}

/// Refuses an empty name of a folder. Ends with `WrongArguments`.
pub fn check_folder_name(rt: &HostRuntime, folder: &str) -> Result<(), Ending> {
    if folder.is_empty() {
        return Err(wrong(rt, "the name of a folder is empty"));
    }
    Ok(())
}

/// Refuses what isn't a folder or is missing, with these words after its name. Ends with
/// `WrongArguments`, also where the system can't look at it.
pub fn check_folder(rt: &HostRuntime, folder: &str, words: &str) -> Result<(), Ending> {
    check_folder_name(rt, folder)?;
    match fs::metadata(rt, folder) {
        Ok(found) if found.is_dir() => Ok(()),
        Err(error) if error.kind() != ErrorKind::NotFound => {
            Err(wrong_for(rt, folder, NOT_USED, &error))
        }
        _ => Err(wrong_at(rt, folder, words)),
    }
}

/// The name of the folder that is created and removed again, to see whether a folder can be written
/// to. If a killed process has left one, the next process removes it.
const TRIAL: &str = ".bg_relay-trial";

/// Refuses a folder in which the process may create nothing, since nothing could be saved there.
/// Ends with `WrongArguments`.
pub fn check_writable(rt: &HostRuntime, folder: &str) -> Result<(), Ending> {
    let trial = file_in(rt, folder, TRIAL)?;
    // Where one is left, creating it fails for that reason alone.
    check_allowed(rt, folder, fs::remove_dir(rt, trial.as_str()))?;
    let made = DirBuilder::new()
        .mode(OWNER_ALONE)
        .create(rt, trial.as_str());
    check_allowed(rt, folder, made)?;
    let _ = fs::remove_dir(rt, trial.as_str());
    Ok(())
}

/// Refuses a folder where the process may not do what it has tried. Other reasons, such as a full
/// disk, may pass; a failed save is reported.
fn check_allowed(rt: &HostRuntime, folder: &str, attempt: io::Result<()>) -> Result<(), Ending> {
    match attempt {
        Err(error)
            if matches!(
                error.kind(),
                ErrorKind::PermissionDenied | ErrorKind::ReadOnlyFilesystem
            ) => {
            Err(wrong_for(
                rt,
                folder,
                " can't be written to: give another --dir, or the right to write there",
                &error,
            ))
        }
        _ => Ok(()),
    }
}

/// Returns the wait for a party's socket, and for standard input if `with_input` is set, and the
/// party's ticks. Ends with `Failed` where the socket can't be waited for.
pub fn waiting_for(
    rt: &HostRuntime,
    socket: RawFd,
    with_input: bool,
) -> Result<(Waiting, Ticking), Ending> {
    let waiting = waited(rt, Waiting::new(rt, socket, with_input))?;
    let ticking = waited(rt, Ticking::new(rt))?;
    Ok((waiting, ticking))
}

/// Returns the result of waiting. Ends with `Failed`, and reports why, where the socket can't be
/// waited for.
pub fn waited<T>(rt: &HostRuntime, attempt: io::Result<T>) -> Result<T, Ending> {
    match attempt {
        Ok(next) => Ok(next),
        Err(error) => Err(failed_or(rt, NOT_WAITED, &error, MORE_FILES)),
    }
}
