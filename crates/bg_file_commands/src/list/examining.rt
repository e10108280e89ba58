//! Examining the folder of a match.

use crate::list::locks::Locks;
use crate::list::saves::{Held, held_in};
use bg_console::{not_memory, path_in, slot_path};
use bg_match::Standing;
use bg_system::{MatchFile, NamedMatch, read_saved};
use bg_wire::{REFEREE, Slot};
use std::alloc::Global;
use std::os::unix::fs::MetadataExt;
use std::{fs, io};

/// Number of times that a folder is read, at most, until it is sound. A save that is being written
/// can look torn.
const MOST_READS: u8 = 3;

/// The soundness of a match's files.
#[derive(Clone, Copy, PartialEq, Eq)]
pub(crate) enum Soundness {
    /// All are sound.
    Sound,
    /// One is damaged, or of another match.
    Unsound,
    /// One can't be read.
    Unread,
}

impl Soundness {
    /// Returns the worse of the two.
    pub(crate) fn or(self, other: Soundness) -> Soundness {
        match (self, other) {
            (Soundness::Unread, _) | (_, Soundness::Unread) => Soundness::Unread,
            (Soundness::Unsound, _) | (_, Soundness::Unsound) => Soundness::Unsound,
            (Soundness::Sound, Soundness::Sound) => Soundness::Sound,
        }
    }
}

/// The listing of a folder.
#[derive(Drop)]
pub(crate) struct Listed {
    pub(crate) path: String,
    /// The contents of its match file.
    pub(crate) file: Option<NamedMatch>,
    /// The contents of its saves, or the fault of its match file.
    pub(crate) held: Held,
    /// The time of the last save, in seconds since 1970.
    pub(crate) changed: Option<u64>,
    /// Whether a process has locked the folder.
    pub(crate) is_open: bool,
}

impl Listed {
    /// Returns the listing of a folder of which only the fault is known.
    fn faulty(path: String, held: Held) -> Listed {
        Listed {
            path,
            file: None,
            held,
            changed: None,
            is_open: false,
        }
    }

    /// Returns the listing of a folder in which what has this name, or the folder itself where the
    /// name is empty, can't be read for this reason.
    ///
    /// # Errors
    /// `OutOfMemory` alone.
    pub(crate) fn unread(
        alloc: Global,
        path: String,
        name: &str,
        error: io::Error,
    ) -> io::Result<Listed> {
        Ok(Listed::faulty(path, unread(alloc, name, error)?))
    }
}

/// Returns the listing of a match's folder, which may be locked.
///
/// # Errors
/// `OutOfMemory` alone.
pub(crate) fn examine(rt: &HostRuntime, path: String, locks: &Locks) -> io::Result<Listed> {
    match match_file_in(rt, path.as_str()) {
        Ok(Some(file)) => listing_of(rt, path, file, locks),
        Ok(None) => {
            let words = String::from_str(rt.alloc(), "match is no match file")?;
            Ok(Listed::faulty(path, Held::faulty(Soundness::Unsound, words)))
        }
        Err(error) => Listed::unread(rt.alloc(), path, "match ", error),
    }
}

/// Reads the match file of a folder. Returns `None` where it isn't one.
fn match_file_in(rt: &HostRuntime, folder: &str) -> io::Result<Option<NamedMatch>> {
    let name = path_in(rt.alloc(), folder, "match")?;
    NamedMatch::read(rt, name.as_str())
}

/// Returns the result where a file can't be read, unless memory ran out.
///
/// # Errors
/// `OutOfMemory` alone.
fn unread(alloc: Global, name: &str, error: io::Error) -> io::Result<Held> {
    let error = not_memory(error)?;
    let words = format!(in alloc; "{name}could not be read: {error}")?;
    Ok(Held::faulty(Soundness::Unread, words))
}

/// Returns the listing of a folder with this match file.
fn listing_of(
    rt: &HostRuntime,
    path: String,
    file: NamedMatch,
    locks: &Locks,
) -> io::Result<Listed> {
    let held = settled(rt, path.as_str(), &file.table)?;
    let changed = change_of(rt, path.as_str())?;
    let is_open = locks.have(rt, path.as_str())?;
    Ok(Listed {
        path,
        file: Some(file),
        held,
        changed,
        is_open,
    })
}

/// Returns the standing of a match in the saves of a folder, if they hold one.
///
/// # Errors
/// `OutOfMemory` alone.
pub(crate) fn standing_in(
    rt: &HostRuntime,
    folder: &str,
    table: &MatchFile,
) -> io::Result<Option<Standing>> {
    Ok(settled(rt, folder, table)?.standing)
}

/// Returns what the saves of a folder hold, leaving out a save that is being written.
fn settled(rt: &HostRuntime, folder: &str, table: &MatchFile) -> io::Result<Held> {
    let mut held = read(rt, folder, table)?;
    for _ in 1..MOST_READS {
        if held.soundness == Soundness::Sound {
            break;
        }
        held = read(rt, folder, table)?;
    }
    Ok(held)
}

/// Returns what the saves of a folder hold.
fn read(rt: &HostRuntime, folder: &str, table: &MatchFile) -> io::Result<Held> {
    let zero = match bytes_of(rt, folder, Slot::Zero) {
        Ok(bytes) => bytes,
        Err(error) => return unread(rt.alloc(), "party-0.0 ", error),
    };
    match bytes_of(rt, folder, Slot::One) {
        Ok(one) => Ok(held_in(rt.alloc(), table, &zero, &one)?),
        Err(error) => unread(rt.alloc(), "party-0.1 ", error),
    }
}

/// Reads the bytes of one of the referee's files.
fn bytes_of(rt: &HostRuntime, folder: &str, slot: Slot) -> io::Result<Vec<u8>> {
    let path = slot_path(rt.alloc(), folder, REFEREE, slot)?;
    read_saved(rt, path.as_str())
}

/// Returns the time when the newer of the referee's files was written, in seconds since 1970.
fn change_of(rt: &HostRuntime, folder: &str) -> io::Result<Option<u64>> {
    let zero = time_of(rt, folder, Slot::Zero)?;
    let one = time_of(rt, folder, Slot::One)?;
    Ok(zero.max(one))
}

/// Returns the time when one of the referee's files was written, in seconds since 1970.
fn time_of(rt: &HostRuntime, folder: &str, slot: Slot) -> io::Result<Option<u64>> {
    let path = slot_path(rt.alloc(), folder, REFEREE, slot)?;
    match fs::metadata(rt, path.as_str()) {
        Ok(found) => Ok(u64::try_from(found.mtime()).ok()),
        Err(_) => Ok(None),
    }
}
