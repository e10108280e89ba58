//! Copies of whole matches, even while they are being played.

use bg_console::{entries_in, path_in};
use bg_processes::{MatchFile, read_saved};
use bg_wire::{REFEREE, SEAT_OF_O, SEAT_OF_X, restore};
use std::fs::{DirBuilder, File, OpenOptions};
use std::io::{ErrorKind, Write};
use std::os::unix::fs::{DirBuilderExt, OpenOptionsExt};
use std::{fs, io};

/// The mode of a new folder, which only its owner can use.
const FOLDER: u32 = 0o700;

/// The mode of a new file, which only its owner can use.
const FILE: u32 = 0o600;

/// How many times a match is copied at most until its copy is whole.
const MOST_COPIES: u32 = 100;

/// The parties that save, each with the names of its two slots.
const SLOTS: [(u8, &str, &str); 3] = [
    (REFEREE, "party-0.0", "party-0.1"),
    (SEAT_OF_X, "party-1.0", "party-1.1"),
    (SEAT_OF_O, "party-2.0", "party-2.1"),
];

/// Copies the folder of a match into a new folder. The match may continue meanwhile: copying is
/// repeated until the copy can be restored.
///
/// # Errors
/// The reason why the match can't be copied; `Interrupted` if no copy was whole.
pub fn copy_match(rt: &HostRuntime, from: &str, to: &str) -> io::Result<()> {
    DirBuilder::new().mode(FOLDER).create(rt, to)?;
    for _ in 0..MOST_COPIES {
        copy_files(rt, from, to)?;
        if is_whole(rt, to)? {
            return File::open(rt, to)?.sync_all();
        }
    }
    Err(io::Error::from(ErrorKind::Interrupted))
}

/// Copies the files of a folder. The slots of seats are copied before those of the referee, so that
/// the referee's copy has everything that a seat's copy has.
fn copy_files(rt: &HostRuntime, from: &str, to: &str) -> io::Result<()> {
    for entry in entries_in(rt, from)?.iter().rev() {
        let name = entry.name.as_str();
        if !name.ends_with(".new") {
            copy_file(rt, from, to, name)?;
        }
    }
    Ok(())
}

/// Copies a file.
fn copy_file(rt: &HostRuntime, from: &str, to: &str, name: &str) -> io::Result<()> {
    let bytes = fs::read(rt, path_in(rt.alloc(), from, name)?.as_str())?;
    let path = path_in(rt.alloc(), to, name)?;
    let mut file = OpenOptions::new()
        .write(true)
        .create(true)
        .truncate(true)
        .mode(FILE)
        .open(rt, path.as_str())?;
    file.write_all(&bytes)?;
    file.sync_all()
}

/// Returns whether the saves in a folder can be restored, and no seat has more entries than the
/// referee.
fn is_whole(rt: &HostRuntime, folder: &str) -> io::Result<bool> {
    let path = path_in(rt.alloc(), folder, "match")?;
    let Some(file) = MatchFile::read(rt, path.as_str())? else {
        return Ok(false);
    };
    let mut most = u32::MAX;
    for (party, zero, one) in SLOTS {
        match entries_of(rt, folder, &file, party, zero, one)? {
            Some(entries) if entries <= most => most = if party == REFEREE {
                entries
            } else {
                most
            },
            _ => return Ok(false),
        }
    }
    Ok(true)
}

/// Returns the number of entries that a party has saved; `None` if its saves can't be restored.
fn entries_of(
    rt: &HostRuntime,
    folder: &str,
    file: &MatchFile,
    party: u8,
    zero: &str,
    one: &str,
) -> io::Result<Option<u32>> {
    let zero = read_saved(rt, path_in(rt.alloc(), folder, zero)?.as_str())?;
    let one = read_saved(rt, path_in(rt.alloc(), folder, one)?.as_str())?;
    let (length, rules) = (file.terms.length, file.terms.rules);
    match restore(rt.alloc(), &zero, &one, party, file.id, length, rules) {
        Ok(Some(saved)) => Ok(Some(saved.log.len())),
        Ok(None) => Ok(Some(0)),
        Err(_) => Ok(None),
    }
}
