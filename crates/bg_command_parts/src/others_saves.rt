//! The messages on a folder that has saves of the other player.

use bg_board::Player;
use bg_console::{allocated, failed_at, path_in, slot_path, wrong, wrong_at};
use bg_processes::Printable;
use bg_reports::Ending;
use bg_wire::{REFEREE, SEAT_OF_O, SEAT_OF_X, Slot, party_of};
use std::fs;
use std::io::ErrorKind;

/// The message on the folder of a referee, which a seat can't have too.
const OF_REFEREE: &str = " is the folder of the referee: give another --dir, one for each player";

/// Returns the owner of a party's saves, as a message names it.
pub(crate) fn owner_of(party: u8) -> &'static str {
    match party {
        REFEREE => "the referee",
        SEAT_OF_X => "player X",
        SEAT_OF_O => "player O",
        _ => "a watcher",
    }
}

/// Refuses for this player's seat a folder that is a referee's, or has saves of the other player. A
/// folder with saves of this player is never refused. Ends with `WrongArguments`, or with `Failed`
/// where the system can't say what is there.
pub fn check_seat_folder(rt: &HostRuntime, folder: &str, player: Player) -> Result<(), Ending> {
    let (own, other) = (party_of(player), party_of(player.opponent()));
    if has_saves(rt, folder, own)? {
        return Ok(());
    }
    if has_match(rt, folder)? {
        return Err(wrong_at(rt, folder, OF_REFEREE));
    }
    if !has_saves(rt, folder, other)? {
        return Ok(());
    }
    let (shown, own, other) = (Printable(folder), owner_of(own), owner_of(other));
    Err(wrong(
        rt,
        format_args!(
            "{shown} has saves of {other}, and none of {own}: give another --dir, one for each player"
        ),
    ))
}

/// Returns whether a folder has a match file, as that of a referee has.
fn has_match(rt: &HostRuntime, folder: &str) -> Result<bool, Ending> {
    let path = allocated(rt, path_in(rt.alloc(), folder, "match"))?;
    Ok(size_at(rt, path.as_str())?.is_some())
}

/// Returns whether one of the files of a party in a folder has a byte.
fn has_saves(rt: &HostRuntime, folder: &str, party: u8) -> Result<bool, Ending> {
    Ok(has_bytes(rt, folder, party, Slot::Zero)? || has_bytes(rt, folder, party, Slot::One)?)
}

/// Returns whether this file of a party in a folder has a byte.
fn has_bytes(rt: &HostRuntime, folder: &str, party: u8, slot: Slot) -> Result<bool, Ending> {
    let path = allocated(rt, slot_path(rt.alloc(), folder, party, slot))?;
    Ok(size_at(rt, path.as_str())?.unwrap_or_default() > 0)
}

/// Returns the number of bytes of the file at a path, which is 0 for what is no plain file, or
/// `None` where nothing is there. Ends with `Failed` where the system can't say.
fn size_at(rt: &HostRuntime, path: &str) -> Result<Option<u64>, Ending> {
    match fs::metadata(rt, path) {
        Ok(found) => Ok(Some(if found.is_file() { found.len() } else { 0 })),
        Err(error) => match error.kind() {
            ErrorKind::NotFound | ErrorKind::NotADirectory => Ok(None),
            _ => Err(failed_at(rt, path, " could not be read", &error)),
        },
    }
}
