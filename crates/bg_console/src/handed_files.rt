//! The match files and key files that commands are given, and the reasons why they are refused.

use crate::messages::{allocated, failed_with, wrong, wrong_at};
use crate::paths::path_in;
use bg_board::Player;
use bg_reports::Ending;
use bg_system::{KeyFile, MatchFile, NamedMatch, Printable, name_of_key_file};
use bg_wire::{SEAT_OF_O, SEAT_OF_X, party_of};
use std::{fs, io};

/// The message on an empty path.
pub(crate) const NO_NAME: &str = "the name of a file is empty";

/// The message on a file that can't be read.
pub(crate) const UNREAD: &str = " could not be read";

/// The message on a key file of the watchers, where a seat's is asked for.
const OF_NO_SEAT: &str =
    " is the key file of the watchers: for a player it is `match-x` or `match-o`";

/// The messages on a file that is no match file, and on one that is no key file.
const NO_MATCH_FILE: &str =
    " is no match file: any key file of the match, without its last line, is one";

const NO_KEY_FILE: &str =
    " is no key file: name the one that `bg_relay new` made for this party, or a copy of it";

/// What to do if a file can't be read: the match file of a referee, any file of the match that was
/// handed out, or the key file of a party.
const OF_REFEREE: &str =
    "name the folder that `bg_relay new` made; if its file `match` is lost, any key file of the match, without its last line, is one";

const HANDED: &str = "name a key file of the match, or a copy of one";

const KEY_REMEDY: &str =
    "name the key file that `bg_relay new` made for this party, or a copy of it";

/// The message on a folder where a key file is asked for.
const A_FOLDER: &str =
    " is a folder: name the key file in it, `match-x`, `match-o` or `match-watch`";

/// The file that the folder of a match has if `serve` has made it, and the message on such a folder.
const OF_SERVER: &str = "seats";

const SERVED: &str =
    " is the folder of a match of `bg_relay serve`, which runs its referee: play it in a browser, or name another folder";

/// Reads the match file in a referee's folder. Refuses the folder of a match that is served: its
/// server takes no lock there, so a referee beside it would overwrite what it saves. Ends with
/// `WrongArguments` for such a folder, and otherwise as [`match_of`].
pub fn match_in(rt: &HostRuntime, folder: &str) -> Result<NamedMatch, Ending> {
    let seats = allocated(rt, path_in(rt.alloc(), folder, OF_SERVER))?;
    if fs::symlink_metadata(rt, seats.as_str()).is_ok() {
        return Err(wrong_at(rt, folder, SERVED));
    }
    let path = allocated(rt, path_in(rt.alloc(), folder, "match"))?;
    match_of(rt, path.as_str())
}

/// Reads the match file at a path in a referee's folder. Ends with `WrongArguments` where it isn't
/// one, and with `Failed` where it can't be read.
pub fn match_of(rt: &HostRuntime, path: &str) -> Result<NamedMatch, Ending> {
    match_or(rt, path, OF_REFEREE)
}

/// Reads the match file at a path. Reports this remedy if it can't be read.
fn match_or(rt: &HostRuntime, path: &str, remedy: &str) -> Result<NamedMatch, Ending> {
    match NamedMatch::read(rt, path) {
        Ok(Some(file)) => Ok(file),
        Err(_) if path.is_empty() => Err(wrong(rt, NO_NAME)),
        Ok(None) => Err(wrong_at(rt, path, NO_MATCH_FILE)),
        Err(error) => Err(failed_with(rt, path, UNREAD, &error, remedy)),
    }
}

/// Reads the key file of a party at a path: 1, 2, or 3 for all watchers. Ends with `WrongArguments`
/// where it is another party's or isn't one, and with `Failed` where it can't be read.
pub fn key_file_of(rt: &HostRuntime, path: &str, party: u8) -> Result<KeyFile, Ending> {
    let file = read_key_file(rt, path)?;
    if file.party == party {
        return Ok(file);
    }
    let (shown, theirs, own) = (Printable(path), holder(file.party), holder(party));
    let own_name = name_of_key_file(party);
    Err(wrong(
        rt,
        format_args!("{shown} is the key file of {theirs}: for {own} it is `{own_name}`"),
    ))
}

/// Reads the key file of any party at a path. Ends with `WrongArguments` where it isn't one, and
/// with `Failed` where it can't be read.
fn read_key_file(rt: &HostRuntime, path: &str) -> Result<KeyFile, Ending> {
    match KeyFile::read(rt, path) {
        Ok(Some(file)) => Ok(file),
        Ok(None) => Err(no_key_file(rt, path)),
        Err(error) => Err(unread_key(rt, path, &error)),
    }
}

/// Reads the key file of a seat at a path: that of this player, or of either player if it is
/// `None`. Returns its player too. Ends with `WrongArguments` where it is another party's or isn't
/// one, and with `Failed` where it can't be read.
pub fn seat_key_file_of(
    rt: &HostRuntime,
    path: &str,
    player: Option<Player>,
) -> Result<(Player, KeyFile), Ending> {
    if let Some(player) = player {
        return Ok((player, key_file_of(rt, path, party_of(player))?));
    }
    let file = read_key_file(rt, path)?;
    match file.party {
        SEAT_OF_X => Ok((Player::X, file)),
        SEAT_OF_O => Ok((Player::O, file)),
        _ => Err(wrong_at(rt, path, OF_NO_SEAT)),
    }
}

/// Reads the match, with its names, from any key file or match file at a path. Ends with
/// `WrongArguments` where it is neither, and with `Failed` where it can't be read.
pub fn table_of(rt: &HostRuntime, path: &str) -> Result<NamedMatch, Ending> {
    match KeyFile::read(rt, path) {
        Ok(Some(file)) => Ok(file.named_match()),
        _ => match_or(rt, path, HANDED),
    }
}

/// Reports that a key file can't be read, and why; or that it is a folder or has no name.
fn unread_key(rt: &HostRuntime, path: &str, error: &io::Error) -> Ending {
    if path.is_empty() {
        return wrong(rt, NO_NAME);
    }
    match fs::metadata(rt, path) {
        Ok(found) if found.is_dir() => wrong_at(rt, path, A_FOLDER),
        _ => failed_with(rt, path, UNREAD, error, KEY_REMEDY),
    }
}

/// Returns the holder of the key file with this number.
fn holder(party: u8) -> &'static str {
    match party {
        SEAT_OF_X => "player X",
        SEAT_OF_O => "player O",
        _ => "the watchers",
    }
}

/// Reports what is wrong with a file that is not a key file. For a match file without a key, such
/// as older programs made and the referee has, it says so.
fn no_key_file(rt: &HostRuntime, path: &str) -> Ending {
    if let Ok(Some(_)) = MatchFile::read(rt, path) {
        return wrong_at(
            rt,
            path,
            " has no key: hand out `match-x`, `match-o` and `match-watch`, which `bg_relay keys` makes where they are missing",
        );
    }
    wrong_at(rt, path, NO_KEY_FILE)
}
