//! What an operator does with the matches in a folder, whether or not a server runs over it.

use crate::durable::sync;
use crate::seat_files::{random_digits, read_seats, replace_seat};
use bg_board::Player;
use bg_console::{allocated, entries_in, path_in, wrong_at};
use bg_processes::{NamedMatch, Names};
use bg_reports::Ending;
use bg_requests::is_name;
use bg_stores::{copy_match, hide, show, tell_change};
use std::fs::DirBuilder;
use std::io::ErrorKind;
use std::os::unix::fs::DirBuilderExt;
use std::{fs, io};

/// The files of which the folder of a match has at least one.
const OF_A_MATCH: [&str; 3] = ["match", "party-0.0", "party-0.1"];

/// The mode of a folder that only its owner can use.
const OWNER_ALONE: u32 = 0o700;

/// Refuses the folder of one match, since the folder of all matches is expected. Ends with
/// `WrongArguments`.
pub(crate) fn check_of_all(rt: &HostRuntime, folder: &str) -> Result<(), Ending> {
    for name in OF_A_MATCH {
        let path = allocated(rt, path_in(rt.alloc(), folder, name))?;
        if fs::metadata(rt, path.as_str()).is_ok_and(|found| found.is_file()) {
            return Err(wrong_at(
                rt,
                folder,
                " is the folder of one match: name the folder above it",
            ));
        }
    }
    Ok(())
}

/// The folder of all matches.
#[derive(Clone, Copy)]
pub(crate) struct Tables<'a> {
    pub(crate) rt: &'a HostRuntime,
    pub(crate) folder: &'a str,
    /// Whether a server runs over it.
    pub(crate) is_served: bool,
}

impl<'a> Tables<'a> {
    /// Returns the path of the folder of a match; `None` if there is no match of this name.
    pub(crate) fn path_of(&self, name: &str) -> io::Result<Option<String>> {
        if !is_name(name) {
            return Ok(None);
        }
        let path = path_in(self.rt.alloc(), self.folder, name)?;
        Ok(if has_match(self.rt, path.as_str())? {
            Some(path)
        } else {
            None
        })
    }

    /// Tells the server that a match was changed, if one runs. Returns false if the server hasn't
    /// saved the change in time.
    pub(crate) fn tell(&self, name: &str) -> io::Result<bool> {
        if self.is_served {
            tell_change(self.rt, self.folder, name)
        } else {
            Ok(true)
        }
    }

    /// Hides a match from lists, or shows it again.
    pub(crate) fn set_hidden(&self, path: &str, is_hidden: bool) -> io::Result<()> {
        if is_hidden {
            hide(self.rt, path)
        } else {
            show(self.rt, path)
        }
    }

    /// Removes the names of the players from a match.
    pub(crate) fn forget_names(&self, path: &str) -> io::Result<()> {
        let file = path_in(self.rt.alloc(), path, "match")?;
        match NamedMatch::read(self.rt, file.as_str())? {
            Some(NamedMatch { table, .. }) => {
                let names = Names::none();
                NamedMatch { table, names }.write(self.rt, path)
            }
            None => Err(io::Error::from(ErrorKind::InvalidData)),
        }
    }

    /// Gives a player's seat a new secret, and returns it; `None` if nobody may play the match
    /// here.
    pub(crate) fn renew(&self, path: &str, player: Player) -> io::Result<Option<String>> {
        let Some(seats) = read_seats(self.rt, path)? else {
            return Ok(None);
        };
        let secret = random_digits(self.rt, 16)?;
        replace_seat(self.rt, path, seats, player, secret.as_str())?;
        Ok(Some(secret))
    }

    /// Deletes a match durably. Its folder first gets a name that no match has, so that no partial
    /// match remains if the process is killed.
    pub(crate) fn delete(&self, path: &str) -> io::Result<()> {
        let gone = format!(in self.rt.alloc(); "{path}.deleted")?;
        // What is left of an earlier deletion that was interrupted by a kill is removed first.
        let _ = fs::remove_dir_all(self.rt, gone.as_str());
        fs::rename(self.rt, path, gone.as_str())?;
        sync(self.rt, self.folder)?;
        fs::remove_dir_all(self.rt, gone.as_str())
    }

    /// Makes a new folder for copies, and returns the names of the matches that are to be copied.
    pub(crate) fn begin_copies(&self, out: &str) -> io::Result<Vec<String>> {
        DirBuilder::new().mode(OWNER_ALONE).create(self.rt, out)?;
        self.names_in(self.folder)
    }

    /// Copies a match durably into the new folder of copies. Leaves nothing of it there if it can't
    /// be copied.
    pub(crate) fn copy_out(&self, out: &str, name: &str) -> io::Result<()> {
        let to = path_in(self.rt.alloc(), out, name)?;
        let copied = self.copy(self.folder, name, to.as_str());
        if copied.is_err() {
            let _ = fs::remove_dir_all(self.rt, to.as_str());
        }
        copied
    }

    /// Copies the match of this name in a folder durably into a new folder `to`.
    fn copy(&self, folder: &str, name: &str, to: &str) -> io::Result<()> {
        let from = path_in(self.rt.alloc(), folder, name)?;
        copy_match(self.rt, from.as_str(), to)
    }

    /// Returns whether a folder has a match of this name.
    pub(crate) fn is_kept_in(&self, folder: &str, name: &str) -> io::Result<bool> {
        let path = path_in(self.rt.alloc(), folder, name)?;
        Ok(is_name(name) && has_match(self.rt, path.as_str())?)
    }

    /// Copies a match back durably if it no longer exists. Returns false, and copies nothing, if it
    /// still exists.
    pub(crate) fn put_back(&self, from: &str, name: &str) -> io::Result<bool> {
        let to = path_in(self.rt.alloc(), self.folder, name)?;
        let is_gone = fs::symlink_metadata(self.rt, to.as_str()).is_err();
        if is_gone {
            self.put_at(from, name, to.as_str())?;
        }
        Ok(is_gone)
    }

    /// Copies a match durably into the new folder `to`, through one beside it.
    fn put_at(&self, from: &str, name: &str, to: &str) -> io::Result<()> {
        let beside = format!(in self.rt.alloc(); "{to}.restored")?;
        // An earlier copy that was interrupted by a kill is removed first.
        let _ = fs::remove_dir_all(self.rt, beside.as_str());
        let copied = self.copy(from, name, beside.as_str());
        if copied.is_err() {
            let _ = fs::remove_dir_all(self.rt, beside.as_str());
            return copied;
        }
        fs::rename(self.rt, beside.as_str(), to)?;
        sync(self.rt, self.folder)
    }

    /// Returns the names of the matches in a folder.
    pub(crate) fn names_in(&self, folder: &str) -> io::Result<Vec<String>> {
        let mut names = Vec::new(self.rt.alloc());
        for entry in entries_in(self.rt, folder)? {
            if self.is_kept_in(folder, entry.name.as_str())? {
                names.push(entry.name)?;
            }
        }
        Ok(names)
    }
}

/// Returns whether a folder has a match file.
fn has_match(rt: &HostRuntime, path: &str) -> io::Result<bool> {
    let file = path_in(rt.alloc(), path, "match")?;
    Ok(fs::metadata(rt, file.as_str()).is_ok())
}
