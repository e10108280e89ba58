//! The folders of matches. Each lies in the folder that is served, and has the usual files of a
//! match.

use crate::save_counts::SaveCounts;
use crate::seat_files::read_seats;
use crate::served_files::ServedFiles;
use crate::served_keepers::ServedKeeper;
use crate::unserved::{Part, Unserved, used};
use bg_console::{FolderEntry, entries_in, path_in};
use bg_dice::{digest_of, read_digest};
use bg_match::{Record, Terms};
use bg_processes::{Failures, FolderLock, NamedMatch, Names, read_secret};
use bg_site::{Changed, Found, Made, Saves, Seats, Store};
use bg_stores::{TurnSaves, TurnSlots, forget_change, is_hidden, quiet_minutes, take_changes};
use bg_wire::{REFEREE, SEAT_OF_O, SEAT_OF_X};
use bg_world::Keepers;
use std::alloc::AllocError;
use std::fs::TryLockError;
use std::io;
use std::io::ErrorKind;
use std::rc::Rc;

/// The folder of all matches.
#[derive(Drop)]
pub struct FolderStore<'a> {
    pub(crate) rt: &'a HostRuntime,
    pub(crate) folder: &'a str,
    failures: &'a Failures,
    counts: Rc<SaveCounts>,
    /// Whether the last match could not be made.
    pub(crate) is_unmade: bool,
    /// The place where the saves of a turn are gathered, if there is a database or a store.
    pub(crate) turn: Option<Rc<TurnSaves>>,
}

impl<'a> FolderStore<'a> {
    /// Returns the store of the matches in a folder. Its keepers log their failures, which they note
    /// in `failures`.
    ///
    /// # Errors
    /// `AllocError` if memory runs out.
    pub fn new(
        rt: &'a HostRuntime,
        folder: &'a str,
        failures: &'a Failures,
    ) -> Result<FolderStore<'a>, AllocError> {
        Ok(FolderStore {
            rt,
            folder,
            failures,
            counts: Rc::new(rt.alloc(), SaveCounts::new())?,
            is_unmade: false,
            turn: None,
        })
    }

    /// Gathers the saves of each turn from now on, for a database or a store. Returns where they
    /// are gathered, and what counts them.
    ///
    /// # Errors
    /// `AllocError` if memory runs out.
    pub(crate) fn gather(
        &mut self,
        saves: TurnSaves,
    ) -> Result<(Rc<TurnSaves>, Rc<SaveCounts>), AllocError> {
        let turn = Rc::new(self.rt.alloc(), saves)?;
        self.turn = Some(turn.clone()?);
        Ok((turn, self.counts.clone()?))
    }

    /// Returns the entries of the folder, sorted by name.
    ///
    /// # Errors
    /// The reason why it can't be read.
    pub(crate) fn entries(&self) -> io::Result<Vec<FolderEntry>> {
        entries_in(self.rt, self.folder)
    }

    /// Finds the match of this name; returns `None` if there is none. Locks its folder if other
    /// processes may play over it, as over one made by `bg_relay new`.
    ///
    /// # Errors
    /// The reason why the match can't be read, or its folder can't be locked.
    pub(crate) fn find(
        &self,
        name: &str,
    ) -> Result<Option<(Box<Found<ServedKeeper<'a>>>, Option<FolderLock>)>, Unserved> {
        let path = path_in(self.rt.alloc(), self.folder, name)?;
        let Some(file) = self.match_in(path.as_str())? else {
            return Ok(None);
        };
        let seats = used(Part::Seats, read_seats(self.rt, path.as_str()))?;
        let lock = match seats {
            Some(_) => None,
            None => Some(lock_alone(self.rt, path.as_str())?),
        };
        let found = self.found(name, path.as_str(), file, seats)?;
        match Box::new(self.rt.alloc(), found) {
            Ok(found) => Ok(Some((found, lock))),
            Err(_) => Err(Unserved::from(AllocError)),
        }
    }

    /// Returns what the operator may have changed in the match of this name; `None` if it no longer
    /// exists.
    ///
    /// # Errors
    /// The reason why it can't be read.
    pub(crate) fn changed(&self, name: &str) -> io::Result<Option<Changed>> {
        let path = path_in(self.rt.alloc(), self.folder, name)?;
        match self.names_in(path.as_str())? {
            Some(names) => Ok(Some(Changed {
                names,
                seats: read_seats(self.rt, path.as_str())?,
                is_hidden: is_hidden(self.rt, path.as_str())?,
            })),
            None => Ok(None),
        }
    }

    /// Returns the names of the players of the match in a folder; `None` if it has no match file.
    fn names_in(&self, path: &str) -> io::Result<Option<Names>> {
        let file = path_in(self.rt.alloc(), path, "match")?;
        match NamedMatch::read(self.rt, file.as_str()) {
            Ok(Some(file)) => Ok(Some(file.names)),
            Ok(None) => Err(io::Error::from(ErrorKind::InvalidData)),
            Err(error) if error.kind() == ErrorKind::NotFound => Ok(None),
            Err(error) => Err(error),
        }
    }

    /// Returns the names of the matches that the operator has changed, and notes that they were
    /// taken in.
    ///
    /// # Errors
    /// The reason why they can't be read.
    pub(crate) fn take_changes(&self) -> io::Result<Vec<String>> {
        take_changes(self.rt, self.folder)
    }

    /// Forgets that the operator has changed a match, once the change is saved. If this fails, the
    /// change is taken in again.
    pub(crate) fn forget_change(&self, name: &str) {
        let _ = forget_change(self.rt, self.folder, name);
    }

    /// Returns the match file of a folder; `None` if there is no such file, or no folder.
    fn match_in(&self, path: &str) -> Result<Option<NamedMatch>, Unserved> {
        let path = path_in(self.rt.alloc(), path, "match")?;
        match NamedMatch::read(self.rt, path.as_str()) {
            Ok(Some(file)) => Ok(Some(file)),
            Ok(None) => Err(Unserved::NoMatchFile),
            Err(error) => match error.kind() {
                ErrorKind::NotFound | ErrorKind::NotADirectory => Ok(None),
                _ => Err(Unserved::Part(Part::Match, error)),
            },
        }
    }

    /// Returns the match of this name, with its keepers.
    ///
    /// # Errors
    /// The reason why one of its files can't be read, or doesn't fit the others.
    pub(crate) fn found(
        &self,
        name: &str,
        path: &str,
        file: NamedMatch,
        seats: Option<Seats>,
    ) -> Result<Found<ServedKeeper<'a>>, Unserved> {
        let key = used(Part::Secret, read_secret(self.rt, path))?;
        let digest = used(Part::Dice, read_digest(self.rt, path))?;
        if let Some(digest) = digest {
            if digest != digest_of(&key) {
                return Err(Unserved::OtherDice);
            }
        }
        let is_hidden = used(Part::Folder, is_hidden(self.rt, path))?;
        let quiet_minutes = used(Part::Folder, quiet_minutes(self.rt, path))?;
        // A match without seats may be played by other processes, which know of no database.
        let turn_of = seats.is_some().then_some(name);
        Ok(Found {
            name: String::from_str(self.rt.alloc(), name)?,
            names: file.names,
            id: file.table.id,
            terms: file.table.terms,
            seats,
            key,
            digest,
            keepers: self.keepers(path, turn_of)?,
            is_hidden,
            quiet_minutes,
        })
    }

    /// Returns the keepers of the parties in a folder.
    ///
    /// The saves of the match that `turn_of` names are gathered for the database, if there is one.
    fn keepers(
        &self,
        path: &str,
        turn_of: Option<&str>,
    ) -> Result<Keepers<ServedKeeper<'a>>, AllocError> {
        let referee = self.keeper(path, REFEREE, turn_of)?;
        let x = self.keeper(path, SEAT_OF_X, turn_of)?;
        let o = self.keeper(path, SEAT_OF_O, turn_of)?;
        Ok(Keepers { referee, x, o })
    }

    /// Returns the keeper of a party in a folder.
    fn keeper(
        &self,
        path: &str,
        party: u8,
        turn_of: Option<&str>,
    ) -> Result<ServedKeeper<'a>, AllocError> {
        let counts = self.counts.clone()?;
        let slots = match (&self.turn, turn_of) {
            (Some(turn), Some(name)) => {
                Some(TurnSlots::new(self.rt.alloc(), turn.clone()?, name, party)?)
            }
            _ => None,
        };
        let files = ServedFiles::new(self.rt, path, party, self.failures, slots, counts)?;
        Ok(ServedKeeper::over(files))
    }
}

/// Locks the folder of a match over which other processes may play.
fn lock_alone(rt: &HostRuntime, path: &str) -> Result<FolderLock, Unserved> {
    match FolderLock::take(rt, path) {
        Ok(lock) => Ok(lock),
        Err(TryLockError::WouldBlock) => Err(Unserved::InUse),
        Err(TryLockError::Error(error)) => Err(Unserved::Part(Part::Folder, error)),
    }
}

impl<'a> Store<ServedKeeper<'a>> for FolderStore<'a> {
    fn make(&mut self, terms: Terms, names: Names) -> Option<Made<ServedKeeper<'a>>> {
        let made = self.try_make(terms, names);
        self.tell_making(made.as_ref().err());
        made.ok()
    }

    fn load(&self, name: &str) -> Option<Record> {
        match self.try_load(name) {
            Ok(found) => found,
            Err(_) => None,
        }
    }

    fn saves(&self) -> Saves {
        self.counts.counted()
    }

    fn is_full(&self, name: &str) -> bool {
        self.turn.as_ref().is_some_and(|turn| turn.is_full(name))
    }
}
