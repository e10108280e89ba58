//! The saves of a turn of the server, which are made durable together.

use crate::behind::Behind;
use crate::long_texts::LongTexts;
use bg_console::slot_path;
use bg_journal::{Change, FileText, Newest, newest_of};
use bg_wire::Slot;
use bg_world::DeviceFault;
use std::alloc::{AllocError, Global};
use std::cell::RefCell;
use std::rc::Rc;

/// The changes of files that are not durable yet, in order. Besides, the files whose newest texts
/// are durable in the database while they themselves may be older.
#[derive(Drop)]
pub struct TurnSaves {
    pub fresh: RefCell<Vec<Change>>,
    pub behind: RefCell<Behind>,
    /// The matches with texts near the limit of the store; `None` if there is no store.
    pub long: Option<LongTexts>,
}

impl TurnSaves {
    /// Creates a turn without saves.
    pub fn new(alloc: Global) -> TurnSaves {
        TurnSaves {
            fresh: RefCell::new(Vec::new(alloc)),
            behind: RefCell::new(Behind::new(alloc)),
            long: None,
        }
    }

    /// Creates a turn without saves, for a server that shares its matches.
    pub fn shared(alloc: Global) -> TurnSaves {
        TurnSaves {
            long: Some(LongTexts::none(alloc)),
            ..TurnSaves::new(alloc)
        }
    }

    /// Adds a change.
    ///
    /// # Errors
    /// `Failed` if the changes are in use, and `Memory` if memory runs out.
    pub fn add(&self, change: Change) -> Result<(), DeviceFault> {
        match self.fresh.try_borrow_mut() {
            Ok(mut fresh) => Ok(fresh.push(change)?),
            Err(_) => Err(DeviceFault::Failed),
        }
    }

    /// Adds a save. With a store, only the newest save of a party in a turn is kept, because all
    /// saves of a match in a turn are one transaction.
    fn add_save(&self, other: &str, file: FileText) -> Result<(), DeviceFault> {
        if let Some(long) = &self.long {
            long.check(file.name.as_str(), file.text.len())?;
            self.remove_puts(file.name.as_str(), other)?;
        }
        self.add(Change::Put(file))
    }

    /// Removes the saves into these two files from the changes of this turn.
    fn remove_puts(&self, name: &str, other: &str) -> Result<(), DeviceFault> {
        match self.fresh.try_borrow_mut() {
            Ok(mut fresh) => {
                fresh.retain(|change| !is_put_of(change, name) && !is_put_of(change, other));
                Ok(())
            }
            Err(_) => Err(DeviceFault::Failed),
        }
    }

    /// Notes that the files of a match are gone.
    ///
    /// # Errors
    /// The errors of [`TurnSaves::add`].
    pub fn remove(&self, alloc: Global, name: &str) -> Result<(), DeviceFault> {
        if let Some(long) = &self.long {
            long.forget(name);
        }
        let name = String::from_str(alloc, name)?;
        self.add(Change::Remove(name))
    }

    /// Returns whether nothing more of a match is saved, because it is too long for the store.
    pub fn is_full(&self, name: &str) -> bool {
        self.long.as_ref().is_some_and(|long| long.is_full(name))
    }

    /// Returns the text that a file has in the database, or will have at the end of the turn, if
    /// the file itself may be older.
    ///
    /// # Errors
    /// `Failed` if the changes are in use, and `Memory` if memory runs out.
    pub fn newest(&self, alloc: Global, name: &str) -> Result<Option<Vec<u8>>, DeviceFault> {
        let (Ok(fresh), Ok(behind)) = (self.fresh.try_borrow(), self.behind.try_borrow()) else {
            return Err(DeviceFault::Failed);
        };
        newest_text(alloc, &fresh, &behind, name)
    }
}

/// Returns a copy of the text that a file has after fresh changes, if the file itself may be older.
fn newest_text(
    alloc: Global,
    fresh: &[Change],
    behind: &Behind,
    name: &str,
) -> Result<Option<Vec<u8>>, DeviceFault> {
    let text = match newest_of(fresh, name) {
        Newest::Text(text) => Some(text),
        Newest::Gone => None,
        Newest::Unchanged => behind.text_of(name),
    };
    match text {
        Some(text) => Ok(Some(text.to_vec(alloc)?)),
        None => Ok(None),
    }
}

/// Returns whether a change puts a text into the file of this name.
fn is_put_of(change: &Change, name: &str) -> bool {
    match change {
        Change::Put(file) => file.name.as_str() == name,
        Change::Remove(_) => false,
    }
}

/// The slots of a party, whose saves are made durable with the other saves of the turn.
#[derive(Drop)]
pub struct TurnSlots {
    alloc: Global,
    saves: Rc<TurnSaves>,
    zero: String,
    one: String,
}

impl TurnSlots {
    /// Creates the slots of a party of the match with this name.
    ///
    /// # Errors
    /// `AllocError` if memory runs out.
    pub fn new(
        alloc: Global,
        saves: Rc<TurnSaves>,
        name: &str,
        party: u8,
    ) -> Result<TurnSlots, AllocError> {
        Ok(TurnSlots {
            alloc,
            saves,
            zero: slot_path(alloc, name, party, Slot::Zero)?,
            one: slot_path(alloc, name, party, Slot::One)?,
        })
    }

    fn name(&self, slot: Slot) -> &str {
        match slot {
            Slot::Zero => self.zero.as_str(),
            Slot::One => self.one.as_str(),
        }
    }

    /// Adds the text of a slot to the saves of the turn.
    ///
    /// # Errors
    /// `Failed` if the changes are in use or the text is beyond the limit of the store, and
    /// `Memory` if memory runs out.
    pub fn write(&self, slot: Slot, text: &[u8]) -> Result<(), DeviceFault> {
        let name = String::from_str(self.alloc, self.name(slot))?;
        let text = text.to_vec(self.alloc)?;
        let other = match slot {
            Slot::Zero => self.one.as_str(),
            Slot::One => self.zero.as_str(),
        };
        self.saves.add_save(other, FileText { name, text })
    }

    /// Returns the newest text of a slot, if its file may be older.
    ///
    /// # Errors
    /// The errors of [`TurnSaves::newest`].
    pub fn newest(&self, slot: Slot) -> Result<Option<Vec<u8>>, DeviceFault> {
        self.saves.newest(self.alloc, self.name(slot))
    }
}
