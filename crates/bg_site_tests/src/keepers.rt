//! Keepers in memory, whose slots outlive a match, and whose writes fail where that is wanted.
ghost use Rattle.std.specs.Prelude.{None, length};
ghost use Rattle.bg_protocol.specs.Protocol.Slots.{empty_slots};

use crate::lasting::lasting;
use bg_match::{Record, Rules};
use bg_streams::History;
use bg_wire::{REFEREE, Slot, restore};
use bg_world::{DeviceFault, Keeper, Keepers, count_failed};
use std::alloc::Global;
use std::cell::{Cell, RefCell};
use std::process::Abort;

/// The slots of a party.
#[derive(Drop)]
pub(crate) struct Slots {
    alloc: Global,
    zero: RefCell<Vec<u8>>,
    one: RefCell<Vec<u8>>,
}

impl Slots {
    fn new(alloc: Global) -> Slots {
        Slots {
            alloc,
            zero: RefCell::new(Vec::new(alloc)),
            one: RefCell::new(Vec::new(alloc)),
        }
    }

    fn text(&self, slot: Slot) -> &RefCell<Vec<u8>> {
        match slot {
            Slot::Zero => &self.zero,
            Slot::One => &self.one,
        }
    }

    fn put(&self, slot: Slot, bytes: &[u8]) -> Result<(), DeviceFault> {
        let bytes = bytes.to_vec(self.alloc)?;
        match self.text(slot).try_borrow_mut() {
            Ok(mut text) => {
                *text = bytes;
                Ok(())
            }
            Err(_) => Err(DeviceFault::Failed),
        }
    }

    fn get(&self, slot: Slot) -> Result<Vec<u8>, DeviceFault> {
        match self.text(slot).try_borrow() {
            Ok(text) => Ok(text.as_slice().to_vec(self.alloc)?),
            Err(_) => Err(DeviceFault::Failed),
        }
    }
}

/// The slots of three parties, and how many writes are to succeed before one fails.
#[derive(Drop)]
pub(crate) struct Shelf {
    referee: Slots,
    x: Slots,
    o: Slots,
    good: RefCell<u32>,
    /// Whether it takes nothing more.
    is_full: Cell<bool>,
    /// Whether the record of a match that has ended can't be read.
    is_unread: Cell<bool>,
}

/// A shelf that has nothing yet. It lasts as long as the process.
pub(crate) fn lasting_shelf<'a>(rt: &(impl AllocGlobal + Abort)) -> &'a Shelf {
    lasting(rt, Shelf::new(rt.alloc()))
}

impl Shelf {
    pub(crate) fn new(alloc: Global) -> Shelf {
        Shelf {
            referee: Slots::new(alloc),
            x: Slots::new(alloc),
            o: Slots::new(alloc),
            good: RefCell::new(u32::MAX),
            is_full: Cell::new(false),
            is_unread: Cell::new(false),
        }
    }

    /// Takes nothing more from now on.
    pub(crate) fn fill(&self) {
        self.is_full.set(true);
    }

    /// Whether it takes nothing more.
    pub(crate) fn is_full(&self) -> bool {
        self.is_full.get()
    }

    /// From now on the record of a match that has ended can't be read, or can be read again.
    pub(crate) fn set_unread(&self, is_unread: bool) {
        self.is_unread.set(is_unread);
    }

    /// The record that the referee of match 7 to one point has saved, unless it can't be read.
    pub(crate) fn record(&self) -> Option<Record> {
        if self.is_unread.get() {
            return None;
        }
        let alloc = self.referee.alloc;
        let (zero, one) = (
            self.referee.get(Slot::Zero).ok()?,
            self.referee.get(Slot::One).ok()?,
        );
        match restore(alloc, &zero, &one, REFEREE, 7, 1, Rules::One) {
            Ok(Some(saved)) => Some(saved.log),
            _ => None,
        }
    }

    /// After so many writes that succeed, one fails.
    pub(crate) fn fail_after(&self, good: u32) {
        if let Ok(mut left) = self.good.try_borrow_mut() {
            *left = good;
        }
    }

    pub(crate) fn keepers(&self) -> Keepers<ShelfKeeper<'_>> {
        Keepers {
            referee: ShelfKeeper::new(self, &self.referee),
            x: ShelfKeeper::new(self, &self.x),
            o: ShelfKeeper::new(self, &self.o),
        }
    }

    fn may_write(&self) -> bool {
        let Ok(mut left) = self.good.try_borrow_mut() else {
            return false;
        };
        if self.is_full() {
            return false;
        }
        if *left == 0 {
            *left = u32::MAX;
            return false;
        }
        *left -= 1;
        true
    }

    fn put(&self, slots: &Slots, slot: Slot, bytes: &[u8]) -> Result<(), DeviceFault> {
        if !self.may_write() {
            return Err(DeviceFault::Failed);
        }
        slots.put(slot, bytes)
    }
}

/// The keeper of a party over a shelf.
#[derive(Drop)]
pub(crate) struct ShelfKeeper<'a> {
    shelf: &'a Shelf,
    slots: &'a Slots,
    writes: History,
    reads: History,
    faults: History,
    written: Result<(), DeviceFault>,
}

impl<'a> ShelfKeeper<'a> {
    fn new(shelf: &'a Shelf, slots: &'a Slots) -> ShelfKeeper<'a> {
        ShelfKeeper {
            shelf,
            slots,
            writes: History::new(),
            reads: History::new(),
            faults: History::new(),
            written: Ok(()),
        }
    }
}

impl<'a> Keeper for ShelfKeeper<'a> {
    ghost is_honest = { ⊥ };

    ghost plan = { λ _. None };

    ghost slots = { λ _. empty_slots };

    ghost faults = { λ keeper. length keeper.faults.bytes };

    ghost writes = { λ keeper. length keeper.writes.bytes };

    ghost reads = { λ keeper. length keeper.reads.bytes };

    ghost written = { λ keeper. keeper.written };

    fn write(&mut self, slot: Slot, bytes: &[u8]) -> Result<(), DeviceFault> {
        self.writes = self.writes.marked();
        self.written = self.shelf.put(self.slots, slot, bytes);
        self.faults = count_failed(&self.faults, &self.written);
        self.written
    }

    fn read(&mut self, slot: Slot) -> Result<Vec<u8>, DeviceFault> {
        self.reads = self.reads.marked();
        let result = self.slots.get(slot);
        self.faults = count_failed(&self.faults, &result);
        result
    }
}
