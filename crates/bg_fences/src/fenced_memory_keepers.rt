//! A keeper in memory behind a fence.
ghost use Rattle.std.specs.Prelude.{◌≡◌};
ghost use Rattle.bg_protocol.specs.Devices.DeviceCalls.{WritesOnce};
ghost use Rattle.bg_fences.specs.FencedWrites.{WritesNext};

use crate::FencedKeeper;
use crate::memory_slots::MemorySlots;
use bg_protocol::{DeviceFault, Keeper, Save, count_failed};
use bg_streams::History;
use bg_wire::Slot;
use std::alloc::Global;

/// An honest keeper in memory behind a fence. Any number of nodes of a party may share it: each of
/// their calls is given it.
///
/// A write succeeds only with the text of the save after the one that the slots restore, and only
/// to the slot of that save. It fails with `Failed` for any other bytes, and with `Memory` if there
/// is none to read the texts or to keep this one; then the slots are as they were.
#[derive(Drop)]
pub struct FencedMemoryKeeper {
    alloc: Global,
    slots: MemorySlots,
    writes: History,
    reads: History,
    faults: History,
    written: Result<(), DeviceFault>,
}

impl FencedMemoryKeeper {
    ghost use Rattle.bg_fences.specs.FencedMemory.{fenced_slots};

    /// Returns a keeper whose slots have these bytes. Before the first save of its party they have
    /// none.
    pub fn new(alloc: Global, zero: Vec<u8>, one: Vec<u8>) -> FencedMemoryKeeper
        ensures { fenced_slots result ≡ record { zero = zero.items; one = one.items } }
    {
        FencedMemoryKeeper {
            alloc,
            slots: MemorySlots::new(zero, one),
            writes: History::new(),
            reads: History::new(),
            faults: History::new(),
            written: Ok(()),
        }
    }
}

impl Keeper for FencedMemoryKeeper {
    ghost use Rattle.std.specs.Prelude.{None, length};
    ghost use Rattle.bg_fences.specs.FencedMemory.{fenced_slots, fenced_view};

    ghost is_honest = { Unit {0} };

    ghost plan = { λ _. None };

    ghost slots = { fenced_slots };

    ghost faults = { λ keeper. length keeper.faults.bytes };

    ghost writes = { λ keeper. length keeper.writes.bytes };

    ghost reads = { λ keeper. length keeper.reads.bytes };

    ghost written = { λ keeper. keeper.written };

    fn write(&mut self, slot: Slot, bytes: &[u8]) -> Result<(), DeviceFault>
        ensures once { WritesOnce (Unit {0}) (fenced_view self.old) slot bytes.now result (fenced_view self.new) }
        ensures next { WritesNext (fenced_slots self.old) slot bytes.now (fenced_slots self.new) result }
    {
        self.writes = self.writes.marked();
        self.written = self.slots.write_next(self.alloc, slot, bytes);
        self.faults = count_failed(&self.faults, &self.written);
        self.written
    }

    fn read(&mut self, slot: Slot) -> Result<Vec<u8>, DeviceFault> {
        self.reads = self.reads.marked();
        Ok(self.slots.get(slot).to_vec(self.alloc)?)
    }
}

impl FencedKeeper for FencedMemoryKeeper {
    ghost is_fenced = { Unit {0} };

    fn write_save(&mut self, save: &Save) -> Result<(), DeviceFault> {
        self.write(save.slot, save.text.as_slice())
    }
}
