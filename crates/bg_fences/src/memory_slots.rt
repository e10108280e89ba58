//! Two slots in memory, behind a fence.
ghost use Rattle.std.specs.Prelude.{◌≡◌, ◌+◌, ◌↔◌, IsTrue};
ghost use Rattle.bg_wire.specs.Saved.Saves.{slot_of};
ghost use Rattle.bg_wire.specs.Saved.SlotLaws.{bytes_in, with_slot};
ghost use Rattle.bg_fences.specs.FencedWrites.{WritesNext};
ghost use Rattle.bg_fences.specs.ToldNumbers.{TellsNewest, TellsNumber};

use bg_protocol::DeviceFault;
use bg_wire::{LoadFault, Slot, load};
use std::alloc::Global;
use std::marker::Model;

/// The bytes of two slots.
#[derive(Drop)]
pub(crate) struct MemorySlots {
    zero: Vec<u8>,
    one: Vec<u8>,
}

impl Model for MemorySlots {
    ghost use Rattle.bg_wire.specs.Saved.SlotLaws.{Slots};

    ghost Value = { Slots };

    ghost view = { λ s. record { zero = s.zero.items; one = s.one.items } };
}

impl MemorySlots {
    /// Returns two slots with these bytes.
    pub(crate) fn new(zero: Vec<u8>, one: Vec<u8>) -> MemorySlots
        ensures { result ≡ record { zero = zero.items; one = one.items } }
    {
        MemorySlots { zero, one }
    }

    /// Returns the bytes of a slot.
    pub(crate) fn get(&self, slot: Slot) -> &[u8]
        ensures { result.now ≡ bytes_in self.now slot }
    {
        match slot {
            Slot::Zero => &self.zero,
            Slot::One => &self.one,
        }
    }

    /// Puts a text into a slot.
    fn set(&mut self, slot: Slot, text: Vec<u8>)
        ensures { self.new ≡ with_slot self.old slot text.items }
    {
        match slot {
            Slot::Zero => self.zero = text,
            Slot::One => self.one = text,
        }
    }

    /// Returns the number of the save that the slots restore, or 0 if they restore none.
    fn newest(&self, alloc: Global) -> Result<u32, DeviceFault>
        ensures { TellsNewest self.now result }
    {
        let zero = told_number(alloc, self.get(Slot::Zero))?;
        let one = told_number(alloc, self.get(Slot::One))?;
        Ok(zero.max(one))
    }

    /// Writes the text of the next save to its slot, and refuses any other bytes and the other slot
    /// with `Failed`. After an error the slots are as they were.
    pub(crate) fn write_next(
        &mut self,
        alloc: Global,
        slot: Slot,
        bytes: &[u8],
    ) -> Result<(), DeviceFault>
        ensures { WritesNext self.old slot bytes.now self.new result }
    {
        let number = told_number(alloc, bytes)?;
        let newest = self.newest(alloc)?;
        if !is_next(newest, number, slot) {
            return Err(DeviceFault::Failed);
        }
        self.set(slot, bytes.to_vec(alloc)?);
        Ok(())
    }
}

/// Returns the number of the save whose text these bytes are, or 0 if they are no saved text.
fn told_number(alloc: Global, bytes: &[u8]) -> Result<u32, DeviceFault>
    ensures { TellsNumber bytes.now result }
{
    match load(alloc, bytes) {
        Ok(saved) => Ok(saved.save),
        Err(LoadFault::Memory) => Err(DeviceFault::Memory),
        Err(_) => Ok(0),
    }
}

/// Returns whether the save of this number comes after the newest one, and has this slot.
fn is_next(newest: u32, number: u32, slot: Slot) -> bool
    ensures { IsTrue result ↔ ((number ≡ newest + 1) × (slot ≡ slot_of number)) }
{
    number.checked_sub(1) == Some(newest) && slot == Slot::of(number)
}
