//! Two slots in memory.
ghost use Rattle.std.specs.Prelude.{◌≡◌, ◌≢◌, [], OnErr, OnOk};
ghost use Rattle.bg_wire.specs.Saved.SlotLaws.{bytes_in, with_slot};
ghost use Rattle.bg_protocol.specs.Protocol.Slots.{empty_slots};

use bg_wire::Slot;
use std::alloc::{AllocError, Global};
use std::marker::Model;

/// The bytes of two slots.
#[derive(Drop)]
pub(crate) struct SlotTexts {
    zero: Vec<u8>,
    one: Vec<u8>,
}

impl Model for SlotTexts {
    ghost use Rattle.bg_wire.specs.Saved.SlotLaws.{Slots};

    ghost Value = { Slots };

    ghost view = { λ t. record { zero = t.zero.items; one = t.one.items } };
}

impl SlotTexts {
    /// Returns two empty slots.
    pub(crate) fn new(alloc: Global) -> SlotTexts
        ensures { result ≡ empty_slots }
    {
        SlotTexts {
            zero: Vec::new(alloc),
            one: Vec::new(alloc),
        }
    }

    /// Returns the bytes of a slot.
    pub(crate) fn get(&self, slot: Slot) -> &[u8]
        ensures { result.now ≡ bytes_in self.now slot }
    {
        match slot {
            Slot::Zero => &self.zero,
            Slot::One => &self.one,
        }
    }

    /// Puts these bytes into a slot, in the place of those that it has. Where memory runs out,
    /// nothing changes; none is needed for no bytes.
    pub(crate) fn write(&mut self, slot: Slot, bytes: &[u8]) -> Result<(), AllocError>
        ensures ok { OnOk result (self.new ≡ with_slot self.old slot bytes.now) }
        ensures err { OnErr result ((bytes.now ≢ []) × (self.new ≡ self.old)) }
    {
        match slot {
            Slot::Zero => overwrite(&mut self.zero, bytes),
            Slot::One => overwrite(&mut self.one, bytes),
        }
    }
}

/// Puts these bytes in the place of others, and takes no memory where there is room.
fn overwrite(text: &mut Vec<u8>, bytes: &[u8]) -> Result<(), AllocError>
    ensures ok { OnOk result (text.new.items ≡ bytes.now) }
    ensures err { OnErr result ((bytes.now ≢ []) × (text.new.items ≡ text.old.items)) }
{
    text.reserve(bytes.len().saturating_sub(text.len()))?;
    text.clear();
    text.extend_from_slice(bytes)
}
