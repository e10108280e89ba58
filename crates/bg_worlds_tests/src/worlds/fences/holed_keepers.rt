//! Keepers whose fence has a hole.
ghost use Rattle.std.specs.Prelude.{None, length};
ghost use Rattle.bg_protocol.specs.Protocol.Slots.{empty_slots};

use crate::devices::Recorder;
use crate::devices::keepers::OwnKeeper;
use bg_fences::FencedKeeper;
use bg_wire::Slot;
use bg_world::{DeviceFault, Keeper, Save};

/// Which saves pass that a fence refuses.
#[derive(Clone, Copy, Debug)]
pub(super) enum Hole {
    /// One with the number of the newest.
    Equal,
    /// Any: there is no fence.
    Any,
}

impl Hole {
    /// Whether a save of this number is taken behind the newest one.
    fn takes(self, number: u32, newest: u32) -> bool {
        match self {
            Hole::Equal => number == newest || newest.checked_add(1) == Some(number),
            Hole::Any => true,
        }
    }
}

/// A keeper whose fence has a hole. It has the number of the newest save in its slots, 0 before the
/// first.
#[derive(Drop)]
pub(super) struct HoledKeeper {
    keeper: OwnKeeper<'static>,
    hole: Hole,
    newest: u32,
}

impl HoledKeeper {
    pub(super) fn new(recorder: &'static Recorder, party: u8, hole: Hole) -> HoledKeeper {
        HoledKeeper {
            keeper: OwnKeeper::empty(recorder, party),
            hole,
            newest: 0,
        }
    }
}

impl Keeper for HoledKeeper {
    ghost is_honest = { ⊥ };

    ghost plan = { λ _. None };

    ghost slots = { λ _. empty_slots };

    ghost faults = { λ holed. length holed.keeper.faults.bytes };

    ghost writes = { λ holed. length holed.keeper.writes.bytes };

    ghost reads = { λ holed. length holed.keeper.reads.bytes };

    ghost written = { λ holed. holed.keeper.written };

    fn write(&mut self, slot: Slot, bytes: &[u8]) -> Result<(), DeviceFault> {
        self.keeper.write(slot, bytes)
    }

    fn read(&mut self, slot: Slot) -> Result<Vec<u8>, DeviceFault> {
        self.keeper.read(slot)
    }
}

impl FencedKeeper for HoledKeeper {
    ghost is_fenced = { ⊥ };

    fn write_save(&mut self, save: &Save) -> Result<(), DeviceFault> {
        if !self.hole.takes(save.number, self.newest) {
            return self.keeper.refuse();
        }
        self.newest = self.newest.max(save.number);
        self.write(save.slot, save.text.as_slice())
    }
}
