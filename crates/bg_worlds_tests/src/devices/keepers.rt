//! Keepers in memory that record what they are asked.
ghost use Rattle.std.specs.Prelude.{◌≡◌, ◌+◌, None, length};
ghost use Rattle.bg_protocol.specs.Protocol.Slots.{empty_slots};

use super::Recorder;
use bg_streams::History;
use bg_wire::{Slot, load};
use bg_world::{DeviceFault, Keeper, count_failed};
use std::alloc::Global;

fn number_of(slot: Slot) -> u32 {
    match slot {
        Slot::Zero => 0,
        Slot::One => 1,
    }
}

/// The number of the save that a text has, that of the entry which it claims, 0 for none, and how
/// many entries it has.
fn told_by(alloc: Global, bytes: &[u8]) -> Result<[u32; 3], DeviceFault> {
    let Ok(saved) = load(alloc, bytes) else {
        return Err(DeviceFault::Failed);
    };
    let claimed = match &saved.claim {
        Some((number, _)) => *number,
        None => 0,
    };
    Ok([saved.save, claimed, saved.log.len()])
}

/// What was last written to the slots of a party, and how often it was asked.
#[derive(Drop)]
struct Written<'a> {
    recorder: &'a Recorder,
    party: u8,
    writes: u32,
    reads: u32,
    zero: Vec<u8>,
    one: Vec<u8>,
}

impl<'a> Written<'a> {
    /// A slot has these bytes.
    fn keep(&mut self, slot: Slot, bytes: &[u8]) -> Result<(), DeviceFault> {
        let kept = bytes.to_vec(self.recorder.alloc)?;
        match slot {
            Slot::Zero => self.zero = kept,
            Slot::One => self.one = kept,
        }
        Ok(())
    }

    fn put(&mut self, slot: Slot, bytes: &[u8]) -> Result<(), DeviceFault> {
        let [save, claimed, held] = told_by(self.recorder.alloc, bytes)?;
        let told = [self.party.into(), number_of(slot), save, claimed, held];
        self.writes = self.writes.saturating_add(1);
        match self.recorder.tear(self.party, self.writes) {
            None => {
                self.recorder.record("write", &told)?;
                self.keep(slot, bytes)
            }
            Some(tear) => {
                self.recorder.record("failed write", &told)?;
                if let Some(cut) = tear.cut {
                    self.keep(slot, &bytes[..(cut as usize).min(bytes.len())])?;
                }
                Err(DeviceFault::Failed)
            }
        }
    }

    fn get(&mut self, slot: Slot) -> Result<Vec<u8>, DeviceFault> {
        self.recorder
            .record("read", &[self.party.into(), number_of(slot)])?;
        self.reads = self.reads.saturating_add(1);
        if self.recorder.fails_read(self.party, self.reads) {
            return Err(DeviceFault::Failed);
        }
        let bytes = match slot {
            Slot::Zero => &self.zero,
            Slot::One => &self.one,
        };
        Ok(bytes.to_vec(self.recorder.alloc)?)
    }
}

/// The keeper of a party, which has what was last written to its slots.
#[derive(Drop)]
pub(crate) struct OwnKeeper<'a> {
    slots: Written<'a>,
    writes: History,
    reads: History,
    faults: History,
    written: Result<(), DeviceFault>,
}

impl<'a> OwnKeeper<'a> {
    /// The keeper of a party whose slots are empty.
    pub(crate) fn empty(recorder: &'a Recorder, party: u8) -> OwnKeeper<'a> {
        OwnKeeper {
            slots: Written {
                recorder,
                party,
                writes: 0,
                reads: 0,
                zero: Vec::new(recorder.alloc),
                one: Vec::new(recorder.alloc),
            },
            writes: History::new(),
            reads: History::new(),
            faults: History::new(),
            written: Ok(()),
        }
    }

    /// A write that is refused: nothing is written.
    pub(crate) fn refuse(&mut self) -> Result<(), DeviceFault>
        ensures writes { length self.new.writes.bytes ≡ length self.old.writes.bytes + 1 }
        ensures faults { length self.new.faults.bytes ≡ length self.old.faults.bytes + 1 }
        ensures reads { self.new.reads ≡ self.old.reads }
        ensures written { self.new.written ≡ result }
    {
        self.writes = self.writes.marked();
        self.faults = self.faults.marked();
        self.written = Err(DeviceFault::Failed);
        self.written
    }

    /// The slots have these bytes.
    pub(crate) fn fill(&mut self, zero: &[u8], one: &[u8]) -> Result<(), DeviceFault> {
        self.slots.keep(Slot::Zero, zero)?;
        self.slots.keep(Slot::One, one)
    }
}

impl<'a> Keeper for OwnKeeper<'a> {
    ghost is_honest = { ⊥ };

    ghost plan = { λ _. None };

    ghost slots = { λ _. empty_slots };

    ghost faults = { λ keeper. length keeper.faults.bytes };

    ghost writes = { λ keeper. length keeper.writes.bytes };

    ghost reads = { λ keeper. length keeper.reads.bytes };

    ghost written = { λ keeper. keeper.written };

    fn write(&mut self, slot: Slot, bytes: &[u8]) -> Result<(), DeviceFault> {
        self.writes = self.writes.marked();
        self.written = self.slots.put(slot, bytes);
        self.faults = count_failed(&self.faults, &self.written);
        self.written
    }

    fn read(&mut self, slot: Slot) -> Result<Vec<u8>, DeviceFault> {
        self.reads = self.reads.marked();
        let result = self.slots.get(slot);
        self.faults = count_failed(&self.faults, &result);
        result
    }
}
