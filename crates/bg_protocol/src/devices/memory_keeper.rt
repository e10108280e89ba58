//! A keeper in memory.
ghost use Rattle.std.specs.Prelude.{◌≡◌, length, min, Ok};
ghost use Rattle.bg_protocol.specs.Devices.Plan.{ReadsBy, WritesBy};

use crate::devices::copies::copy_of;
use crate::devices::notes::count_failed;
use crate::devices::plans::{find_read_failure, find_tear};
use crate::devices::slot_texts::SlotTexts;
use crate::{DeviceFault, FailRead, Keeper, Tear};
use bg_streams::History;
use bg_wire::Slot;
use std::alloc::Global;

/// A keeper in memory, which is honest. Its writes and reads fail by a plan (docs/PROTOCOL.md,
/// "Devices").
#[derive(Drop)]
pub struct MemoryKeeper {
    alloc: Global,
    texts: SlotTexts,
    party: u8,
    tears: Vec<Tear>,
    failing: Vec<FailRead>,
    asked_writes: u32,
    asked_reads: u32,
    writes: History,
    reads: History,
    faults: History,
    written: Result<(), DeviceFault>,
    ghost known_writes: { asked_writes ≡ min (length writes.bytes) 4294967295 },
    ghost known_reads: { asked_reads ≡ min (length reads.bytes) 4294967295 },
}

impl MemoryKeeper {
    ghost use Rattle.bg_protocol.specs.Protocol.Slots.{empty_slots};
    ghost use Rattle.bg_protocol.specs.Devices.MemoryDevices.{keeper_faults, keeper_plan, last_written, reads_of};
    ghost use Rattle.bg_protocol.specs.Devices.MemoryDevices.{slots_of};
    ghost use Rattle.bg_protocol.specs.Devices.MemoryDevices.{writes_of};

    /// Returns the keeper of a party, with empty slots, of which nothing was asked yet. The calls
    /// that the plan names for this party fail.
    pub(crate) fn new(
        alloc: Global,
        party: u8,
        tears: Vec<Tear>,
        failing: Vec<FailRead>,
    ) -> MemoryKeeper
        ensures slots { slots_of result ≡ empty_slots }
        ensures plan { keeper_plan result ≡ record { party = party; tears = tears.items; reads = failing.items } }
        ensures faults { keeper_faults result ≡ 0 }
        ensures writes { writes_of result ≡ 0 }
        ensures reads { reads_of result ≡ 0 }
        ensures written { last_written result ≡ Ok tt }
    {
        MemoryKeeper {
            alloc,
            texts: SlotTexts::new(alloc),
            party,
            tears,
            failing,
            asked_writes: 0,
            asked_reads: 0,
            writes: History::new(),
            reads: History::new(),
            faults: History::new(),
            written: Ok(()),
        }
    }
}

/// Writes a text as the plan says of this write.
fn write_by(
    tear: Option<Tear>,
    texts: &mut SlotTexts,
    slot: Slot,
    bytes: &[u8],
) -> Result<(), DeviceFault>
    ensures { WritesBy tear texts.old slot bytes.now texts.new result }
{
    match tear {
        None => {
            texts.write(slot, bytes)?;
            Ok(())
        }
        Some(tear) => {
            if let Some(cut) = tear.cut {
                let cut = (cut as usize).min(bytes.len());
                texts.write(slot, &bytes[..cut])?;
            }
            Err(DeviceFault::Failed)
        }
    }
}

/// Reads the bytes of a slot, or fails as the plan says of this read.
fn read_by(
    failure: Option<FailRead>,
    alloc: Global,
    texts: &SlotTexts,
    slot: Slot,
) -> Result<Vec<u8>, DeviceFault>
    ensures { ReadsBy failure texts.now slot result }
{
    match failure {
        None => Ok(copy_of(alloc, texts.get(slot))?),
        Some(_) => Err(DeviceFault::Failed),
    }
}

impl Keeper for MemoryKeeper {
    ghost use Rattle.std.specs.Prelude.{Some};
    ghost use Rattle.bg_protocol.specs.Devices.MemoryDevices.{keeper_faults, keeper_plan, last_written, reads_of};
    ghost use Rattle.bg_protocol.specs.Devices.MemoryDevices.{slots_of};
    ghost use Rattle.bg_protocol.specs.Devices.MemoryDevices.{writes_of};

    ghost is_honest = { Unit {0} };

    ghost plan = { λ keeper. Some (keeper_plan keeper) };

    ghost slots = { slots_of };

    ghost faults = { keeper_faults };

    ghost writes = { writes_of };

    ghost reads = { reads_of };

    ghost written = { last_written };

    fn write(&mut self, slot: Slot, bytes: &[u8]) -> Result<(), DeviceFault> {
        self.writes = self.writes.marked();
        self.asked_writes = self.asked_writes.saturating_add(1);
        let tear = find_tear(&self.tears, self.party, self.asked_writes);
        self.written = write_by(tear, &mut self.texts, slot, bytes);
        self.faults = count_failed(&self.faults, &self.written);
        self.written
    }

    fn read(&mut self, slot: Slot) -> Result<Vec<u8>, DeviceFault> {
        self.reads = self.reads.marked();
        self.asked_reads = self.asked_reads.saturating_add(1);
        let failure = find_read_failure(&self.failing, self.party, self.asked_reads);
        let result = read_by(failure, self.alloc, &self.texts, slot);
        self.faults = count_failed(&self.faults, &result);
        result
    }
}
