//! The keepers of served matches.
ghost use Rattle.std.specs.Prelude.{None, length};
ghost use Rattle.bg_protocol.specs.Protocol.Slots.{empty_slots};

use crate::served_files::ServedFiles;
use bg_streams::History;
use bg_wire::Slot;
use bg_world::{DeviceFault, Keeper, count_failed};

/// The keeper of a party of a served match, over the party's files in the folder of the match. If
/// there is a database, a save counts once the turn is committed there, and the file is written
/// later. Nothing is claimed about the keeper's honesty, because others may write to these files.
pub struct ServedKeeper<'a> {
    files: ServedFiles<'a>,
    writes: History,
    reads: History,
    faults: History,
    written: Result<(), DeviceFault>,
}

// Written out, so that an owner proves one call, and not the drop of each field.
impl<'a> Drop for ServedKeeper<'a> {
    fn drop(self) {
        let ServedKeeper {
            files: _,
            writes: _,
            reads: _,
            faults: _,
            written: _,
        } = self;
    }
}

impl<'a> ServedKeeper<'a> {
    /// Creates a keeper over these files.
    pub(crate) fn over(files: ServedFiles<'a>) -> ServedKeeper<'a> {
        ServedKeeper {
            files,
            writes: History::new(),
            reads: History::new(),
            faults: History::new(),
            written: Ok(()),
        }
    }
}

impl<'a> Keeper for ServedKeeper<'a> {
    // Nothing is claimed about honesty, and so nothing about the contents of the slots either.
    ghost is_honest = { ⊥ };

    ghost plan = { λ _. None };

    ghost slots = { λ _. empty_slots };

    ghost faults = { λ keeper. length keeper.faults.bytes };

    ghost writes = { λ keeper. length keeper.writes.bytes };

    ghost reads = { λ keeper. length keeper.reads.bytes };

    ghost written = { λ keeper. keeper.written };

    fn write(&mut self, slot: Slot, bytes: &[u8]) -> Result<(), DeviceFault> {
        self.writes = self.writes.marked();
        self.written = self.files.write(slot, bytes);
        self.faults = count_failed(&self.faults, &self.written);
        self.written
    }

    fn read(&mut self, slot: Slot) -> Result<Vec<u8>, DeviceFault> {
        self.reads = self.reads.marked();
        let result = self.files.read(slot);
        self.faults = count_failed(&self.faults, &result);
        result
    }
}
