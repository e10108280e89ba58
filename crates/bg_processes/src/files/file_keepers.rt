//! Files that keep the saved texts of a party.
ghost use Rattle.std.specs.Prelude.{None, length};
ghost use Rattle.bg_protocol.specs.Protocol.Slots.{empty_slots};

use crate::answers::answered;
use bg_streams::History;
use bg_system::{Failures, PartyFiles};
use bg_wire::Slot;
use bg_world::{DeviceFault, Keeper, count_failed};
use std::alloc::AllocError;
use std::fs::File;
use std::rt::Files;

/// The two files of a party in a folder: slot S of party P is `party-P.S` (docs/OPERATING.md,
/// "Files"). Nothing is claimed of their honesty: others may write to these files.
///
/// It notes why a call failed, with the file, in the [`Failures`] that it borrows.
pub struct FileKeeper<'a, R> {
    files: PartyFiles<'a, R>,
    writes: History,
    reads: History,
    faults: History,
    written: Result<(), DeviceFault>,
}

// Written out, so that an owner proves one call, and not the drop of each field.
impl<'a, R> Drop for FileKeeper<'a, R> {
    fn drop(self) {
        let FileKeeper {
            files: _,
            writes: _,
            reads: _,
            faults: _,
            written: _,
        } = self;
    }
}

impl<'a, R: Files<File = File> + AllocGlobal> FileKeeper<'a, R> {
    /// Creates the keeper of a party in a folder, without opening anything. It notes its failures
    /// in `failures`.
    ///
    /// # Errors
    /// AllocError where there is no memory for the names of the files.
    pub fn new(
        rt: &'a R,
        folder: &str,
        party: u8,
        failures: &'a Failures,
    ) -> Result<FileKeeper<'a, R>, AllocError> {
        Ok(FileKeeper {
            files: PartyFiles::new(rt, folder, party, failures)?,
            writes: History::new(),
            reads: History::new(),
            faults: History::new(),
            written: Ok(()),
        })
    }
}

impl<'a, R: Files<File = File> + AllocGlobal> Keeper for FileKeeper<'a, R> {
    // Nothing is claimed of honesty, and so nothing of the contents of the slots either.
    ghost is_honest = { ⊥ };

    ghost plan = { λ _. None };

    ghost slots = { λ _. empty_slots };

    ghost faults = { λ keeper. length keeper.faults.bytes };

    ghost writes = { λ keeper. length keeper.writes.bytes };

    ghost reads = { λ keeper. length keeper.reads.bytes };

    ghost written = { λ keeper. keeper.written };

    fn write(&mut self, slot: Slot, bytes: &[u8]) -> Result<(), DeviceFault> {
        self.writes = self.writes.marked();
        self.written = answered(self.files.write(slot, bytes));
        self.faults = count_failed(&self.faults, &self.written);
        self.written
    }

    fn read(&mut self, slot: Slot) -> Result<Vec<u8>, DeviceFault> {
        self.reads = self.reads.marked();
        let result = answered(self.files.read(slot));
        self.faults = count_failed(&self.faults, &result);
        result
    }
}
