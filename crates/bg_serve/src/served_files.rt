//! The files of a party of a served match.

use crate::save_counts::{SaveCounts, micros_since};
use bg_console::say_failures;
use bg_processes::{Failures, FileKeeper};
use bg_stores::TurnSlots;
use bg_wire::Slot;
use bg_world::{DeviceFault, Keeper};
use std::alloc::AllocError;
use std::rc::Rc;
use std::time::Instant;

/// The files of a party in the folder of a match. If there is a database, saves go to the turn, and
/// the files are written later. Saves are counted and timed, and failures of the files are logged.
#[derive(Drop)]
pub(crate) struct ServedFiles<'a> {
    rt: &'a HostRuntime,
    file: FileKeeper<'a, HostRuntime>,
    /// The failures of the files of all matches. Each call leaves none there.
    failures: &'a Failures,
    /// The path of the folder, by which failures are logged.
    folder: String,
    turn: Option<TurnSlots>,
    counts: Rc<SaveCounts>,
}

impl<'a> ServedFiles<'a> {
    /// Returns the files of a party in the folder of a match, without opening them. They share
    /// `failures` with those of other matches.
    ///
    /// # Errors
    /// `AllocError` if memory runs out.
    pub(crate) fn new(
        rt: &'a HostRuntime,
        folder: &str,
        party: u8,
        failures: &'a Failures,
        turn: Option<TurnSlots>,
        counts: Rc<SaveCounts>,
    ) -> Result<ServedFiles<'a>, AllocError> {
        Ok(ServedFiles {
            rt,
            file: FileKeeper::new(rt, folder, party, failures)?,
            failures,
            folder: String::from_str(rt.alloc(), folder)?,
            turn,
            counts,
        })
    }

    /// Writes a slot, and counts the save.
    pub(crate) fn write(&mut self, slot: Slot, bytes: &[u8]) -> Result<(), DeviceFault> {
        let begun = Instant::now(self.rt).ok();
        let result = match &self.turn {
            Some(turn) => turn.write(slot, bytes),
            None => self.file.write(slot, bytes),
        };
        self.counts
            .note(result.is_ok(), micros_since(self.rt, begun));
        say_failures(self.rt, self.failures, self.folder.as_str());
        result
    }

    /// Reads a slot, from the gathered saves if its file may be older.
    pub(crate) fn read(&mut self, slot: Slot) -> Result<Vec<u8>, DeviceFault> {
        if let Some(turn) = &self.turn {
            if let Some(text) = turn.newest(slot)? {
                return Ok(text);
            }
        }
        let result = self.file.read(slot);
        say_failures(self.rt, self.failures, self.folder.as_str());
        result
    }
}
