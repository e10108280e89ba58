//! The files of a party in a folder.

use crate::failures::Failures;
use crate::files::slot_files::SlotFile;
use crate::files::slot_folders::SlotFolder;
use crate::files::slot_names::SlotName;
use bg_wire::Slot;
use std::alloc::AllocError;
use std::fs::File;
use std::io;
use std::rt::Files;

/// The two files of a party in a folder: slot S of party P is `party-P.S` (docs/OPERATING.md,
/// "Files").
///
/// It notes why a call failed, with the file, in the [`Failures`] that it borrows.
#[derive(Drop)]
pub struct PartyFiles<'a, R> {
    folder: SlotFolder<'a, R>,
    zero: SlotFile<'a, R>,
    one: SlotFile<'a, R>,
}

impl<'a, R: Files<File = File> + AllocGlobal> PartyFiles<'a, R> {
    /// Creates the files of a party in a folder, without opening any. Later failures are noted in
    /// `failures`.
    ///
    /// # Errors
    /// AllocError where there is no memory for the names of the files.
    pub fn new(
        rt: &'a R,
        folder: &str,
        party: u8,
        failures: &'a Failures,
    ) -> Result<PartyFiles<'a, R>, AllocError> {
        let file = |slot| SlotFile::new(rt, folder, SlotName { party, slot }, failures);
        Ok(PartyFiles {
            folder: SlotFolder::new(rt, folder, failures)?,
            zero: file(Slot::Zero)?,
            one: file(Slot::One)?,
        })
    }

    /// Replaces the bytes of a slot's file, and makes them durable. Where its name may be new, the
    /// folder is synced too. Bytes that are not durable are taken back: the file is empty then.
    ///
    /// # Errors
    /// The system's error where the file can't be written or synced, or the folder can't be synced.
    /// An error also where the file was there before in this process and is missing, and where the
    /// folder is missing or another one. An error, too, where an earlier write could not be taken
    /// back.
    pub fn write(&mut self, slot: Slot, bytes: &[u8]) -> io::Result<()> {
        match slot {
            Slot::Zero => self.zero.write(&mut self.folder, bytes),
            Slot::One => self.one.write(&mut self.folder, bytes),
        }
    }

    /// Returns the bytes of a slot's file, up to the length of a saved text, after making them
    /// durable. Returns no bytes where the file is missing and was not there before in this
    /// process.
    ///
    /// # Errors
    /// The system's error where the file can't be opened, synced or read, or the folder can't be
    /// synced. An error also where the file was there before and is missing, and where the folder
    /// is missing or another one. An error, too, where an earlier write could not be taken back.
    pub fn read(&mut self, slot: Slot) -> io::Result<Vec<u8>> {
        match slot {
            Slot::Zero => self.zero.read(&mut self.folder),
            Slot::One => self.one.read(&mut self.folder),
        }
    }
}
