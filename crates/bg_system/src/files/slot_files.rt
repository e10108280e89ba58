//! The file of a slot.

use crate::failures::Failures;
use crate::failures::device_failures::FailedCall;
use crate::failures::first_failures::FirstFailures;
use crate::files::plain_files::check_plain;
use crate::files::saved_bytes;
use crate::files::slot_folders::{SlotFolder, WAS_THERE};
use crate::files::slot_names::SlotName;
use crate::files::whole_files::OWNER_ALONE;
use std::alloc::AllocError;
use std::fs::{File, OpenOptions};
use std::io;
use std::io::{ErrorKind, Write};
use std::os::unix::fs::OpenOptionsExt;
use std::rt::Files;

/// The file of a slot (docs/OPERATING.md, "Files"). The bytes that it gives are durable, and bytes
/// that could not be made durable don't count.
#[derive(Drop)]
pub(crate) struct SlotFile<'a, R> {
    rt: &'a R,
    name: SlotName,
    path: String,
    /// Whether the file was there when it was last read or written. If so, a missing file doesn't
    /// count as empty.
    is_known: bool,
    /// Whether the folder was synced since the file was first read or written, so that its name is
    /// durable too.
    is_entered: bool,
    writes: FirstFailures<'a>,
    syncs: FirstFailures<'a>,
    reads: FirstFailures<'a>,
}

impl<'a, R: Files<File = File> + AllocGlobal> SlotFile<'a, R> {
    /// Creates the file with this name in a folder, without opening it.
    pub(crate) fn new(
        rt: &'a R,
        folder: &str,
        name: SlotName,
        failures: &'a Failures,
    ) -> Result<SlotFile<'a, R>, AllocError> {
        Ok(SlotFile {
            rt,
            name,
            path: format!(in rt.alloc(); "{folder}/{name}")?,
            is_known: false,
            is_entered: false,
            writes: FirstFailures::new(failures),
            syncs: FirstFailures::new(failures),
            reads: FirstFailures::new(failures),
        })
    }

    /// Replaces the bytes of the file, and makes them durable, with its name where that may be new.
    /// Empties the file again where the device didn't take the bytes.
    pub(crate) fn write(&mut self, folder: &mut SlotFolder<'a, R>, bytes: &[u8]) -> io::Result<()> {
        folder.check()?;
        let put = self.put(bytes);
        let file = self.writes.after(FailedCall::Write(self.name), put)?;
        let lasting = self.sync(folder, &file);
        if lasting.is_err() {
            self.take_back(folder, &file);
        }
        lasting
    }

    /// Creates or empties the file, and writes bytes to it.
    fn put(&mut self, bytes: &[u8]) -> io::Result<File> {
        let mut file = self.emptied()?;
        file.write_all(bytes)?;
        Ok(file)
    }

    /// Makes the contents of the file durable, with its name where that may be new.
    fn sync(&mut self, folder: &mut SlotFolder<'a, R>, file: &File) -> io::Result<()> {
        self.syncs
            .after(FailedCall::Write(self.name), file.sync_all())?;
        self.enter(folder)
    }

    /// Creates or empties the file. One that was there before is not created anew.
    fn emptied(&mut self) -> io::Result<File> {
        self.check_plain()?;
        let file = OpenOptions::new()
            .write(true)
            .create(!self.is_known)
            .truncate(true)
            .mode(OWNER_ALONE)
            .open(self.rt, self.path.as_str())?;
        self.is_known = true;
        Ok(file)
    }

    /// Empties the file, whose bytes may not be durable, so that nothing depends on them.
    fn take_back(&self, folder: &SlotFolder<'a, R>, file: &File) {
        let answer = match file.set_len(0) {
            Ok(()) => file.sync_all(),
            Err(error) => Err(error),
        };
        if let Err(error) = answer {
            folder.give_up(self.name, error);
        }
    }

    /// Syncs the folder where the file's name may not be durable yet.
    fn enter(&mut self, folder: &mut SlotFolder<'a, R>) -> io::Result<()> {
        if !self.is_entered {
            folder.sync()?;
            self.is_entered = true;
        }
        Ok(())
    }

    /// Returns the bytes of the file; none where it is missing and was never there. They are made
    /// durable first, as a process that was killed between a write and its sync leaves bytes that
    /// may not last.
    pub(crate) fn read(&mut self, folder: &mut SlotFolder<'a, R>) -> io::Result<Vec<u8>> {
        folder.check()?;
        let bytes = self.synced_bytes();
        let bytes = self.reads.after(FailedCall::Read(self.name), bytes)?;
        if self.is_known {
            self.enter(folder)?;
        }
        Ok(bytes)
    }

    /// Returns the bytes of the file after a sync; none where it is missing and was never there.
    fn synced_bytes(&mut self) -> io::Result<Vec<u8>> {
        match self.opened()? {
            None => Ok(Vec::new(self.rt.alloc())),
            Some(file) => {
                file.sync_all()?;
                saved_bytes(self.rt.alloc(), file)
            }
        }
    }

    /// Opens the file for reading. Returns `None` where it is missing and was never there.
    fn opened(&mut self) -> io::Result<Option<File>> {
        self.check_plain()?;
        match File::open(self.rt, self.path.as_str()) {
            Ok(file) => {
                self.is_known = true;
                Ok(Some(file))
            }
            Err(error) if error.kind() == ErrorKind::NotFound && !self.is_known => Ok(None),
            Err(error) => Err(error),
        }
    }

    /// Refuses what isn't a plain file. A missing file is refused where it was there before.
    fn check_plain(&self) -> io::Result<()> {
        match check_plain(self.rt, &self.path) {
            Err(error) if error.kind() == ErrorKind::NotFound && self.is_known => {
                Err(io::Error::new(ErrorKind::NotFound, WAS_THERE))
            }
            Err(error) if error.kind() == ErrorKind::NotFound => Ok(()),
            answer => answer,
        }
    }
}
