//! The folder of a party's files.

use crate::failures::Failures;
use crate::failures::device_failures::FailedCall;
use crate::failures::first_failures::FirstFailures;
use crate::files::slot_names::SlotName;
use std::alloc::AllocError;
use std::fs::File;
use std::io::ErrorKind;
use std::os::unix::fs::MetadataExt;
use std::rt::Files;
use std::{fs, io};

/// The identity of a folder on this machine.
#[derive(Clone, Copy, PartialEq, Eq)]
struct Place {
    device: u64,
    inode: u64,
}

/// Returns the identity of the folder at a path.
fn place_of(rt: &impl Files<File = File>, path: &str) -> io::Result<Place> {
    let found = fs::metadata(rt, path)?;
    Ok(Place {
        device: found.dev(),
        inode: found.ino(),
    })
}

/// The error text for a folder or a file that was used before in this process and is missing.
pub(crate) const WAS_THERE: &str = "it was there before, and is missing now";

/// The folder of a party's files. What is at its path counts only while it is the folder that was
/// there at the first use. Neither a folder put in its place nor the empty one that an unmounted
/// disk leaves counts. Where there is none at the first use, it is waited for.
#[derive(Drop)]
pub(crate) struct SlotFolder<'a, R> {
    rt: &'a R,
    name: String,
    failures: &'a Failures,
    /// The identity of the folder at the first use.
    place: Option<Place>,
    finds: FirstFailures<'a>,
    syncs: FirstFailures<'a>,
}

impl<'a, R: Files<File = File> + AllocGlobal> SlotFolder<'a, R> {
    /// Creates the folder with this name, without opening it.
    pub(crate) fn new(
        rt: &'a R,
        name: &str,
        failures: &'a Failures,
    ) -> Result<SlotFolder<'a, R>, AllocError> {
        Ok(SlotFolder {
            rt,
            name: format!(in rt.alloc(); "{name}")?,
            failures,
            place: None,
            finds: FirstFailures::new(failures),
            syncs: FirstFailures::new(failures),
        })
    }

    /// Checks, before a file in the folder is used, that it is the same folder, and that its files
    /// still count.
    ///
    /// # Errors
    /// An error where another folder is at its path, or none, and where
    /// [`give_up`](SlotFolder::give_up) was called.
    pub(crate) fn check(&mut self) -> io::Result<()> {
        if self.failures.are_final() {
            return Err(io::Error::other("an earlier write could not be taken back"));
        }
        let answer = self.find();
        self.finds.after(FailedCall::Find, answer)
    }

    /// Checks that the folder of the first use is at its path. One that is missing at the first use
    /// is an error too, as it doesn't count as having empty files.
    fn find(&mut self) -> io::Result<()> {
        let found = match place_of(self.rt, &self.name) {
            Err(error) if error.kind() == ErrorKind::NotFound && self.place.is_some() => {
                return Err(io::Error::new(ErrorKind::NotFound, WAS_THERE));
            }
            answer => answer?,
        };
        if *self.place.get_or_insert(found) == found {
            return Ok(());
        }
        let why = "another folder stands there than at the start";
        Err(io::Error::new(ErrorKind::NotFound, why))
    }

    /// Makes the names in the folder durable.
    ///
    /// # Errors
    /// The system's error.
    pub(crate) fn sync(&mut self) -> io::Result<()> {
        self.syncs
            .after(FailedCall::Sync, sync_names(self.rt, &self.name))
    }

    /// Gives the files up, as a write to this one failed and could not be taken back. What the file
    /// has now may be lost with the next loss of power, so nothing may depend on it.
    pub(crate) fn give_up(&self, file: SlotName, error: io::Error) {
        self.failures.note(FailedCall::TakeBack(file), error);
        self.failures.make_final();
    }
}

/// Makes the names in a folder durable, where the file system supports that.
///
/// # Errors
/// The system's error where the folder can't be opened or synced.
pub(crate) fn sync_names(rt: &impl Files<File = File>, folder: &str) -> io::Result<()> {
    match File::open(rt, folder)?.sync_all() {
        Err(error) if error.kind() == ErrorKind::InvalidInput => Ok(()),
        answer => answer,
    }
}
