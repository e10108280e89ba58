//! A failed call of a device, and the words for it.

use crate::files::slot_names::SlotName;
use crate::printable::Printable;
use std::fmt::{Display, Formatter, Write};
use std::{fmt, io};

/// A call of a device, named by its purpose.
#[derive(Clone, Copy, Debug, PartialEq, Eq)]
pub enum FailedCall {
    /// Opening a socket for a party.
    Open { party: u8 },
    /// Sending a datagram to a party.
    Send { to: u8 },
    /// Reading the socket of a party.
    Receive { party: u8 },
    /// Writing the file of a slot.
    Write(SlotName),
    /// Reading the file of a slot.
    Read(SlotName),
    /// Syncing the folder of the files.
    Sync,
    /// Finding the folder of the files where it was.
    Find,
    /// Emptying the file of a slot, as what was written to it could not be synced.
    TakeBack(SlotName),
}

/// A call of a device that failed, and the system's reason.
#[derive(Clone, Copy, Debug)]
pub struct DeviceFailure {
    /// The call that failed.
    pub call: FailedCall,
    /// The system's reason.
    pub error: io::Error,
}

impl DeviceFailure {
    /// Returns the failure in words, where the files of the devices are in this folder
    /// (docs/OPERATING.md, "Messages"). No folder is named for a socket.
    pub fn in_folder(self, folder: &str) -> FailureText<'_> {
        FailureText {
            failure: self,
            folder,
        }
    }
}

/// A failure in words, with the name of the file or the folder and the system's words for the
/// reason.
#[derive(Clone, Copy)]
pub struct FailureText<'a> {
    failure: DeviceFailure,
    folder: &'a str,
}

impl<'a> Display for FailureText<'a> {
    fn fmt<W: Write>(&self, f: &mut Formatter<W>) -> fmt::Result {
        match self.failure.call {
            FailedCall::Open { party } => write!(f, "no socket for party {party} on 127.0.0.1")?,
            FailedCall::Send { to } => write!(f, "no datagram could be sent to party {to}")?,
            FailedCall::Receive { party } => {
                write!(f, "the socket of party {party} could not be read")?
            }
            FailedCall::Write(file) => self.put_file(f, file, "could not be written")?,
            FailedCall::Read(file) => self.put_file(f, file, "could not be read")?,
            FailedCall::TakeBack(file) => {
                self.put_file(f, file, "could not be emptied after a sync that failed")?
            }
            FailedCall::Sync => self.put_folder(f, "could not be synced")?,
            FailedCall::Find => self.put_folder(f, "can't be found")?,
        }
        write!(f, ": {}", self.failure.error)
    }
}

impl<'a> FailureText<'a> {
    /// Writes the path of a file in the folder, and what failed.
    fn put_file<W: Write>(&self, f: &mut Formatter<W>, file: SlotName, what: &str) -> fmt::Result {
        write!(f, "{}/{file} {what}", Printable(self.folder))
    }

    /// Writes the path of the folder, and what failed.
    fn put_folder<W: Write>(&self, f: &mut Formatter<W>, what: &str) -> fmt::Result {
        write!(f, "{} {what}", Printable(self.folder))
    }
}
