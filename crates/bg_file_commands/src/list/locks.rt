//! The folders that are locked.

use std::os::unix::fs::MetadataExt;
use std::{fs, io};

/// The file in which the system lists its locks.
const LOCKS: &str = "/proc/locks";

/// The locks of the machine, as far as the system lists them.
#[derive(Drop)]
pub(crate) struct Locks {
    /// A line for each lock: its number, its kind, its holder, and then the device, the file and
    /// the part that it covers.
    told: String,
}

impl Locks {
    /// Reads the locks; there are none where the system doesn't list them.
    pub(crate) fn read(rt: &HostRuntime) -> Locks {
        let told = match fs::read_to_string(rt, LOCKS) {
            Ok(told) => told,
            Err(_) => String::new(rt.alloc()),
        };
        Locks { told }
    }

    /// Returns whether a folder is locked as processes lock theirs. It takes no lock itself.
    ///
    /// # Errors
    /// `OutOfMemory` alone.
    pub(crate) fn have(&self, rt: &HostRuntime, folder: &str) -> io::Result<bool> {
        let Ok(found) = fs::metadata(rt, folder) else {
            return Ok(false);
        };
        let (device, inode) = (found.dev(), found.ino());
        let (major, minor) = (major_of(device), minor_of(device));
        let place = format!(in rt.alloc(); " {major:02x}:{minor:02x}:{inode} 0 EOF")?;
        Ok(self.are_at(place.as_str()))
    }

    /// Returns whether processes have locked what these words name, as they lock their folders.
    fn are_at(&self, place: &str) -> bool {
        for line in self.told.lines() {
            if line.contains("FLOCK") && line.ends_with(place) {
                return true;
            }
        }
        false
    }
}

/// Returns the major part of the number of a device.
fn major_of(device: u64) -> u64 {
    ((device >> 32) & 0xffff_f000) | ((device >> 8) & 0xfff)
}

/// Returns the minor part of the number of a device.
fn minor_of(device: u64) -> u64 {
    ((device >> 12) & 0xffff_ff00) | (device & 0xff)
}
