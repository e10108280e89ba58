//! A match whose saved files are read.

use crate::board::pages::{Pages, Place};
use crate::board::stamps::{SavedFiles, Stamps};
use bg_console::{no_memory, say_of};
use bg_match::Record;
use bg_processes::{MatchFile, read_saved};
use bg_reports::Ending;
use bg_wire::{REFEREE, restore};
use std::alloc::{AllocError, Global};
use std::io;

/// Number of looks, after the last change of a match's files, at which they are read again while
/// the pages are kept. A file that is written while it is read may keep the time at which it was
/// looked at.
pub(crate) const LOOKS_AFTER_CHANGE: u8 = 2;

/// What is known of a match's saved files.
#[derive(Drop)]
pub(crate) struct SavedMatch {
    /// The folder of the referee.
    folder: String,
    table: MatchFile,
    saved: SavedFiles,
    /// The stamps of the saved files at the last look.
    stamps: Option<Stamps>,
    /// Number of looks after a change at which they are read again.
    looks_after_change: u8,
    /// Number of such looks that are left.
    looks_left: u8,
    /// Whether it was reported that they can't be read.
    is_reported: bool,
}

impl SavedMatch {
    /// Creates what is known before the files in a referee's folder were read, which are read again
    /// at so many looks after each change.
    ///
    /// # Errors
    /// `AllocError` where memory runs out.
    pub(crate) fn of(
        alloc: Global,
        folder: &str,
        table: MatchFile,
        looks_after_change: u8,
    ) -> Result<SavedMatch, AllocError> {
        Ok(SavedMatch {
            folder: String::from_str(alloc, folder)?,
            table,
            saved: SavedFiles::of(alloc, folder)?,
            stamps: None,
            looks_after_change,
            looks_left: 0,
            is_reported: false,
        })
    }

    /// Looks at the saved files, and writes the pages where these have something new. Returns
    /// whether they had.
    pub(crate) fn look(
        &mut self,
        rt: &HostRuntime,
        place: Place<'_>,
        pages: &mut Pages,
    ) -> Result<bool, Ending> {
        if !self.is_to_be_read(rt) {
            return Ok(false);
        }
        match record_of(rt, &self.table, &self.saved)? {
            Some(record) => {
                self.is_reported = false;
                pages.show(rt, place, &record)
            }
            None => {
                self.report(rt);
                Ok(false)
            }
        }
    }

    /// Reports once that the saved files can't be read, at the last look at them: a save that is
    /// being written can look torn.
    fn report(&mut self, rt: &HostRuntime) {
        if !self.is_reported && self.looks_left == 0 {
            self.is_reported = true;
            say_of(rt, self.folder.as_str(), " has saves that can't be read");
        }
    }

    /// Returns whether the saved files have changed since the last look, or shortly before it.
    fn is_to_be_read(&mut self, rt: &HostRuntime) -> bool {
        let stamps = Some(self.saved.stamps(rt));
        if self.stamps != stamps {
            self.stamps = stamps;
            self.looks_left = self.looks_after_change;
            return true;
        }
        let is_recent = self.looks_left > 0;
        self.looks_left = self.looks_left.saturating_sub(1);
        is_recent
    }
}

/// Returns the record that the saved files of a match hold, or nothing where they can't be read.
fn record_of(
    rt: &HostRuntime,
    table: &MatchFile,
    saved: &SavedFiles,
) -> Result<Option<Record>, Ending> {
    let Some(zero) = bytes_of(rt, saved.zero.as_str())? else {
        return Ok(None);
    };
    let Some(one) = bytes_of(rt, saved.one.as_str())? else {
        return Ok(None);
    };
    let alloc = rt.alloc();
    let (length, rules) = (table.terms.length, table.terms.rules);
    Ok(
        match restore(alloc, &zero, &one, REFEREE, table.id, length, rules) {
            Ok(Some(saved)) => Some(saved.log),
            Ok(None) => Record::new(alloc, table.id, length, rules).ok(),
            Err(_) => None,
        },
    )
}

/// Returns the bytes of a saved file, without any where it is missing, or nothing where it can't be
/// read.
fn bytes_of(rt: &HostRuntime, path: &str) -> Result<Option<Vec<u8>>, Ending> {
    match read_saved(rt, path) {
        Ok(bytes) => Ok(Some(bytes)),
        Err(error) if error.kind() == io::ErrorKind::OutOfMemory => Err(no_memory(rt)),
        Err(_) => Ok(None),
    }
}
