//! Reading all that a store has, at the start of a server and when it may have missed changes.

use crate::clusters::Cluster;
use bg_etcd::{File, Page, page_in, page_text};
use bg_stores::{Trouble, parts_of};
use std::alloc::Global;
use std::mem;

/// How far all matches have been read, and what was found.
#[derive(Drop)]
struct Reading {
    /// The name of the last file that was read.
    last: String,
    /// The match that is being read, and those of its files that were read.
    folder: String,
    files: Vec<File>,
    /// The matches that were unknown or out of date.
    changed: Vec<String>,
    /// The revision at which everything is read; 0 before the first page.
    revision: u64,
}

impl Reading {
    /// Returns a reading that has not begun.
    fn new(alloc: Global) -> Reading {
        Reading {
            last: String::new(alloc),
            folder: String::new(alloc),
            files: Vec::new(alloc),
            changed: Vec::new(alloc),
            revision: 0,
        }
    }
}

impl<'a> Cluster<'a> {
    /// Returns the next files after the name `behind`, as they were at a revision; 0 is the newest.
    pub(crate) fn page(&mut self, behind: &str, revision: u64) -> Result<Page, Trouble> {
        let alloc = self.rt.alloc();
        let text = page_text(alloc, behind, revision)?;
        let (status, body) = self.ask("/v3/kv/range", text.as_str())?;
        Ok(page_in(alloc, status, &body)?)
    }

    /// Reads all matches of the store at one revision, and takes in those that were unknown or out
    /// of date. Returns these and those that are gone. The next watch starts after that revision.
    ///
    /// # Errors
    /// The reason why the store can't be read or the folder can't be written; `Older` if the store
    /// is older than what was read of it before.
    pub(crate) fn catch_up(&mut self) -> Result<Vec<String>, Trouble> {
        let mut reading = Reading::new(self.rt.alloc());
        self.read_all(&mut reading)?;
        self.watched = reading.revision;
        self.watch = None;
        self.is_stale = false;
        Ok(reading.changed)
    }

    /// Reads all pages, and takes in the matches that have changed or are gone.
    fn read_all(&mut self, reading: &mut Reading) -> Result<(), Trouble> {
        for _ in 0..u64::MAX {
            if !self.read_page(reading)? {
                break;
            }
        }
        self.end_folder(reading)?;
        self.remove_gone(reading)
    }

    /// Reads the next page. Returns whether there are more.
    fn read_page(&mut self, reading: &mut Reading) -> Result<bool, Trouble> {
        let page = self.page(reading.last.as_str(), reading.revision)?;
        let has_more = page.has_more && !page.files.is_empty();
        self.note_page(reading, &page)?;
        for file in page.files {
            if self.turn_to(reading, file.name.as_str())? {
                reading.files.push(file)?;
            }
        }
        self.follow_now();
        Ok(has_more)
    }

    /// Notes the revision of the first page, and the name behind which the page after this one
    /// begins.
    fn note_page(&mut self, reading: &mut Reading, page: &Page) -> Result<(), Trouble> {
        if reading.revision == 0 {
            self.check_age(page.revision)?;
            reading.revision = page.revision;
        }
        if let Some(file) = page.files.last() {
            reading.last = String::from_str(self.rt.alloc(), file.name.as_str())?;
        }
        Ok(())
    }

    /// Turns to the match of a file. If that isn't the current one, the current one is complete.
    /// Returns false if the file belongs to no match.
    fn turn_to(&mut self, reading: &mut Reading, file: &str) -> Result<bool, Trouble> {
        let Some((folder, _)) = parts_of(file) else {
            return Ok(false);
        };
        if folder != reading.folder.as_str() {
            self.end_folder(reading)?;
            reading.folder = String::from_str(self.rt.alloc(), folder)?;
        }
        Ok(true)
    }

    /// Takes in the match whose files are complete, unless its newest revision is known already.
    fn end_folder(&mut self, reading: &mut Reading) -> Result<(), Trouble> {
        if reading.files.is_empty() {
            return Ok(());
        }
        let alloc = self.rt.alloc();
        let files = mem::replace(&mut reading.files, Vec::new(alloc));
        let name = reading.folder.as_str();
        let newest = files.iter().map(|file| file.revision).max().unwrap_or(0);
        if newest <= self.known.of(name) {
            return Ok(self.known.note(name, reading.revision)?);
        }
        self.take_in(name, files, reading.revision)?;
        let name = String::from_str(alloc, name)?;
        Ok(reading.changed.push(name)?)
    }

    /// Removes the matches of which the store has nothing.
    fn remove_gone(&mut self, reading: &mut Reading) -> Result<(), Trouble> {
        for name in self.known.older_than(reading.revision)? {
            let no_files = Vec::new(self.rt.alloc());
            self.take_in(name.as_str(), no_files, reading.revision)?;
            reading.changed.push(name)?;
        }
        Ok(())
    }
}
