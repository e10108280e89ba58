//! The files that a watcher keeps for others.

use crate::messages::{allocated, failed_at};
use bg_match::{Phase, Record};
use bg_picture::{Numbering, PageWords, page_text};
use bg_reports::Ending;
use bg_system::publish;
use bg_text::{board_text, transcript_text};
use std::alloc::{AllocError, Global};
use std::fs::Metadata;
use std::os::unix::fs::MetadataExt;
use std::path::Path;
use std::{fs, io};

/// Number of ticks between two writes of the files, at least, since each write has the whole
/// transcript.
const PAUSE_TICKS: u32 = 10;

/// Number of seconds after which a browser asks for a newer page of a running match.
const PAGE_SECONDS: u16 = 5;

/// The files that are kept for others, and how.
#[derive(Clone, Copy)]
pub struct Outputs<'a> {
    /// The paths of the files: of the board as text, of the transcript, and of the page.
    pub board: Option<&'a str>,
    pub transcript: Option<&'a str>,
    pub page: Option<&'a str>,
    /// The title of the page, and the names in it.
    pub words: PageWords<'a>,
    /// The numbering of the page's points.
    pub numbering: Numbering,
    /// Whether the command goes on, after one report, until all files can be written again. If not,
    /// it ends at the first file that can't be written.
    pub goes_on: bool,
}

/// Returns whether two paths name one file, which may be missing. They are the same, or have the
/// same name in the same folder.
pub fn is_one_file(rt: &HostRuntime, one: &str, other: &str) -> bool {
    if one == other {
        return true;
    }
    let (one, other) = (Path::new(one), Path::new(other));
    match (folder_of(rt, one), folder_of(rt, other)) {
        (Ok(first), Ok(second)) => {
            one.file_name() == other.file_name()
                && first.dev() == second.dev()
                && first.ino() == second.ino()
        }
        _ => false,
    }
}

/// Returns the metadata of the folder of a path's file.
fn folder_of(rt: &HostRuntime, path: Path<'_>) -> io::Result<Metadata> {
    match path.parent() {
        Some(folder) if !folder.as_os_str().is_empty() => fs::metadata(rt, folder),
        _ => fs::metadata(rt, "."),
    }
}

/// The files that are kept for others.
#[derive(Drop)]
pub struct Published<'a> {
    outputs: Outputs<'a>,
    /// Number of ticks since they were written.
    age: u32,
    /// Whether there are entries that they lack.
    is_old: bool,
    /// Whether one could not be written the last time.
    is_failing: bool,
}

impl<'a> Published<'a> {
    /// Creates the state for these outputs, none of which is written yet.
    pub fn new(outputs: Outputs<'a>) -> Published<'a> {
        Published {
            outputs,
            age: PAUSE_TICKS,
            is_old: true,
            is_failing: false,
        }
    }

    /// Returns whether a file could not be written the last time.
    pub fn is_failing(&self) -> bool {
        self.is_failing
    }

    /// Rewrites the files if they are old and enough time has passed. Call it after each round:
    /// `news` says whether that brought entries, and `tick` whether a tick was due. Until the
    /// referee was heard, an existing file stays as it is, since it may have more. Ends as
    /// [`write`](Published::write).
    pub fn after_round(
        &mut self,
        rt: &HostRuntime,
        record: &Record,
        news: bool,
        tick: bool,
        is_heard: bool,
    ) -> Result<(), Ending> {
        self.is_old = self.is_old || news;
        if !tick {
            return Ok(());
        }
        self.age = self.age.saturating_add(1);
        if self.age < PAUSE_TICKS {
            return Ok(());
        }
        self.write(rt, record, is_heard)
    }

    /// Writes the record to the requested files, if they lack some of it. If the referee was not
    /// heard, it writes only those that don't exist. Ends with `Failed` where memory runs out, or a
    /// file can't be written and `goes_on` is not set.
    pub fn write(
        &mut self,
        rt: &HostRuntime,
        record: &Record,
        is_heard: bool,
    ) -> Result<(), Ending> {
        if !self.is_old {
            return Ok(());
        }
        let was_failing = self.is_failing;
        self.is_failing = false;
        let Outputs {
            board,
            transcript,
            page,
            ..
        } = self.outputs;
        if let Some(path) = writable(rt, board, is_heard) {
            let text = allocated(rt, board_text(rt.alloc(), &record.standing()))?;
            self.put(rt, path, &text, was_failing)?;
        }
        if let Some(path) = writable(rt, transcript, is_heard) {
            let text = allocated(rt, transcript_text(rt.alloc(), record))?;
            self.put(rt, path, &text, was_failing)?;
        }
        if let Some(path) = writable(rt, page, is_heard) {
            let text = allocated(rt, self.page_of(rt.alloc(), record))?;
            self.put(rt, path, &text, was_failing)?;
        }
        self.is_old = self.is_failing || !is_heard;
        self.age = 0;
        Ok(())
    }

    /// Writes a text to a file. Reports if it can't, unless another file, or any file the last
    /// time, could not be written either. After a report the command ends, unless `goes_on` is set.
    fn put(
        &mut self,
        rt: &HostRuntime,
        path: &str,
        text: &[u8],
        was_failing: bool,
    ) -> Result<(), Ending> {
        let Err(error) = publish(rt, path, text) else {
            return Ok(());
        };
        if was_failing || self.is_failing {
            self.is_failing = true;
            return Ok(());
        }
        self.is_failing = true;
        let ending = failed_at(rt, path, " could not be written", &error);
        if self.outputs.goes_on {
            Ok(())
        } else {
            Err(ending)
        }
    }

    /// Returns the page of a record. Until its match is over, browsers ask for a newer one.
    fn page_of(&self, alloc: Global, record: &Record) -> Result<Vec<u8>, AllocError> {
        let seconds = match record.standing().phase() {
            Phase::Over(_) => 0,
            _ => PAGE_SECONDS,
        };
        page_text(
            alloc,
            record,
            self.outputs.words,
            self.outputs.numbering,
            seconds,
        )
    }
}

/// Returns the path of a file that is kept, unless the file exists and the referee was not heard.
fn writable<'a>(rt: &HostRuntime, path: Option<&'a str>, is_heard: bool) -> Option<&'a str> {
    let path = path?;
    if is_heard || fs::metadata(rt, path).is_err() {
        Some(path)
    } else {
        None
    }
}
