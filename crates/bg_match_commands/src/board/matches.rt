//! A match of which pages are kept.

use crate::board::pages::{Pages, Place};
use crate::board::saved::SavedMatch;
use crate::board::stamps::FileStamp;
use crate::board::watched::WatchedMatch;
use bg_reports::Ending;

/// Where the entries of a match come from.
#[derive(Drop)]
pub(crate) enum Origin<'a> {
    /// The saved files of its referee.
    Saved(SavedMatch),
    /// The referee, which is asked for them.
    Watched(WatchedMatch<'a>),
}

/// A match, and what is known of it.
#[derive(Drop)]
pub(crate) struct BoardMatch<'a> {
    /// Its match file or its key file.
    pub(crate) path: String,
    /// The stamp of that file when it was read.
    pub(crate) stamp: Option<FileStamp>,
    pub(crate) pages: Pages,
    pub(crate) origin: Origin<'a>,
    /// Whether the last search found it.
    pub(crate) is_found: bool,
}

impl<'a> BoardMatch<'a> {
    /// Returns whether the match is as its file said when that had this stamp.
    pub(crate) fn is_current(&self, stamp: &Option<FileStamp>) -> bool {
        let is_cut_off = match &self.origin {
            Origin::Saved(_) => false,
            Origin::Watched(watched) => watched.is_cut_off(),
        };
        self.stamp == *stamp && !is_cut_off
    }

    /// Runs a round of the watcher of the match, if it has one.
    pub(crate) fn go_on(&mut self, rt: &HostRuntime) {
        if let Origin::Watched(watched) = &mut self.origin {
            watched.go_on(rt, self.path.as_str());
        }
    }

    /// Writes the pages of the match where they have something new. Returns whether they had.
    pub(crate) fn look(&mut self, rt: &HostRuntime, place: Place<'_>) -> Result<bool, Ending> {
        match &mut self.origin {
            Origin::Saved(saved) => saved.look(rt, place, &mut self.pages),
            Origin::Watched(watched) => watched.look(rt, place, &mut self.pages),
        }
    }
}
