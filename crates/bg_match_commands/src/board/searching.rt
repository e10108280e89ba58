//! Searching for the matches of which pages are kept.

use crate::board::matches::{BoardMatch, Origin};
use crate::board::names::{free_name, place_of_key_file};
use crate::board::pages::Pages;
use crate::board::reports::Reports;
use crate::board::saved::{LOOKS_AFTER_CHANGE, SavedMatch};
use crate::board::stamps::{FileStamp, stamp_of};
use crate::board::watched::WatchedMatch;
use crate::watchers::begin_watcher;
use bg_console::{
    Finding, MatchBelow, NO_MATCH, allocated, matches_below, no_memory, path_in, say_of, say_why,
};
use bg_processes::{Failures, NamedMatch, Names};
use bg_reports::Ending;
use std::fs;

/// The message behind the name of a key file where each file is written once.
const LEFT_OUT: &str = " is left out: a match is watched by its key file only without --once";

/// The file of a match, as a search met it.
#[derive(Clone, Copy)]
struct Met<'p> {
    /// The folder that was searched, and the place that was found there, by which the match is
    /// named.
    searched: &'p str,
    place: &'p str,
    /// The file, and its stamp before it was read.
    path: &'p str,
    stamp: Option<FileStamp>,
}

/// A search for matches, which is run again and again.
#[derive(Drop)]
pub(crate) struct Search<'a, 'm, 's> {
    rt: &'a HostRuntime,
    /// The sockets of watchers note their failures here.
    failures: &'a Failures,
    /// The folders that are searched, and key files.
    places: &'m [&'s str],
    /// Whether each file is written once, so that no match is watched.
    is_once: bool,
    /// What was reported of files and folders.
    reports: Reports<'a>,
    /// Whether the current run has found another match, or one that is gone or changed.
    is_changed: bool,
    /// Whether a folder could not be read.
    pub(crate) has_unread: bool,
}

impl<'a, 'm, 's> Search<'a, 'm, 's> {
    /// Creates a search in these folders, and for the matches of these key files.
    pub(crate) fn new(
        rt: &'a HostRuntime,
        failures: &'a Failures,
        places: &'m [&'s str],
        is_once: bool,
    ) -> Search<'a, 'm, 's> {
        Search {
            rt,
            failures,
            places,
            is_once,
            reports: Reports::new(rt),
            is_changed: false,
            has_unread: false,
        }
    }

    /// Searches for matches. Keeps what is known of those that are still there, sorted by the paths
    /// of their files. Reports once what is wrong with a file or a folder. Returns whether the
    /// matches are others than before.
    pub(crate) fn run(&mut self, matches: &mut Vec<BoardMatch<'a>>) -> Result<bool, Ending> {
        self.is_changed = false;
        for one in matches.iter_mut() {
            one.is_found = false;
        }
        for place in self.places.iter().copied() {
            let searched = if is_file(self.rt, place) {
                self.meet_key_file(place_of_key_file(place), place, matches)
            } else {
                self.search_in(place, matches)
            };
            searched?;
        }
        let known = matches.len();
        matches.retain(|one| one.is_found);
        if self.is_changed {
            let sorted = matches.sort_by(|one: &BoardMatch, other: &BoardMatch| one
                .path
                .as_str()
                .cmp(other.path.as_str()));
            allocated(self.rt, sorted)?;
        }
        Ok(self.is_changed || matches.len() < known)
    }

    /// Searches for matches in a folder and below it.
    fn search_in(&mut self, folder: &str, matches: &mut Vec<BoardMatch<'a>>) -> Result<(), Ending> {
        let Ok(found) = matches_below(self.rt, folder) else {
            return Err(no_memory(self.rt));
        };
        if found.is_empty() && self.reports.is_news(folder)? {
            say_of(self.rt, folder, NO_MATCH);
        }
        for place in &found {
            self.meet(folder, place, matches)?;
        }
        Ok(())
    }

    /// Meets what was found in a folder that was searched.
    fn meet(
        &mut self,
        searched: &str,
        place: &MatchBelow,
        matches: &mut Vec<BoardMatch<'a>>,
    ) -> Result<(), Ending> {
        let folder = place.path.as_str();
        match &place.finding {
            Finding::Match => self.meet_match(searched, folder, matches),
            Finding::WatchKey => {
                let path = path_in(self.rt.alloc(), folder, "match-watch");
                self.meet_key_file(searched, allocated(self.rt, path)?.as_str(), matches)
            }
            Finding::Unread(error) => {
                self.has_unread = true;
                if self.reports.is_news(folder)? {
                    say_why(self.rt, folder, " can't be read", error);
                }
                Ok(())
            }
        }
    }

    /// Meets a referee's folder, whose match is kept unless its match file is none.
    fn meet_match(
        &mut self,
        searched: &str,
        folder: &str,
        matches: &mut Vec<BoardMatch<'a>>,
    ) -> Result<(), Ending> {
        let path = allocated(self.rt, path_in(self.rt.alloc(), folder, "match"))?;
        let met = self.met(searched, folder, path.as_str());
        if self.is_known(met, matches) {
            return Ok(());
        }
        let Some(NamedMatch { table, names }) = self.reports.match_file_at(met.path)? else {
            return Ok(());
        };
        let looks = if self.is_once { 0 } else { LOOKS_AFTER_CHANGE };
        let saved = SavedMatch::of(self.rt.alloc(), folder, table, looks);
        let origin = Origin::Saved(allocated(self.rt, saved)?);
        self.add(met, table.id, names, origin, matches)
    }

    /// Meets a key file, whose match is kept unless it is none of those who watch.
    fn meet_key_file(
        &mut self,
        searched: &str,
        path: &str,
        matches: &mut Vec<BoardMatch<'a>>,
    ) -> Result<(), Ending> {
        if self.is_once {
            if self.reports.is_news(path)? {
                say_of(self.rt, path, LEFT_OUT);
            }
            return Ok(());
        }
        let met = self.met(searched, place_of_key_file(path), path);
        if self.is_known(met, matches) {
            return Ok(());
        }
        let Some(file) = self.reports.key_file_at(path)? else {
            return Ok(());
        };
        match begin_watcher(self.rt, path, &file.table, &file.key, self.failures) {
            Ok((_, process)) => {
                let origin = Origin::Watched(WatchedMatch::new(process));
                self.add(met, file.table.id, file.names, origin, matches)
            }
            Err(fault) => self.reports.report(path, &fault),
        }
    }

    /// Returns a file that was met, as it is now.
    fn met<'p>(&self, searched: &'p str, place: &'p str, path: &'p str) -> Met<'p> {
        Met {
            searched,
            place,
            path,
            stamp: stamp_of(self.rt, path),
        }
    }

    /// Returns whether the match of a file is known as the file is now, and notes that it was
    /// found. Forgets a match whose file has changed, or whose watcher can't go on.
    fn is_known(&mut self, met: Met<'_>, matches: &mut Vec<BoardMatch<'a>>) -> bool {
        for one in matches.iter_mut() {
            if one.path.as_str() == met.path && one.is_current(&met.stamp) {
                one.is_found = true;
                return true;
            }
        }
        let known = matches.len();
        matches.retain(|one| one.path.as_str() != met.path);
        self.is_changed = self.is_changed || matches.len() < known;
        false
    }

    /// Adds the match with this number, whose file was met. Its pages have a name that those of the
    /// other matches don't have.
    fn add(
        &mut self,
        met: Met<'_>,
        id: u64,
        names: Names,
        origin: Origin<'a>,
        matches: &mut Vec<BoardMatch<'a>>,
    ) -> Result<(), Ending> {
        let alloc = self.rt.alloc();
        let name = free_name(alloc, met.searched, met.place, id, matches);
        let name = allocated(self.rt, name)?;
        let one = BoardMatch {
            path: allocated(self.rt, String::from_str(alloc, met.path))?,
            stamp: met.stamp,
            pages: Pages::new(name, names),
            origin,
            is_found: true,
        };
        self.reports.forget(met.path);
        self.is_changed = true;
        match matches.push(one) {
            Ok(()) => Ok(()),
            Err(_) => Err(no_memory(self.rt)),
        }
    }
}

/// Returns whether a path is that of a file, as of a key file.
fn is_file(rt: &HostRuntime, path: &str) -> bool {
    fs::metadata(rt, path).is_ok_and(|found| found.is_file())
}
