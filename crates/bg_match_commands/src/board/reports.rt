//! What is wrong with the files of matches, which is reported once.

use crate::watchers::NoWatcher;
use bg_console::{allocated, key_file_of, match_of, no_memory, say_of, say_why};
use bg_processes::{KeyFile, NamedMatch};
use bg_reports::Ending;
use bg_wire::FIRST_WATCHER;

/// The files and folders of which it was reported what is wrong.
#[derive(Drop)]
pub(crate) struct Reports<'a> {
    rt: &'a HostRuntime,
    reported: Vec<String>,
}

impl<'a> Reports<'a> {
    /// Creates the state before anything was reported.
    pub(crate) fn new(rt: &'a HostRuntime) -> Reports<'a> {
        Reports {
            rt,
            reported: Vec::new(rt.alloc()),
        }
    }

    /// Returns the contents of the match file at a path, if it is one. Reports once that it isn't.
    pub(crate) fn match_file_at(&mut self, path: &str) -> Result<Option<NamedMatch>, Ending> {
        if let Ok(Some(file)) = NamedMatch::read(self.rt, path) {
            return Ok(Some(file));
        }
        if self.is_news(path)? {
            let _ = match_of(self.rt, path);
        }
        Ok(None)
    }

    /// Returns the contents of the key file at a path, if it is one of those who watch. Reports
    /// once that it isn't.
    pub(crate) fn key_file_at(&mut self, path: &str) -> Result<Option<KeyFile>, Ending> {
        match KeyFile::read(self.rt, path) {
            Ok(Some(file)) if file.party == FIRST_WATCHER => return Ok(Some(file)),
            _ => {}
        }
        if self.is_news(path)? {
            let _ = key_file_of(self.rt, path, FIRST_WATCHER);
        }
        Ok(None)
    }

    /// Reports why a match has no watcher, unless something was reported of its key file.
    pub(crate) fn report(&mut self, path: &str, fault: &NoWatcher) -> Result<(), Ending> {
        if let NoWatcher::Reported(ending) = fault {
            return Err(*ending);
        }
        if self.is_news(path)? {
            match fault {
                NoWatcher::NoSocket(_, error) => {
                    say_why(self.rt, path, ": no socket for its watcher", error);
                }
                _ => say_of(self.rt, path, ": no port of a watcher is free"),
            }
        }
        Ok(())
    }

    /// Returns whether nothing was reported of a path yet, and notes that something is now.
    pub(crate) fn is_news(&mut self, path: &str) -> Result<bool, Ending> {
        for other in &self.reported {
            if other.as_str() == path {
                return Ok(false);
            }
        }
        let kept = allocated(self.rt, String::from_str(self.rt.alloc(), path))?;
        match self.reported.push(kept) {
            Ok(()) => Ok(true),
            Err(_) => Err(no_memory(self.rt)),
        }
    }

    /// Notes that nothing is wrong with a file.
    pub(crate) fn forget(&mut self, path: &str) {
        self.reported.retain(|other| other.as_str() != path);
    }
}
