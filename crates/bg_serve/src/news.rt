//! What other servers have changed in the matches, as a watch of the store reports it.

use crate::clusters::Cluster;
use bg_etcd::{Event, File, put_text, revision_in};
use bg_stores::{MATCH, Told, Trouble, Watch, parts_of};
use mio::Registry;

/// If no watch has reported anything for more than this many seconds, a pulse is written that it
/// should report.
const MOST_SILENT: u64 = 2;

/// A watch that is silent for more than this many seconds is given up.
const MOST_MUTE: u64 = 5;

/// If no watch has reported anything for more than this many seconds, the whole store is read.
const MOST_UNTOLD: u64 = 10;

/// The file of the pulse, which is written to see whether a watch reports it.
const PULSE: &str = ".pulse";

/// What the events of a watch say about a match.
#[derive(Drop)]
struct Seen {
    name: String,
    revision: u64,
    is_gone: bool,
}

impl<'a> Cluster<'a> {
    /// Returns the matches that other servers have changed, made or removed. For these, the folder
    /// has what the store has, or is about to get it.
    ///
    /// # Errors
    /// The reason why the store can't be asked, or the folder can't be written.
    pub(crate) fn news(&mut self, registry: &Registry, now: u64) -> Result<Vec<String>, Trouble> {
        if now.saturating_sub(self.told.max(self.pulsed)) > MOST_SILENT {
            self.pulsed = now;
            self.is_pulse_due = true;
        }
        if self.is_stale || self.is_untold(now) {
            return self.catch_up_once(now);
        }
        let Some(watch) = &mut self.watch else {
            if now != self.heard {
                self.begin_watch(registry, now);
            }
            return Ok(Vec::new(self.rt.alloc()));
        };
        match watch.told() {
            Ok(Told::Events(Some(events))) => {
                self.heard = now;
                self.told = now;
                // A member confirms a new watch even if most other members are down.
                self.members.is_answering |= !events.is_empty();
                self.take_events(events)
            }
            Ok(Told::Events(None)) if now.saturating_sub(self.heard) <= MOST_MUTE => {
                Ok(Vec::new(self.rt.alloc()))
            }
            told => {
                self.is_stale = matches!(told, Ok(Told::Ended));
                self.end_watch();
                Ok(Vec::new(self.rt.alloc()))
            }
        }
    }

    /// Writes the pulse, which shows whether the watch reports it, and whether the store answers.
    pub(crate) fn put_pulse(&mut self) -> Result<(), Trouble> {
        let text = put_text(self.rt.alloc(), PULSE, b"")?;
        let (status, body) = self.ask_awhile("/v3/kv/put", text.as_str())?;
        let revision = revision_in(self.rt.alloc(), status, &body)?;
        self.is_pulse_due = false;
        self.check_age(revision)
    }

    /// Reads everything in the store, at most once a second.
    fn catch_up_once(&mut self, now: u64) -> Result<Vec<String>, Trouble> {
        if now == self.heard {
            return Ok(Vec::new(self.rt.alloc()));
        }
        self.heard = now;
        let names = self.catch_up()?;
        self.told = now;
        Ok(names)
    }

    /// Returns whether no watch has reported anything for more than `MOST_UNTOLD` seconds.
    pub(crate) fn is_untold(&self, now: u64) -> bool {
        now.saturating_sub(self.told) > MOST_UNTOLD
    }

    /// Begins a watch of the changes after the latest known revision. If that fails, another member
    /// is tried in the next second.
    fn begin_watch(&mut self, registry: &Registry, now: u64) {
        self.heard = now;
        let next = self.watched.saturating_add(1);
        let (host, round) = (
            self.members.host_at(self.watch_at),
            self.members.round_of(self.watch_at),
        );
        match Watch::begin(self.rt, registry, (host, round), next) {
            Ok(watch) => self.watch = Some(watch),
            Err(_) => self.end_watch(),
        }
    }

    /// Gives up the watch. The next one is on another member.
    fn end_watch(&mut self) {
        self.watch = None;
        self.watch_at = self.watch_at.wrapping_add(1);
    }

    /// Applies the changes that a watch has reported; returns the matches that they are about.
    fn take_events(&mut self, events: Vec<Event>) -> Result<Vec<String>, Trouble> {
        // If anything fails before the end, the whole store is read again.
        self.is_stale = true;
        let mut all: Vec<Seen> = Vec::new(self.rt.alloc());
        for event in events {
            self.watched = self.watched.max(event.revision);
            if self.note_event(&event, &mut all)? {
                self.take_event(event)?;
            }
        }
        let mut names = Vec::new(self.rt.alloc());
        for seen in all {
            if seen.is_gone {
                self.known.forget(seen.name.as_str());
            } else {
                self.known.note(seen.name.as_str(), seen.revision)?;
            }
            names.push(seen.name)?;
        }
        self.is_stale = false;
        Ok(names)
    }

    /// Notes what an event says about a match. Returns false if the event is known already. It may
    /// be this server's own, such as the removal of a match that was restored since.
    fn note_event(&self, event: &Event, all: &mut Vec<Seen>) -> Result<bool, Trouble> {
        let Some((folder, file)) = parts_of(event.name.as_str()) else {
            return Ok(false);
        };
        let is_new = event.revision > self.known.of(folder).max(self.removed.of(folder));
        if is_new {
            let is_heart = file == MATCH;
            let is_gone = is_heart && event.text.is_none();
            self.note_seen(folder, event.revision, is_heart, is_gone, all)?;
        }
        Ok(is_new)
    }

    /// Applies a change.
    fn take_event(&mut self, event: Event) -> Result<(), Trouble> {
        let Event {
            name,
            text,
            revision,
        } = event;
        match text {
            Some(text) => self.place(File {
                name,
                text,
                revision,
            }),
            None => match parts_of(name.as_str()) {
                Some((folder, file)) if file == MATCH => self.remove(folder),
                _ => Ok(()),
            },
        }
    }

    /// Notes what an event says about a match.
    fn note_seen(
        &self,
        folder: &str,
        revision: u64,
        is_heart: bool,
        is_gone: bool,
        all: &mut Vec<Seen>,
    ) -> Result<(), Trouble> {
        for seen in all.iter_mut() {
            if seen.name.as_str() == folder {
                seen.revision = revision;
                if is_heart {
                    seen.is_gone = is_gone;
                }
                return Ok(());
            }
        }
        all.push(Seen {
            name: String::from_str(self.rt.alloc(), folder)?,
            revision,
            is_gone,
        })?;
        Ok(())
    }
}
