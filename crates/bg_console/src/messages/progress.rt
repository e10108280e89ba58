//! Reports on the progress of long work.

use crate::messages::says::say;
use std::fmt::Display;
use std::time::{Clock, Instant};

/// Number of seconds between two reports, at least.
const PAUSE: u64 = 1;

/// The time of the last report.
#[derive(Drop)]
pub struct Progress {
    told: Option<Instant>,
}

impl Progress {
    /// Creates the state in which nothing was reported yet. Unless `is_watched` is set, nothing
    /// ever is.
    pub fn start(rt: &impl Clock, is_watched: bool) -> Progress {
        let told = if is_watched {
            Instant::now(rt).ok()
        } else {
            None
        };
        Progress { told }
    }

    /// Reports on standard error how much of the work is done, and what it consists of, at most
    /// once a second.
    pub fn tell(&mut self, rt: &(impl Clock + Eprint), what: &str, done: u32, all: u32) {
        self.tell_of(rt, format_args!("{done} of {all} {what} are done"));
    }

    /// Reports this on standard error, at most once a second, and only if somebody watches.
    pub fn tell_of<D: Display + Drop>(&mut self, rt: &(impl Clock + Eprint), what: D) {
        let (Some(told), Ok(now)) = (self.told, Instant::now(rt)) else {
            return;
        };
        if now.duration_since(told).as_secs() >= PAUSE {
            say(rt, what);
            self.told = Some(now);
        }
    }
}
