//! The times when each party was last heard.

use crate::sockets::notices::Presence;
use std::time::{Clock, Duration, Instant};

/// Number of seconds after it was last heard for which a party counts as there.
const MOST_SECONDS: u64 = 60;

/// Number of seconds after it was last heard for which a party counts as here, as the other seat is
/// told.
const MOST_SECONDS_HERE: u64 = 10;

/// Number of parties.
const PARTIES: usize = 256;

/// The times when each party was last heard, by a clock.
#[derive(Drop)]
pub(crate) struct HearingTimes<'a, C> {
    clock: &'a C,
    times: [Option<Instant>; PARTIES],
}

impl<'a, C: Clock> HearingTimes<'a, C> {
    /// Creates the times of parties of which none was heard yet.
    pub(crate) fn new(clock: &'a C) -> HearingTimes<'a, C> {
        HearingTimes {
            clock,
            times: [None; PARTIES],
        }
    }

    /// Notes that a party is heard now.
    pub(crate) fn note(&mut self, party: u8) {
        self.times[usize::from(party)] = Instant::now(self.clock).ok();
    }

    /// Returns whether a party was heard within the last minute.
    pub(crate) fn is_there(&self, party: u8) -> bool {
        self.is_heard_within(party, MOST_SECONDS)
    }

    /// Returns the presence of a party, as the other seat is told.
    pub(crate) fn presence(&self, party: u8) -> Presence {
        let heard = self.times[usize::from(party)];
        if heard.is_none() {
            Presence::Unheard
        } else if self.is_heard_within(party, MOST_SECONDS_HERE) {
            Presence::Here
        } else {
            Presence::Away
        }
    }

    /// Returns whether a party was heard within the last `seconds` seconds.
    fn is_heard_within(&self, party: u8, seconds: u64) -> bool {
        let (Some(heard), Ok(now)) = (self.times[usize::from(party)], Instant::now(self.clock))
        else {
            return false;
        };
        now.duration_since(heard) < Duration::from_secs(seconds)
    }
}
