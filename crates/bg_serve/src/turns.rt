//! The turns of a server: it hears its clients, and sends the results once the saves are durable.

use crate::crowds::Crowd;
use crate::limits::MOST_MADE;
use crate::quotas::Quota;
use bg_site::{Site, Store};
use bg_world::Keeper;
use std::alloc::AllocError;
use std::io;
use std::time::{Duration, Instant};

/// The progress of a server through its turns.
#[derive(Drop)]
pub(crate) struct Turns<'a> {
    rt: &'a HostRuntime,
    start: Instant,
    /// The second in which all clients were last checked, and the tenth of a second in which
    /// matches last ticked.
    looked: u64,
    ticked: u64,
    quota: Quota,
    /// The number of matches made up to the last turn, and that of matches that had ended by then.
    made: u64,
    pub(crate) ended: u64,
    /// The log lines of the requests of the last turn; `None` if no log is kept.
    pub(crate) log: Option<String>,
}

impl<'a> Turns<'a> {
    /// Creates the turns of a server that starts now.
    ///
    /// # Errors
    /// The reason why the clock can't be read.
    pub(crate) fn begin(rt: &'a HostRuntime) -> io::Result<Turns<'a>> {
        Ok(Turns {
            rt,
            start: Instant::now(rt)?,
            looked: 0,
            ticked: 0,
            quota: Quota::new(MOST_MADE),
            made: 0,
            ended: 0,
            log: None,
        })
    }

    /// Waits until there is something to do, and does it, but sends nothing yet. Returns the
    /// current second, counted from the start.
    ///
    /// # Errors
    /// The reason why the sockets can't be waited for or the clock can't be read; `OutOfMemory` if
    /// memory runs out.
    pub(crate) fn hear<K: Keeper + Drop, S: Store<K> + Drop>(
        &mut self,
        crowd: &mut Crowd<'_>,
        site: &mut Site<K, S>,
    ) -> io::Result<u64> {
        crowd.wait(site)?;
        let since = Instant::now(self.rt)?.duration_since(self.start);
        let now = since.as_secs();
        site.allow_making(self.quota.has_any(now));
        site.begin_minute(now / 60);
        crowd.accept(now);
        crowd.hear_ready(site, now)?;
        // Matches tick at most ten times a second.
        let tenth = tenths_of(since);
        if site.is_restless() && tenth != self.ticked {
            self.ticked = tenth;
            site.tick();
        }
        Ok(now)
    }

    /// Returns whether a new second has begun since the last call, and notes the current one.
    pub(crate) fn begins_second(&mut self, now: u64) -> bool {
        let begins = now != self.looked;
        self.looked = now;
        begins
    }

    /// Sends the clients the results of the turn, once its saves are durable. If a second has
    /// begun, checks all clients first. Takes the log of the requests. Returns the number of
    /// matches made.
    ///
    /// # Errors
    /// `AllocError` if memory runs out.
    pub(crate) fn tell<K: Keeper + Drop, S: Store<K> + Drop>(
        &mut self,
        crowd: &mut Crowd<'_>,
        site: &mut Site<K, S>,
        now: u64,
        is_second: bool,
    ) -> Result<u64, AllocError> {
        if is_second {
            crowd.look(site, now);
        }
        crowd.tell_heard(site, now)?;
        if site.has_news() {
            crowd.send_news(site, now)?;
        }
        self.ended = site.ended();
        self.log = site.take_log();
        Ok(self.note_made(site.made()))
    }

    /// Notes the number of matches made since the server started. Returns how many of them are new.
    fn note_made(&mut self, made: u64) -> u64 {
        let fresh = made.saturating_sub(self.made);
        self.made = made;
        self.quota.take(fresh);
        fresh
    }
}

/// Returns a duration in tenths of a second.
fn tenths_of(time: Duration) -> u64 {
    time.as_secs()
        .saturating_mul(10)
        .saturating_add(u64::from(time.subsec_millis() / 100))
}
