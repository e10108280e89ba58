//! The times when a process ticks.

use crate::waiting::{Ready, Waiting};
use std::io;
use std::time::{Clock, Duration, Instant};

/// The time between two ticks, in milliseconds.
const TICK: u64 = 100;

/// The time when the next tick is due.
#[derive(Drop)]
pub struct Ticking {
    next: Instant,
}

impl Ticking {
    /// Creates a schedule whose first tick is due at once.
    ///
    /// # Errors
    /// The system's error where it doesn't tell the time.
    pub fn new(rt: &impl Clock) -> io::Result<Ticking> {
        Ok(Ticking {
            next: Instant::now(rt)?,
        })
    }

    /// Returns whether a tick is due. If so, the next is due a tenth of a second from now.
    ///
    /// # Errors
    /// The system's error where it doesn't tell the time.
    pub fn is_due(&mut self, rt: &impl Clock) -> io::Result<bool> {
        let now = Instant::now(rt)?;
        if now < self.next {
            return Ok(false);
        }
        if let Some(next) = now.checked_add(Duration::from_millis(TICK)) {
            self.next = next;
        }
        Ok(true)
    }

    /// Waits for the next round. Returns what can be read then, and whether a tick is due in it.
    /// `empty_reads` is as of [`Waiting::wait`].
    ///
    /// # Errors
    /// The system's error where it doesn't wait, or doesn't tell the time.
    pub fn next_round(
        &mut self,
        rt: &impl Clock,
        waiting: &mut Waiting,
        empty_reads: u32,
    ) -> io::Result<(Ready, bool)> {
        let ready = self.wait(rt, waiting, empty_reads)?;
        let tick = self.is_due(rt)?;
        Ok((ready, tick))
    }

    /// Waits until something can be read, or the next tick is due. `empty_reads` is as of
    /// [`Waiting::wait`].
    ///
    /// # Errors
    /// The system's error where it doesn't wait, or doesn't tell the time.
    pub fn wait(
        &self,
        rt: &impl Clock,
        waiting: &mut Waiting,
        empty_reads: u32,
    ) -> io::Result<Ready> {
        let now = Instant::now(rt)?;
        waiting.wait(self.next.duration_since(now), empty_reads)
    }
}
