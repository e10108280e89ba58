//! Pauses between attempts to save.

use mio::{Events, Poll};
use std::io;
use std::time::Duration;

/// The milliseconds between two attempts to make the saves of a turn durable.
const BETWEEN_COMMITS: u64 = 100;

/// Pauses after a failed attempt to make the saves of a turn durable.
///
/// # Errors
/// The reason why the process can't wait.
pub(crate) fn pause(rt: &HostRuntime) -> io::Result<()> {
    let mut poll = Poll::new(rt)?;
    let mut events = Events::with_capacity(rt.alloc(), 1)?;
    poll.poll(&mut events, Some(Duration::from_millis(BETWEEN_COMMITS)))
}
