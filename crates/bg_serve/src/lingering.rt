//! Clients whose request was refused before all of it was read: the rest is read and dropped.
//!
//! A socket that is closed while bytes of its client are unread resets the connection, and the client
//! may lose the answer, or fail while it still sends. So only the sending side is closed at first.

use crate::clients::Client;
use crate::exchanges::{Transfer, transfer_of};
use crate::limits::{HEAD_SECONDS, LINGER_SECONDS, MOST_READS};
use bg_site::Step;
use std::io::Read;
use std::net::Shutdown;

/// The number of bytes that are dropped by one read, at most.
const DROPPED: usize = 2048;

impl Client {
    /// Ends the sending side of a connection whose request was refused, so that the client sees the
    /// end of the answer. Any other client is gone.
    pub(crate) fn linger(&mut self) -> Step {
        self.is_lingering = self.is_refused && self.stream.shutdown(Shutdown::Write).is_ok();
        if self.is_lingering {
            Step::More
        } else {
            Step::Gone
        }
    }

    /// Reads and drops what still arrives of a refused request.
    pub(crate) fn drop_input(&mut self) -> Step {
        let mut dropped = [0; DROPPED];
        for _ in 0..MOST_READS {
            match transfer_of(self.stream.read(&mut dropped)) {
                Transfer::Bytes | Transfer::Nothing => {}
                Transfer::Blocked => return Step::Waits,
                Transfer::Gone => return Step::Gone,
            }
        }
        Step::More
    }

    /// Returns the seconds that a client of HTTP has for its next request, or for the rest of a
    /// refused one.
    pub(crate) fn most_seconds(&self) -> u64 {
        if self.is_lingering {
            LINGER_SECONDS
        } else {
            HEAD_SECONDS
        }
    }
}
