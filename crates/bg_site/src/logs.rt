//! The log of requests.

use crate::sites::Site;
use crate::stores::Store;
use bg_world::Keeper;
use bytes::Bytes;
use http::Request;
use http_server::Response;
use std::alloc::AllocError;

/// A log with this many bytes or more gets no more lines until the host takes it.
const MOST_LOG: usize = 65_536;

impl<K: Keeper + Drop, S: Store<K> + Drop> Site<K, S> {
    /// Logs a line for each request from now on.
    pub fn keep_log(&mut self) {
        self.log = Some(String::new(self.alloc));
    }

    /// Returns the lines of the requests since the last call: method, path and status. A path never
    /// contains a secret. Returns `None` if no log is kept.
    pub fn take_log(&mut self) -> Option<String> {
        let taken = self.log.take()?;
        self.log = Some(String::new(self.alloc));
        Some(taken)
    }

    /// Counts a request, and adds its line to the log, if one is kept and has room.
    pub(crate) fn note_request(&mut self, request: &Request<Bytes>, response: &Response) {
        self.counts.requests = self.counts.requests.saturating_add(1);
        if let Some(log) = &mut self.log {
            if log.len() < MOST_LOG {
                let _ = put_line(log, request, response.status.as_str());
            }
        }
    }
}

/// Adds the line of a request.
fn put_line(log: &mut String, request: &Request<Bytes>, status: &str) -> Result<(), AllocError> {
    log.push_str(request.method().as_str())?;
    log.push(' ')?;
    log.push_str(request.uri().path())?;
    log.push(' ')?;
    log.push_str(status)?;
    log.push('\n')
}
