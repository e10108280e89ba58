//! The exchange of requests and responses with an HTTP client.

use crate::limits::{MOST_BODY, MOST_HEAD};
use bg_pages::{add_common, refuse};
use bytes::Bytes;
use http::{Request, StatusCode};
use http_server::{Config, Connection, Reason, Response, Service, State};
use mio::net::TcpStream;
use std::alloc::{AllocError, Global};
use std::hash::RandomState;
use std::io;
use std::io::ErrorKind;

/// What stands for a request that was not read.
const UNREAD: &[u8] = b"GET / HTTP/1.1\r\nhost: a\r\nconnection: close\r\n\r\n";

/// The outcome of a read or a write.
#[derive(Clone, Copy)]
pub(crate) enum Transfer {
    /// Bytes were read or written.
    Bytes,
    /// The call was interrupted, and can be retried.
    Nothing,
    /// Nothing can be read or written now.
    Blocked,
    /// The client is gone.
    Gone,
}

/// Returns the outcome of a read or a write that should have moved at least one byte.
pub(crate) fn transfer_of(count: io::Result<usize>) -> Transfer {
    match count {
        Ok(0) => Transfer::Gone,
        Ok(_) => Transfer::Bytes,
        Err(error) if error.kind() == ErrorKind::WouldBlock => Transfer::Blocked,
        Err(error) if error.kind() == ErrorKind::Interrupted => Transfer::Nothing,
        Err(_) => Transfer::Gone,
    }
}

/// Reads once, if the connection wants more. Returns `false` if it doesn't or nothing can be read
/// now, and `None` if the client is gone.
pub(crate) fn read_http(connection: &mut Connection, stream: &mut TcpStream) -> Option<bool> {
    if !connection.wants_read() {
        return Some(false);
    }
    moved(connection.read_from(stream))
}

/// Writes once, if output is queued. Returns `false` if none is or nothing can be written now, and
/// `None` if the client is gone.
pub(crate) fn write_http(connection: &mut Connection, stream: &mut TcpStream) -> Option<bool> {
    if !connection.wants_write() {
        return Some(false);
    }
    match connection.write_to(stream) {
        Ok(0) => None,
        written => moved(written),
    }
}

/// Returns `false` if a read or a write would block, `None` if the client is gone, and `true`
/// otherwise.
fn moved(count: io::Result<usize>) -> Option<bool> {
    match count {
        Ok(_) => Some(true),
        Err(error) if error.kind() == ErrorKind::WouldBlock => Some(false),
        Err(error) if error.kind() == ErrorKind::Interrupted => Some(true),
        Err(_) => None,
    }
}

/// A service that refuses every request.
#[derive(Clone, Copy)]
pub(crate) struct Refusal {
    pub(crate) status: StatusCode,
    /// The body of the response.
    pub(crate) why: &'static str,
}

impl Service for Refusal {
    ghost answers = { λ _ _ _ _. Unit {0} };

    fn call(
        &mut self,
        _request: &Request<Bytes>,
        response: &mut Response,
    ) -> Result<(), AllocError> {
        add_common(response)?;
        refuse(response, self.status, self.why)
    }
}

/// Returns the connection of a client that has just connected, with the limits on what it may send
/// in a request.
///
/// # Errors
/// `AllocError` if memory runs out.
pub(crate) fn new_connection(
    alloc: Global,
    keys: RandomState,
) -> Result<Box<Connection>, AllocError> {
    let mut config = Config::default();
    config.limits.max_head_len = MOST_HEAD;
    config.limits.max_trailers_len = MOST_HEAD;
    config.max_body_len = MOST_BODY;
    config.read_size = 2048;
    Ok(Box::new(alloc, Connection::new(alloc, keys, config))?)
}

/// Replaces a connection that has refused a request by one that says why. Leaves it as it is if it
/// has refused none, if answers to earlier requests wait to be sent, or if memory runs out. Returns
/// whether it has refused one.
pub(crate) fn explain(alloc: Global, keys: RandomState, connection: &mut Box<Connection>) -> bool {
    let State::Closing(Reason::Refused(_)) = connection.state() else {
        return false;
    };
    if let Some(mut refusal) = refusal_of(connection.output()) {
        if let Some(told) = refusing(alloc, keys, &mut refusal) {
            *connection = told;
        }
    }
    true
}

/// Returns a connection that has refused a request. Returns `None` if memory runs out.
fn refusing(alloc: Global, keys: RandomState, refusal: &mut Refusal) -> Option<Box<Connection>> {
    let mut told = new_connection(alloc, keys).ok()?;
    let mut unread = UNREAD;
    told.read_from(&mut unread).ok()?;
    told.advance(refusal);
    Some(told)
}

/// Returns the refusal that has the status of an answer, and says why. Returns `None` if the answer
/// isn't one without a body, with which a connection refuses what it can't read, or if it follows
/// others.
fn refusal_of(answer: &[u8]) -> Option<Refusal> {
    let line = answer
        .strip_prefix(b"HTTP/1.1 ")?
        .strip_suffix(b"\r\nconnection: close\r\ncontent-length: 0\r\n\r\n")?;
    if line.contains(&b'\r') {
        return None;
    }
    let status = StatusCode::from_bytes(line.get(..3)?).ok()?;
    let why = match status.as_u16() {
        400 => {
            "this is no valid request of HTTP/1.1: end each line of its head in CR LF, name one host, and send a body as long as it says\n"
        }
        413 => "a body has at most 4096 bytes: send a shorter one\n",
        414 => "the first line of a request has at most 8192 bytes: send a shorter path\n",
        431 => { "the head of a request has at most 8192 bytes and 64 headers: send fewer\n" }
        501 => "a body in this coding can't be read: send it as it is, or in chunks\n",
        _ => return None,
    };
    Some(Refusal { status, why })
}
