//! A connection to a member of an etcd cluster: one request at a time, and its answer.

use bg_etcd::{Exchange, Fault};
use std::alloc::{AllocError, Global};
use std::io;
use std::io::ErrorKind;
use std::net::{TcpStream, ToSocketAddrs};
use std::time::Duration;

/// The most milliseconds that a connection attempt takes, and that one wait for an answer takes.
const A_WHILE: u64 = 500;

/// The most waits in a row without any new part of an answer. After one more, so after two seconds,
/// a member is given up.
const MOST_WAITS: u32 = 3;

/// The answer of a member: its status and its body.
pub type Answer = (u16, Vec<u8>);

/// A connection to a member. It is large, so it is boxed.
#[derive(Drop)]
pub struct Line {
    stream: TcpStream,
    exchange: Exchange,
    /// The request that the member has not answered yet.
    asked: Option<String>,
    /// The number of waits in a row that brought nothing of the answer.
    waits: u32,
}

impl Line {
    /// Connects to a member.
    pub fn open(rt: &HostRuntime, host: &str) -> Result<Box<Line>, Fault> {
        let stream = connected(rt, host)?;
        set_waits(&stream)?;
        Ok(Line::over(rt.alloc(), stream)?)
    }

    /// Returns the connection over a stream on which nothing was asked yet.
    fn over(alloc: Global, stream: TcpStream) -> Result<Box<Line>, AllocError> {
        let line = Line {
            stream,
            exchange: Exchange::new(alloc),
            asked: None,
            waits: 0,
        };
        Ok(Box::new(alloc, line)?)
    }

    /// Returns whether it waits for the answer to another request than this one.
    pub fn is_asked_else(&self, text: &str) -> bool {
        self.asked
            .as_ref()
            .is_some_and(|asked| asked.as_str() != text)
    }

    /// Returns whether another request can be sent.
    pub fn is_idle(&self) -> bool {
        self.exchange.is_idle()
    }

    /// Sends a request to the member, which is at `host`, unless it was sent already. Waits a while
    /// for the answer; returns `None` if it has not come by then.
    pub fn ask(
        &mut self,
        alloc: Global,
        host: &str,
        path: &str,
        text: &str,
    ) -> Result<Option<Answer>, Fault> {
        if self.asked.is_none() {
            self.asked = Some(String::from_str(alloc, text)?);
            self.exchange.ask(host, path, text)?;
        }
        match self.answered(alloc) {
            Err(Fault::Away(ErrorKind::WouldBlock)) if self.waits < MOST_WAITS => {
                self.waits = self.waits.saturating_add(1);
                Ok(None)
            }
            Err(fault) => Err(fault),
            Ok(answer) => {
                self.asked = None;
                self.waits = 0;
                Ok(Some(answer))
            }
        }
    }

    /// Sends what is left of the request, and waits for the answer.
    fn answered(&mut self, alloc: Global) -> Result<Answer, Fault> {
        for _ in 0..u64::MAX {
            if !self.exchange.wants_write() {
                break;
            }
            if self.exchange.write_to(&mut self.stream)? == 0 {
                return Err(Fault::Away(ErrorKind::WriteZero));
            }
        }
        for _ in 0..u64::MAX {
            if let Some((status, body)) = self.exchange.answer() {
                return Ok((status, body.to_vec(alloc)?));
            }
            if self.exchange.read_from(&mut self.stream)? == 0 {
                break;
            }
            self.waits = 0;
        }
        Err(Fault::Away(ErrorKind::UnexpectedEof))
    }
}

/// Connects to the first address of a host that can be reached.
fn connected(rt: &HostRuntime, host: &str) -> io::Result<TcpStream> {
    let mut reason = ErrorKind::NotFound;
    for address in host.to_socket_addrs(rt)? {
        match TcpStream::connect_timeout(rt, &address, Duration::from_millis(A_WHILE)) {
            Ok(stream) => return Ok(stream),
            Err(error) => reason = error.kind(),
        }
    }
    Err(io::Error::from(reason))
}

/// Makes a stream send at once, and wait only a while.
fn set_waits(stream: &TcpStream) -> io::Result<()> {
    let wait = Some(Duration::from_millis(A_WHILE));
    stream.set_nodelay(true)?;
    stream.set_read_timeout(wait)?;
    stream.set_write_timeout(wait)
}
