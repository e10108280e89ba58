//! The watch of a store: a connection on which a member reports changes.

use bg_etcd::{Event, Exchange, Fault, News, news_in, watch_text};
use mio::net::TcpStream;
use mio::{Interest, Registry, Token};
use std::alloc::{AllocError, Global};
use std::io::ErrorKind;
use std::net::{SocketAddr, ToSocketAddrs};

/// The token of the watch, which no client has.
pub const WATCH: Token = Token(usize::MAX);

/// The most reads in one turn.
const MOST_READS: u32 = 4096;

/// A watch. It is large, so it is boxed.
#[derive(Drop)]
pub struct Watch {
    alloc: Global,
    stream: TcpStream,
    exchange: Exchange,
}

/// What a watch has reported.
#[derive(Drop)]
pub enum Told {
    /// The changes, in order; `None` if nothing has come, not even that the watch has begun.
    Events(Option<Vec<Event>>),
    /// The watch can't continue from where it was.
    Ended,
}

impl Watch {
    /// Asks a member to report changes from a revision on, and registers the connection to wake the
    /// server when they come. Each round uses another address of the member.
    ///
    /// # Errors
    /// The reason why the member can't be asked.
    pub fn begin(
        rt: &HostRuntime,
        registry: &Registry,
        (host, round): (&str, usize),
        revision: u64,
    ) -> Result<Box<Watch>, Fault> {
        let stream = TcpStream::connect(rt, address_of(rt, host, round)?)?;
        let mut watch = Watch::over(rt.alloc(), stream)?;
        watch.ask(registry, host, revision)?;
        Ok(watch)
    }

    /// Returns the watch over a stream on which nothing was asked yet.
    fn over(alloc: Global, stream: TcpStream) -> Result<Box<Watch>, AllocError> {
        let watch = Watch {
            alloc,
            stream,
            exchange: Exchange::new(alloc),
        };
        Ok(Box::new(alloc, watch)?)
    }

    /// Registers the connection, and asks the member, which is at `host`, for the changes from a
    /// revision on.
    fn ask(&mut self, registry: &Registry, host: &str, revision: u64) -> Result<(), Fault> {
        let interest = Interest::READABLE | Interest::WRITABLE;
        registry.register(&mut self.stream, WATCH, interest)?;
        let text = watch_text(self.alloc, revision)?;
        self.exchange.ask(host, "/v3/watch", text.as_str())
    }

    /// Returns what has come since the last call.
    ///
    /// # Errors
    /// The reason why nothing more will come.
    pub fn told(&mut self) -> Result<Told, Fault> {
        if !self.send()? {
            return Ok(Told::Events(None));
        }
        let has_come = self.read()?;
        let mut all = Vec::new(self.alloc);
        for _ in 0..u64::MAX {
            let Some(line) = self.exchange.take_line()? else {
                break;
            };
            match news_in(self.alloc, &line)? {
                News::Events(mut events) => all.append(&mut events)?,
                News::Ended => return Ok(Told::Ended),
            }
        }
        self.exchange.check_goes_on()?;
        Ok(Told::Events(has_come.then_some(all)))
    }

    /// Sends what is left of the request; returns whether all of it was sent.
    fn send(&mut self) -> Result<bool, Fault> {
        for _ in 0..u64::MAX {
            if !self.exchange.wants_write() {
                return Ok(true);
            }
            match self.exchange.write_to(&mut self.stream) {
                Ok(0) => return Err(Fault::Away(ErrorKind::WriteZero)),
                Ok(_) => {}
                Err(error) if error.kind() == ErrorKind::WouldBlock => return Ok(false),
                Err(error) => return Err(Fault::Away(error.kind())),
            }
        }
        Ok(true)
    }

    /// Reads until nothing more is available; returns whether anything was.
    fn read(&mut self) -> Result<bool, Fault> {
        for count in 0..MOST_READS {
            match self.exchange.read_from(&mut self.stream) {
                Ok(0) => return Err(Fault::Away(ErrorKind::UnexpectedEof)),
                Ok(_) => {}
                Err(Fault::Away(ErrorKind::WouldBlock)) => return Ok(count > 0),
                Err(fault) => return Err(fault),
            }
        }
        Ok(true)
    }
}

/// Returns an address of a member: each of its first four in turn, one per round. If it has no such
/// address, returns the first.
fn address_of(rt: &HostRuntime, host: &str, round: usize) -> Result<SocketAddr, Fault> {
    let mut addresses = host.to_socket_addrs(rt)?;
    let first = addresses.next();
    let address = match round & 3 {
        0 => first,
        later => addresses.nth(later - 1).or(first),
    };
    match address {
        Some(address) => Ok(address),
        None => Err(Fault::Away(ErrorKind::NotFound)),
    }
}
