//! The sockets that a server waits for.

use mio::net::{TcpListener, TcpStream};
use mio::{Events, Interest, Poll, Token};
use std::io;
use std::net::{Ipv4Addr, SocketAddr};
use std::time::Duration;

/// The token of the listener. The token of a client is its index plus one.
pub(crate) const LISTENER: Token = Token(0);

/// The listener of a server, and the poll and events of all its sockets.
#[derive(Drop)]
pub(crate) struct Sockets {
    pub(crate) poll: Poll,
    pub(crate) events: Events,
    pub(crate) listener: TcpListener,
}

impl Sockets {
    /// Binds a port on the loopback address.
    ///
    /// # Errors
    /// The reason why the port can't be bound.
    pub(crate) fn bind(rt: &HostRuntime, port: u16) -> io::Result<Sockets> {
        let events = Events::with_capacity(rt.alloc(), 256)?;
        let mut listener = TcpListener::bind(rt, SocketAddr::from((Ipv4Addr::LOCALHOST, port)))?;
        let poll = Poll::new(rt)?;
        poll.registry()
            .register(&mut listener, LISTENER, Interest::READABLE)?;
        Ok(Sockets {
            poll,
            events,
            listener,
        })
    }

    /// Waits until a socket is ready, or `most` milliseconds have passed.
    ///
    /// # Errors
    /// The reason why the sockets can't be waited for.
    pub(crate) fn wait(&mut self, most: u64) -> io::Result<()> {
        let most = Duration::from_millis(most);
        match self.poll.poll(&mut self.events, Some(most)) {
            Err(error) if error.kind() == io::ErrorKind::Interrupted => Ok(()),
            result => result,
        }
    }

    /// Returns whether the listener has become ready.
    pub(crate) fn is_called(&self) -> bool {
        for event in &self.events {
            if event.token() == LISTENER {
                return true;
            }
        }
        false
    }

    /// Adds a stream to the sockets that are waited for.
    ///
    /// # Errors
    /// The reason why the stream can't be added.
    pub(crate) fn register(&self, stream: &mut TcpStream, token: Token) -> io::Result<()> {
        self.poll
            .registry()
            .register(stream, token, Interest::READABLE | Interest::WRITABLE)
    }

    /// Removes a stream from the sockets that are waited for.
    pub(crate) fn deregister(&self, stream: &mut TcpStream) {
        let _ = self.poll.registry().deregister(stream);
    }
}
