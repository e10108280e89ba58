//! The clients of a server: accepting connections.

use crate::clients::Client;
use crate::crowds::Crowd;
use crate::limits::MOST_CLIENTS;
use mio::Token;
use mio::net::TcpStream;
use std::alloc::AllocError;
use std::hash::RandomState;
use std::io;

/// The most connections that are accepted in one turn.
const MOST_ACCEPTED: u32 = 64;

impl<'a> Crowd<'a> {
    /// Accepts connections. Any beyond [`MOST_CLIENTS`] are closed at once.
    pub(crate) fn accept(&mut self, now: u64) {
        self.is_accepting |= self.sockets.is_called();
        for _ in 0..MOST_ACCEPTED {
            if !self.is_accepting {
                return;
            }
            match self.sockets.listener.accept() {
                Ok((stream, _)) => {
                    let _ = self.take_in(stream, now);
                }
                // No connection waits, or too many files are open; accepting is tried again in the
                // next second.
                Err(_) => self.is_accepting = false,
            }
        }
    }

    /// Adds a client if there is room for it, and closes its connection otherwise.
    ///
    /// # Errors
    /// The reason why the client can't be added. Its connection is then closed.
    fn take_in(&mut self, mut stream: TcpStream, now: u64) -> io::Result<()> {
        let free = self.free_index();
        if free >= MOST_CLIENTS {
            return Ok(());
        }
        let _ = stream.set_nodelay(true);
        self.sockets.register(&mut stream, Token(free + 1))?;
        let keys = RandomState::new(self.rt)?;
        Ok(self.put(free, keys, stream, now)?)
    }

    /// Puts a client at a free index, and marks it to be heard in this turn.
    fn put(
        &mut self,
        free: usize,
        keys: RandomState,
        stream: TcpStream,
        now: u64,
    ) -> Result<(), AllocError> {
        let client = Client::new(self.rt.alloc(), keys, stream, now)?;
        self.again.push(free)?;
        match self.clients.get_mut(free) {
            Some(slot) => *slot = Some(client),
            None => self.clients.push(Some(client))?,
        }
        Ok(())
    }

    /// Returns the first index without a client.
    fn free_index(&self) -> usize {
        for (index, client) in self.clients.iter().enumerate() {
            if client.is_none() {
                return index;
            }
        }
        self.clients.len()
    }
}
