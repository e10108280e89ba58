//! Waiting for a socket, and for standard input.

use mio::unix::SourceFd;
use mio::{Events, Interest, Poll, Registry, Token};
use std::io;
use std::io::ErrorKind;
use std::net::Net;
use std::os::fd::RawFd;
use std::time::Duration;

const SOCKET: Token = Token(0);

const INPUT: Token = Token(1);

const STANDARD_INPUT: RawFd = 0;

/// The sources that can be read without waiting.
#[derive(Clone, Copy, Debug, PartialEq, Eq)]
pub struct Ready {
    /// The socket has a datagram.
    pub socket: bool,
    /// Standard input has bytes, or has ended.
    pub input: bool,
}

/// The way in which standard input is waited for.
#[derive(Clone, Copy, Debug, PartialEq, Eq)]
enum Input {
    /// It is not waited for.
    Unused,
    /// It is a pipe or a terminal.
    Watched,
    /// It is a file, or another source that can always be read.
    Always,
}

/// A socket, and perhaps standard input, for which a process waits without using the processor. The
/// poll reports what has become ready since its source was registered or reported, so each wait
/// registers the sources anew. Then one read after each report never blocks, and what a read leaves
/// is reported again. Only a socket of which a read has found nothing since the last wait stays as it
/// is, as all that comes behind such a read is reported. Descriptor 0 keeps its mode, since a shell
/// and other processes share it.
#[derive(Drop)]
pub struct Waiting {
    poll: Poll,
    events: Events,
    socket: RawFd,
    input: Input,
    /// Number of reads that had found nothing when the last wait began.
    empty_reads: u32,
}

fn watch(registry: &Registry, descriptor: RawFd, token: Token) -> io::Result<()> {
    registry.register(&mut SourceFd(&descriptor), token, Interest::READABLE)
}

fn watch_again(registry: &Registry, descriptor: RawFd, token: Token) -> io::Result<()> {
    registry.reregister(&mut SourceFd(&descriptor), token, Interest::READABLE)
}

impl Waiting {
    /// Creates the poll for this socket, and for standard input if `with_input` is set.
    ///
    /// # Errors
    /// The system's error where it gives no poll, or doesn't register a source.
    pub fn new(
        rt: &(impl Net + AllocGlobal),
        socket: RawFd,
        with_input: bool,
    ) -> io::Result<Waiting> {
        let poll = Poll::new(rt)?;
        watch(poll.registry(), socket, SOCKET)?;
        let input = if with_input {
            match watch(poll.registry(), STANDARD_INPUT, INPUT) {
                Ok(()) => Input::Watched,
                Err(error) if error.kind() == ErrorKind::PermissionDenied => Input::Always,
                Err(error) => return Err(error),
            }
        } else {
            Input::Unused
        };
        Ok(Waiting {
            poll,
            events: Events::with_capacity(rt.alloc(), 4)?,
            socket,
            input,
            empty_reads: 0,
        })
    }

    /// Stops waiting for standard input, which has ended.
    pub fn forget_input(&mut self) {
        if self.input == Input::Watched {
            let _ = self
                .poll
                .registry()
                .deregister(&mut SourceFd(&STANDARD_INPUT));
        }
        self.input = Input::Unused;
    }

    /// Waits until something can be read, for at most this long. `empty_reads` is the number of
    /// reads of the socket that have found nothing so far
    /// ([`PartyEnd::empty_reads`](crate::PartyEnd::empty_reads)).
    ///
    /// # Errors
    /// The system's error where it doesn't wait; an interruption by a signal doesn't count.
    pub fn wait(&mut self, most: Duration, empty_reads: u32) -> io::Result<Ready> {
        if empty_reads == self.empty_reads {
            watch_again(self.poll.registry(), self.socket, SOCKET)?;
        }
        self.empty_reads = empty_reads;
        if self.input == Input::Watched {
            watch_again(self.poll.registry(), STANDARD_INPUT, INPUT)?;
        }
        let always = self.input == Input::Always;
        let most = if always {
            Duration::from_millis(0)
        } else {
            most
        };
        match self.poll.poll(&mut self.events, Some(most)) {
            Err(error) if error.kind() == ErrorKind::Interrupted => {
                return Ok(Ready {
                    socket: false,
                    input: always,
                });
            }
            result => result?,
        }
        let mut ready = Ready {
            socket: false,
            input: always,
        };
        for event in &self.events {
            if event.token() == SOCKET {
                ready.socket = true;
            }
            if event.token() == INPUT {
                ready.input = true;
            }
        }
        Ok(ready)
    }
}
