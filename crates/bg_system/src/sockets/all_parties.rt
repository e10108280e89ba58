//! The UDP sockets of all parties of a match in one process.

use crate::failures::Failures;
use crate::failures::device_failures::FailedCall;
use crate::failures::first_failures::FirstFailures;
use crate::sockets::own_sockets::{OwnSocket, Received};
use bg_wire::Datagram;
use std::alloc::AllocError;
use std::io;
use std::io::ErrorKind;
use std::net::Net;

/// A non-blocking UDP socket on 127.0.0.1 for each party, whose index is the party
/// (docs/OPERATING.md, "Sockets"). A datagram leaves from the socket of the party that it goes to,
/// and none is accepted from elsewhere.
///
/// It notes why a call failed, with the party, in the [`Failures`] that it borrows.
#[derive(Drop)]
pub struct OwnSockets<'a> {
    ends: Vec<End<'a>>,
    /// The failures of sends to parties that have no socket.
    misdirected: FirstFailures<'a>,
}

/// A party's socket.
#[derive(Drop)]
struct End<'a> {
    party: u8,
    socket: OwnSocket,
    sends: FirstFailures<'a>,
    takes: FirstFailures<'a>,
}

impl<'a> End<'a> {
    fn open(rt: &impl Net, party: u8, failures: &'a Failures) -> io::Result<End<'a>> {
        Ok(End {
            party,
            socket: OwnSocket::open(rt)?,
            sends: FirstFailures::new(failures),
            takes: FirstFailures::new(failures),
        })
    }

    /// Sends bytes to the party.
    fn send(&mut self, bytes: &[u8]) -> io::Result<()> {
        let call = FailedCall::Send { to: self.party };
        self.sends.after(call, self.socket.send(bytes))
    }

    /// Returns the next datagram for the party, if one has come.
    fn take(&mut self) -> Received {
        let call = FailedCall::Receive { party: self.party };
        self.takes.after(call, self.socket.receive())
    }
}

impl<'a> OwnSockets<'a> {
    /// Opens sockets for the parties below `parties`, on ports of 127.0.0.1 that the system
    /// chooses. Returns `None` where one could not be opened or made non-blocking, and notes why.
    ///
    /// # Errors
    /// AllocError where there is no memory for them.
    pub fn open(
        rt: &(impl Net + AllocGlobal),
        parties: u8,
        failures: &'a Failures,
    ) -> Result<Option<OwnSockets<'a>>, AllocError> {
        let mut ends = Vec::new(rt.alloc());
        for party in 0..parties {
            match End::open(rt, party, failures) {
                Ok(end) => ends.push(end)?,
                Err(error) => {
                    failures.note(FailedCall::Open { party }, error);
                    return Ok(None);
                }
            }
        }
        Ok(Some(OwnSockets {
            ends,
            misdirected: FirstFailures::new(failures),
        }))
    }

    /// Sends a datagram to its party.
    ///
    /// # Errors
    /// The system's error where it doesn't send it; `AddrNotAvailable` where the party has no
    /// socket.
    pub fn send(&mut self, datagram: &Datagram) -> io::Result<()> {
        if let Some(end) = self.ends.get_mut(usize::from(datagram.to)) {
            return end.send(datagram.bytes.bytes.as_slice());
        }
        let error = io::Error::from(ErrorKind::AddrNotAvailable);
        self.misdirected
            .after(FailedCall::Send { to: datagram.to }, Err(error))
    }

    /// Returns the next datagram for a party; nothing for a party without a socket.
    ///
    /// # Errors
    /// The system's error where the socket can't be read.
    pub fn take(&mut self, party: u8) -> Received {
        match self.ends.get_mut(usize::from(party)) {
            Some(end) => end.take(),
            None => Ok(None),
        }
    }
}
