//! The UDP socket of one party, which identifies the others by their ports and their keys.
ghost use Rattle.std.specs.Prelude.{◌≤◌, length};
ghost use Rattle.bg_seals.specs.Datagrams.{most_packet_bytes};

use crate::failures::Failures;
use crate::failures::device_failures::FailedCall;
use crate::failures::first_failures::FirstFailures;
use crate::sockets::hearing_times::HearingTimes;
use crate::sockets::keyrings::Keyring;
use crate::sockets::notices::{LastNotice, Presence, other_seat};
use crate::sockets::own_sockets::{MAX_DATAGRAM, Received};
use crate::sockets::senders::{SIGN_OF_LIFE, address_of, heard, told};
use arrayvec::ArrayVec;
use bg_wire::{Datagram, REFEREE};
use std::io;
use std::io::ErrorKind;
use std::net::{Net, SocketAddr, UdpSocket};
use std::os::fd::{AsRawFd, RawFd};
use std::time::Clock;

/// Number of foreign datagrams that one take passes over, at most, so that a stranger can't hold up
/// a round.
const MOST_PASSED_OVER: u32 = 64;

/// A party's end of the match that has this port: a non-blocking UDP socket on 127.0.0.1
/// (docs/OPERATING.md, "Ports"). It seals what it sends with its keys. It passes over each datagram
/// that was not sealed for this party by the party whose port it comes from ([`heard`]).
///
/// The referee's end answers the sign of life by which a party [asks](Self::ask) whether it is
/// there. It drops what it is to send to a party that was not heard for a minute, as a network may:
/// another process may have that port by now. Before it answers a seat, it tells it the other one's
/// presence.
///
/// It notes why a call failed in the [`Failures`] that it borrows.
#[derive(Drop)]
pub struct PartyEnd<'a, C> {
    socket: UdpSocket,
    port: u16,
    party: u8,
    keys: Keyring,
    times: HearingTimes<'a, C>,
    /// Number of datagrams that came from the referee.
    heard: u32,
    /// Number of reads that found nothing.
    empty_reads: u32,
    notice: LastNotice<'a, C>,
    sends: FirstFailures<'a>,
    takes: FirstFailures<'a>,
}

impl<'a, C: Clock> PartyEnd<'a, C> {
    /// Binds the end of a party of the match that has this port, with its keys. Later failures are
    /// noted in `failures`.
    ///
    /// # Errors
    /// `AddrInUse` where another process has the party's port; otherwise the system's error where
    /// it gives no socket.
    pub fn bind(
        net: &impl Net,
        clock: &'a C,
        port: u16,
        party: u8,
        keys: Keyring,
        failures: &'a Failures,
    ) -> io::Result<PartyEnd<'a, C>> {
        let socket = UdpSocket::bind(net, address_of(port, party)?)?;
        socket.set_nonblocking(true)?;
        Ok(PartyEnd {
            socket,
            port,
            party,
            keys,
            times: HearingTimes::new(clock),
            heard: 0,
            empty_reads: 0,
            notice: LastNotice::new(clock),
            sends: FirstFailures::new(failures),
            takes: FirstFailures::new(failures),
        })
    }

    /// Returns the socket's descriptor, to wait for.
    pub fn descriptor(&self) -> RawFd {
        self.socket.as_raw_fd()
    }

    /// Asks the referee whether it is there, by the sign of life. Where that can't be sent, no
    /// answer comes.
    pub fn ask(&self) {
        self.send_sign(REFEREE);
    }

    /// Returns the number of datagrams from the referee that `take` has read. It includes answers
    /// to [`ask`](Self::ask), but not notices of the other seat. The count wraps around after
    /// 4,294,967,295.
    pub fn heard(&self) -> u32 {
        self.heard
    }

    /// Returns the number of reads that have found no datagram in the socket. The count wraps around
    /// after 4,294,967,295.
    pub fn empty_reads(&self) -> u32 {
        self.empty_reads
    }

    /// Returns whether something of a party was heard within the last minute.
    pub fn hears(&self, party: u8) -> bool {
        self.times.is_there(party)
    }

    /// Returns the other seat's presence, where the referee told it to this seat within the last
    /// three seconds. The referee does so with each answer to [`ask`](Self::ask), unless it is of
    /// an older version. The presence is for display alone.
    pub fn other_seat(&self) -> Option<Presence> {
        self.notice.presence()
    }

    /// Sends a datagram to the port of its party, sealed. The referee's end sends none to a party
    /// that was not heard for a minute.
    ///
    /// # Errors
    /// The system's error where it doesn't send it; `InvalidInput` where nothing goes from this
    /// party to that one.
    pub fn send(&mut self, datagram: &Datagram) -> io::Result<()> {
        let to = datagram.to;
        if self.party == REFEREE && !self.times.is_there(to) {
            return Ok(());
        }
        let answer = self.send_sealed(to, datagram.bytes.bytes.as_slice());
        self.sends.after(FailedCall::Send { to }, answer)
    }

    /// Returns the next packet for a party; nothing for another party than this end's.
    ///
    /// # Errors
    /// The system's error where the socket can't be read.
    pub fn take(&mut self, party: u8) -> Received {
        if party != self.party {
            return Ok(None);
        }
        let answer = self.receive();
        self.takes.after(FailedCall::Receive { party }, answer)
    }
}

impl<'a, C: Clock> PartyEnd<'a, C> {
    /// Sends bytes to a party, sealed.
    fn send_sealed(&self, to: u8, bytes: &[u8]) -> io::Result<()>
        requires { length bytes.now ≤ most_packet_bytes }
    {
        let address = address_of(self.port, to)?;
        let Some(sealed) = self.keys.seal(self.party, to, bytes) else {
            return Err(io::Error::from(ErrorKind::InvalidInput));
        };
        self.socket.send_to(sealed.as_slice(), address)?;
        Ok(())
    }

    /// Sends the sign of life to a party, ignoring failures.
    fn send_sign(&self, to: u8) {
        let _ = self.send_sealed(to, SIGN_OF_LIFE);
    }

    /// Answers a party's sign of life with the sign of life. A seat is first told the other one's
    /// presence, ignoring failures, so that it knows that when it hears of the referee again.
    fn answer(&self, party: u8) {
        if let Some(other) = other_seat(party) {
            let _ = self.send_sealed(party, &self.times.presence(other).notice());
        }
        self.send_sign(party);
    }

    /// Notes the other seat's presence, where a datagram tells it to this seat.
    fn note_told(&mut self, datagram: &[u8], from: SocketAddr) {
        if other_seat(self.party).is_none() {
            return;
        }
        if let Some(presence) = told(&self.keys, self.port, self.party, datagram, from) {
            self.notice.note(presence);
        }
    }

    /// Returns the oldest packet in the queue that a party sent to this one.
    fn receive(&mut self) -> Received {
        for _ in 0..MOST_PASSED_OVER {
            let mut buffer = [0; MAX_DATAGRAM];
            match self.socket.recv_from(&mut buffer) {
                Ok((count, from)) => {
                    if let Some(packet) = self.packet_in(&buffer[..count], from) {
                        return Ok(Some(packet));
                    }
                }
                Err(error) if error.kind() == ErrorKind::WouldBlock => {
                    self.empty_reads = self.empty_reads.wrapping_add(1);
                    return Ok(None);
                }
                Err(error) => return Err(error),
            }
        }
        Ok(None)
    }

    /// Returns the packet of a datagram, if a party sent it to this one. The referee answers a sign
    /// of life.
    fn packet_in(
        &mut self,
        datagram: &[u8],
        from: SocketAddr,
    ) -> Option<ArrayVec<u8, MAX_DATAGRAM>> {
        let found = heard(&self.keys, self.port, self.party, datagram, from);
        let Some((party, bytes)) = found else {
            self.note_told(datagram, from);
            return None;
        };
        self.times.note(party);
        if party == REFEREE {
            self.heard = self.heard.wrapping_add(1);
        }
        if bytes == SIGN_OF_LIFE {
            if self.party == REFEREE {
                self.answer(party);
            }
            return None;
        }
        let mut packet = ArrayVec::new();
        packet.try_extend_from_slice(bytes).ok()?;
        Some(packet)
    }
}
