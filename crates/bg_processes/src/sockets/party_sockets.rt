//! The UDP socket of one party, which identifies the others by their ports.
ghost use Rattle.std.specs.Prelude.{length};

use crate::answers::answered;
use bg_streams::History;
use bg_system::{Failures, Keyring, PartyEnd, Presence};
use bg_wire::Datagram;
use bg_world::{DeviceFault, Link, Taken, count_failed, note_taken};
use std::io;
use std::net::Net;
use std::os::fd::RawFd;
use std::time::Clock;

/// The non-blocking UDP socket of one party on 127.0.0.1 (docs/OPERATING.md, "Ports"). Party P of a
/// match has the port of the match plus P. Only one process has a port at a time, so no two
/// processes run one party. Its datagrams are sealed. It passes over those that were not sealed for
/// it by the party whose port they come from. Nothing is claimed of its honesty: the system may
/// lose datagrams, and the code can't ensure that nobody else has the keys of a party.
///
/// The referee's socket answers the sign of life by which a party [asks](Self::ask) whether it is
/// there. It drops what it is to send to a party that was not heard for a minute. Before it answers
/// a seat, it tells it the other one's presence.
///
/// It notes why a call failed in the [`Failures`] that it borrows.
pub struct PartySocket<'a, C> {
    end: PartyEnd<'a, C>,
    takes: History,
    sends: History,
    faults: History,
    taken: Result<Option<History>, DeviceFault>,
}

// Written out, so that an owner proves one call, and not the drop of each field.
impl<'a, C> Drop for PartySocket<'a, C> {
    fn drop(self) {
        let PartySocket {
            end: _,
            takes: _,
            sends: _,
            faults: _,
            taken: _,
        } = self;
    }
}

impl<'a, C: Clock> PartySocket<'a, C> {
    /// Binds the socket of a party of the match that has this port, with its keys. Later failures
    /// are noted in `failures`. The clock tells when each party was last heard.
    ///
    /// # Errors
    /// `AddrInUse` where another process has the party's port; otherwise the system's error where
    /// it gives no socket.
    pub fn bind(
        net: &impl Net,
        clock: &'a C,
        port: u16,
        party: u8,
        keys: Keyring,
        failures: &'a Failures,
    ) -> io::Result<PartySocket<'a, C>> {
        Ok(PartySocket {
            end: PartyEnd::bind(net, clock, port, party, keys, failures)?,
            takes: History::new(),
            sends: History::new(),
            faults: History::new(),
            taken: Ok(None),
        })
    }

    /// Returns the socket's descriptor, to wait for.
    pub fn descriptor(&self) -> RawFd {
        self.end.descriptor()
    }

    /// Asks the referee whether it is there, by the sign of life. Where that can't be sent, no
    /// answer comes.
    pub fn ask(&self) {
        self.end.ask();
    }

    /// Returns the number of datagrams from the referee that `take` has read. It includes answers
    /// to [`ask`](Self::ask), but not notices of the other seat. The count wraps around after
    /// 4,294,967,295.
    pub fn heard(&self) -> u32 {
        self.end.heard()
    }

    /// Returns the number of reads that have found no datagram in the socket, for a wait. The count
    /// wraps around after 4,294,967,295.
    pub fn empty_reads(&self) -> u32 {
        self.end.empty_reads()
    }

    /// Returns whether something of a party was heard within the last minute.
    pub fn hears(&self, party: u8) -> bool {
        self.end.hears(party)
    }

    /// Returns the other seat's presence, where the referee told it to this seat within the last
    /// three seconds. The referee does so with each answer to [`ask`](Self::ask), unless it is of
    /// an older version. The presence is for display alone.
    pub fn other_seat(&self) -> Option<Presence> {
        self.end.other_seat()
    }
}

impl<'a, C: Clock> Link for PartySocket<'a, C> {
    ghost use Rattle.std.specs.Prelude.{None, []};
    ghost use Rattle.bg_protocol.specs.Devices.Handed.{noted_answer};

    // Nothing is claimed of honesty, and so nothing of what was sent either.
    ghost is_honest = { ⊥ };

    ghost plan = { λ _. None };

    ghost sent = { λ _. [] };

    ghost faults = { λ link. length link.faults.bytes };

    ghost takes = { λ link. length link.takes.bytes };

    ghost sends = { λ link. length link.sends.bytes };

    ghost taken = { λ link. noted_answer link.taken };

    fn send(&mut self, datagram: &Datagram) -> Result<(), DeviceFault> {
        self.sends = self.sends.marked();
        let result = answered(self.end.send(datagram));
        self.faults = count_failed(&self.faults, &result);
        result
    }

    fn take(&mut self, party: u8, _pick: u32) -> Taken {
        self.takes = self.takes.marked();
        let result = answered(self.end.take(party));
        self.faults = count_failed(&self.faults, &result);
        self.taken = note_taken(&result);
        result
    }
}
