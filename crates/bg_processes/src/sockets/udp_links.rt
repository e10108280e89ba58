//! UDP sockets that carry a match over the loopback address.
ghost use Rattle.std.specs.Prelude.{◌≡◌, ◌⊎◌, length, IfErr};

use crate::answers::answered;
use bg_auto::LoopFault;
use bg_streams::History;
use bg_system::{Failures, OwnSockets};
use bg_wire::Datagram;
use bg_world::{DeviceFault, Link, Taken, count_failed, note_taken};
use std::net::Net;

/// A non-blocking UDP socket on 127.0.0.1 for each party, whose index is the party
/// (docs/OPERATING.md, "Sockets"). A datagram leaves from the socket of the party that it goes to,
/// and none is accepted from elsewhere. Nothing is claimed of honesty: the system may lose
/// datagrams.
///
/// It notes why a call failed, with the party, in the [`Failures`] that it borrows.
pub struct UdpLink<'a> {
    sockets: OwnSockets<'a>,
    takes: History,
    sends: History,
    faults: History,
    taken: Result<Option<History>, DeviceFault>,
}

// Written out, so that an owner proves one call, and not the drop of each field.
impl<'a> Drop for UdpLink<'a> {
    fn drop(self) {
        let UdpLink {
            sockets: _,
            takes: _,
            sends: _,
            faults: _,
            taken: _,
        } = self;
    }
}

impl<'a> UdpLink<'a> {
    /// Binds sockets for the parties below `parties`, on ports of 127.0.0.1 that the system
    /// chooses. A take for another party gives nothing, and a send to one fails.
    ///
    /// # Errors
    /// `Socket` where one could not be opened or made non-blocking, which is noted in `failures`;
    /// `Memory` where there is no memory for them.
    pub fn bind(
        rt: &(impl Net + AllocGlobal),
        parties: u8,
        failures: &'a Failures,
    ) -> Result<UdpLink<'a>, LoopFault>
        ensures { IfErr result (λ fault. (fault ≡ LoopFault.Socket) ⊎ (fault ≡ LoopFault.Memory)) }
    {
        let Some(sockets) = OwnSockets::open(rt, parties, failures)? else {
            return Err(LoopFault::Socket);
        };
        Ok(UdpLink {
            sockets,
            takes: History::new(),
            sends: History::new(),
            faults: History::new(),
            taken: Ok(None),
        })
    }
}

impl<'a> Link for UdpLink<'a> {
    ghost use Rattle.std.specs.Prelude.{None, []};
    ghost use Rattle.bg_protocol.specs.Devices.Handed.{noted_answer};

    // Nothing is claimed of honesty, and so nothing of what was sent either.
    ghost is_honest = { ⊥ };

    ghost plan = { λ _. None };

    ghost sent = { λ _. [] };

    ghost faults = { λ link. length link.faults.bytes };

    ghost takes = { λ link. length link.takes.bytes };

    ghost sends = { λ link. length link.sends.bytes };

    ghost taken = { λ link. noted_answer link.taken };

    fn send(&mut self, datagram: &Datagram) -> Result<(), DeviceFault> {
        self.sends = self.sends.marked();
        let result = answered(self.sockets.send(datagram));
        self.faults = count_failed(&self.faults, &result);
        result
    }

    fn take(&mut self, party: u8, _pick: u32) -> Taken {
        self.takes = self.takes.marked();
        let result = answered(self.sockets.take(party));
        self.faults = count_failed(&self.faults, &result);
        self.taken = note_taken(&result);
        result
    }
}
