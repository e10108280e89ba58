//! Single calls of a link.
ghost use Rattle.std.specs.Prelude.{◌≡◌, IsTrue};
ghost use Rattle.bg_wire.specs.Packets.PacketText.{IsPacket};
ghost use Rattle.bg_protocol.specs.Devices.DeviceCalls.{Posts, Receives, hand_of, link_outcome};
ghost use Rattle.bg_protocol.specs.Worlds.Views.{link_view};

use crate::{DeviceFault, Link, Outcome};
use bg_wire::{Datagram, Packet, PacketBytes, decode, encode};

/// Returns the outcome of a fault of the link.
pub(crate) fn link_outcome(fault: DeviceFault) -> Outcome
    ensures { result ≡ link_outcome fault }
{
    match fault {
        DeviceFault::Failed => Outcome::LinkFault,
        DeviceFault::Memory => Outcome::Memory,
    }
}

/// Takes a datagram for the party, and decodes its packet into this place. Returns whether there is
/// a packet; where there is none, the outcome says why.
pub(crate) fn receive<L: Link>(
    link: &mut L,
    party: u8,
    pick: u32,
    packet: &mut Packet,
    outcome: &mut Outcome,
) -> bool
    ensures receives { Receives L.is_honest (link_view L.Link link.old) party pick
        (hand_of result packet.new outcome.new) (link_view L.Link link.new) }
    ensures fits { IsTrue result → IsPacket packet.new }
{
    let taken = link.take(party, pick);
    *outcome = match &taken {
        Err(fault) => link_outcome(*fault),
        Ok(None) => Outcome::NoDatagram,
        Ok(Some(bytes)) => match decode(bytes.as_slice()) {
            Ok(found) => {
                *packet = found;
                return true;
            }
            Err(fault) => Outcome::NotAPacket(fault),
        },
    };
    false
}

/// Sends a packet to the party.
pub(crate) fn post<L: Link>(link: &mut L, to: u8, packet: &Packet) -> Result<(), DeviceFault>
    requires { IsPacket packet.now }
    ensures { Posts L.is_honest (link_view L.Link link.old) to packet.now result (link_view L.Link link.new) }
{
    let datagram = Datagram {
        to,
        bytes: PacketBytes {
            bytes: encode(packet),
        },
    };
    link.send(&datagram)
}
