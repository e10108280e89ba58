//! Datagrams to send, as C sees them.
ghost use Rattle.std.specs.Prelude.{◌≡◌, ◌≤◌, None, Some, All, length, slice_get};
ghost use Rattle.bg_wire.specs.Entries.Codes.{longest_datagram};
ghost use Rattle.bg_wire.specs.Packets.PacketText.{IsPacket};
ghost use Rattle.bg_c.specs.Datagrams.{ReplyFits, datagram_of, padded, reply_of};

use crate::rooms::put_front;
use bg_parties::Taken;
use bg_referee::TakeOutcome;
use bg_wire::{MOST_DATAGRAM_BYTES, Packet, encode};

/// A packet to send, `bg_datagram` of the header.
#[repr(C)]
#[derive(Clone, Copy)]
pub struct Datagram {
    /// The party that it goes to, from 0 to 255.
    pub to: u32,
    /// The length of the packet in bytes, from 18 to 98, or 0 where nothing is sent; then `to`
    /// is 0.
    pub length: u32,
    /// 0.
    pub reserved: [u32; 2],
    /// The packet at the front, followed by 0.
    pub bytes: [u8; MOST_DATAGRAM_BYTES],
}

/// Returns an encoding at the front of the bytes of a datagram, followed by 0.
fn padded(text: &[u8]) -> [u8; MOST_DATAGRAM_BYTES]
    requires { length text.now ≤ longest_datagram }
    ensures { result ≡ padded longest_datagram text.now }
{
    let mut bytes = [0; MOST_DATAGRAM_BYTES];
    put_front(text, &mut bytes);
    bytes
}

impl Datagram {
    /// Returns the datagram where nothing is sent.
    fn none() -> Datagram
        ensures { result ≡ datagram_of None }
    {
        Datagram {
            to: 0,
            length: 0,
            reserved: [0; 2],
            bytes: [0; MOST_DATAGRAM_BYTES],
        }
    }

    /// Returns the datagram of a packet to a party.
    fn new(to: u8, packet: &Packet) -> Datagram
        requires { IsPacket packet.now }
        ensures { result ≡ datagram_of (Some (to, packet.now)) }
    {
        let text = encode(packet);
        let text = text.as_slice();
        Datagram {
            to: u32::from(to),
            length: text.len() as u32,
            reserved: [0; 2],
            bytes: padded(text),
        }
    }

    /// Returns the datagram of the packet with this index, or the one where nothing is sent. Each
    /// packet stands beside the party that it goes to.
    pub(crate) fn at(sent: &[(u8, Packet)], index: usize) -> Datagram
        requires { All (λ one. IsPacket one.1) sent.now }
        ensures { result ≡ datagram_of (slice_get sent.now index) }
    {
        match sent.get(index) {
            Some((to, packet)) => Datagram::new(*to, packet),
            None => Datagram::none(),
        }
    }

    /// Returns the answer of a party to a packet that it took.
    pub(crate) fn reply(taken: &Taken) -> Datagram
        requires { ReplyFits taken.now }
        ensures { result ≡ datagram_of (reply_of taken.now) }
    {
        match taken {
            Taken::Referee(TakeOutcome::Answer(to, packet)) => Datagram::new(*to, packet),
            _ => Datagram::none(),
        }
    }
}
