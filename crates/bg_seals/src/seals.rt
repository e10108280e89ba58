//! Sealing and opening datagrams.
ghost use Rattle.std.specs.Prelude.{◌≡◌, ◌≤◌, length, MatchOption};
ghost use Rattle.bg_seals.specs.Datagrams.{most_packet_bytes, tag, IsSealed, IsNotSealed};

use crate::directions::Direction;
use crate::keys::Key;
use crate::tags::{TAG_BYTES, Tag};
use arrayvec::ArrayVec;

/// Number of bytes of a packet that is sealed, at most.
pub const MOST_PACKET_BYTES: usize = 128;

/// Number of bytes of a sealed datagram, at most: a packet, and a tag of 16 bytes.
pub const MOST_SEALED_BYTES: usize = 144;

/// The prefix of the text that a tag authenticates.
const LABEL: &[u8] = b"bg_relay seal 1";

/// The bytes of a sealed datagram.
pub type SealedDatagram = ArrayVec<u8, MOST_SEALED_BYTES>;

impl Key {
    /// Returns the tag of a packet.
    fn tag(&self, direction: Direction, party: u8, packet: &[u8]) -> Tag
        ensures { result.bytes ≡ tag self.now direction party packet.now }
    {
        let mut hasher = self.hasher();
        hasher.update(LABEL);
        hasher.update(&[direction.byte(), party]);
        hasher.update(packet);
        Tag::truncated(&hasher.finalize())
    }

    /// Seals a packet of at most 128 bytes under this key, for a direction between the referee and
    /// this party, and returns the datagram.
    pub fn seal(&self, direction: Direction, party: u8, packet: &[u8]) -> SealedDatagram
        requires { length packet.now ≤ most_packet_bytes }
        ensures { IsSealed self.now direction party packet.now result.items }
    {
        let mut datagram = ArrayVec::new();
        datagram.try_extend_from_slice(packet).unwrap();
        let tag = self.tag(direction, party, packet);
        datagram.try_extend_from_slice(&tag.bytes).unwrap();
        datagram
    }

    /// Returns the packet that was sealed under this key, for this direction and this party.
    /// Returns `None` if the datagram is no packet that was sealed so.
    pub fn open<'a>(&self, direction: Direction, party: u8, datagram: &'a [u8]) -> Option<&'a [u8]>
        ensures { MatchOption result (IsNotSealed self.now direction party datagram.now)
            (λ packet. IsSealed self.now direction party packet.now datagram.now) }
    {
        let (packet, tag) = datagram.split_last_chunk::<TAG_BYTES>()?;
        if packet.len() > MOST_PACKET_BYTES || !self.tag(direction, party, packet).is(tag) {
            return None;
        }
        Some(packet)
    }
}
