//! Laws of the definitions, for the crates above. Each is the contract of a function that does
//! nothing.
ghost use Rattle.std.specs.Prelude.{◌≡◌};
ghost use Rattle.bg_seals.specs.Datagrams.{most_packet_bytes, tag_bytes, most_sealed_bytes};
ghost use Rattle.bg_seals.specs.Datagrams.{TagsAreWhole, IsOfOnePacket};
ghost use Rattle.bg_seals.specs.Keys.{key_bytes, KeysAreWhole};

use crate::keys::KEY_BYTES;
use crate::seals::{MOST_PACKET_BYTES, MOST_SEALED_BYTES};
use crate::tags::TAG_BYTES;

/// States that the constants are the numbers of the layout.
pub fn laws_of_constants()
    ensures key { KEY_BYTES ≡ key_bytes }
    ensures tag { TAG_BYTES ≡ tag_bytes }
    ensures packet { MOST_PACKET_BYTES ≡ most_packet_bytes }
    ensures sealed { MOST_SEALED_BYTES ≡ most_sealed_bytes }
{}

/// States that every derived key has 32 bytes and every tag 16. Under a given key, for a given
/// direction and party, a datagram is at most one sealed packet.
pub fn laws_of_seals()
    ensures keys { KeysAreWhole }
    ensures tags { TagsAreWhole }
    ensures one { IsOfOnePacket }
{}
