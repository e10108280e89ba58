//! Packets as bytes, and bytes as packets.
ghost use Rattle.std.specs.Prelude.{◌≡◌, ◌≢◌, ◌↔◌, ◌≤◌, ◌++◌, [], List, ℕ, IfOk, IfErr};
ghost use Rattle.arrayvec.specs.ArrayVec.{array_vec_len};
ghost use Rattle.bg_wire.specs.declared.packets.Packet.{Packet};
ghost use Rattle.bg_wire.specs.Entries.Codes.{longest_packet};
ghost use Rattle.bg_wire.specs.Packets.PacketText.{IsPacket, IsText};
ghost use Rattle.bg_wire.specs.Texts.{HasMore, ArePrefixFree};
ghost use Rattle.bg_wire.specs.Faults.{IsWireFault};
ghost use Rattle.bg_wire.specs.Packets.PacketReading.{packet_of};

use crate::entries::reader::Reader;
use crate::entries::writer::Writer;
use crate::packets::{layout, writing};
use crate::{MOST_DATAGRAM_BYTES, Packet, WireFault};
use arrayvec::ArrayVec;

/// Returns the encoding of a packet, at most 98 bytes (docs/FORMATS.md, "Packets").
pub fn encode(packet: &Packet) -> ArrayVec<u8, MOST_DATAGRAM_BYTES>
    requires { IsPacket packet.now }
    ensures text { IsText packet.now result.items }
    ensures longest { array_vec_len result ≤ longest_packet }
{
    let mut text = Writer::new();
    writing::put_packet(&mut text, packet);
    let mut bytes = ArrayVec::new();
    bytes.try_extend_from_slice(text.as_slice()).unwrap();
    bytes
}

/// Returns the packet whose encoding is all of the bytes (docs/FORMATS.md, "Packets").
///
/// # Errors
/// The first fault met from left to right. A proper prefix of a packet's encoding is `Short`; bytes
/// after its end are `Extra`.
pub fn decode(bytes: &[u8]) -> Result<Packet, WireFault>
    // A packet that is read has this encoding.
    ensures found { IfOk result (λ packet. IsText packet bytes.now) }
    // Each encoding is read.
    ensures only { (packet : Packet) → IsText packet bytes.now → result ≡ Ok packet }
    // A proper prefix of an encoding is short.
    ensures short { (packet : Packet) (rest : List ℕ) → IsText packet (bytes.now ++ rest) → rest ≢ []
        → result ≡ Err WireFault.Short }
    // Bytes after the end of an encoding are extra, and nothing else is.
    ensures extra { (result ≡ Err WireFault.Extra) ↔ HasMore IsText bytes.now }
    // A fault describes the bytes, and by `laws_of_faults` they have no other.
    ensures why { IfErr result (λ fault. IsWireFault fault bytes.now) }
{
    all(bytes)
}

/// States that no encoding of a packet is a proper prefix of another packet's or of another one of
/// its own. So an encoding is that of one packet.
pub fn packet_texts_are_prefix_free()
    ensures { ArePrefixFree IsText }
{}

/// Reads a packet with no byte after it.
#[tactic(auto, unfolding(crate::specs::Packets::PacketReading::packet_of))]
fn all(bytes: &[u8]) -> Result<Packet, WireFault>
    ensures { result ≡ packet_of bytes.now }
{
    let mut reader = Reader::new(bytes);
    let mut packet = Packet::default();
    if let Err(fault) = layout::packet(&mut reader, &mut packet) {
        return Err(WireFault::of(reader.fault(fault)));
    }
    if !reader.is_empty() {
        return Err(WireFault::Extra);
    }
    Ok(packet)
}
