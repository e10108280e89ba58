//! The parts of packets by which they are routed.
ghost use Rattle.std.specs.Prelude.{◌≡◌, Result};
ghost use Rattle.bg_c.specs.Packets.{ReadsPacket, packet_fields, sender_of};
ghost use Rattle.bg_c.specs.Sets.{Sets};
ghost use Rattle.bg_c.specs.declared.packets.PacketFields.{PacketFields as Fields};
ghost use Rattle.bg_c.specs.declared.statuses.Status.{Status as AStatus};
ghost use Rattle.bg_wire.specs.Packets.PacketText.{IsPacket};
ghost use Rattle.bg_wire.specs.Entries.Codes.{rules_code};

use crate::rooms::set;
use crate::statuses::Status;
use bg_match::Rules;
use bg_wire::{Packet, REFEREE, decode};

/// The parts of a packet, `bg_packet` of the header.
#[repr(C)]
#[derive(Clone, Copy)]
pub struct PacketFields {
    /// The number of the match.
    pub id: u64,
    /// The rules of the match: 1 or 2.
    pub rules: u32,
    /// 1 a want, 2 a claim, 3 entries.
    pub kind: u32,
    /// The party, from 1 to 255, that wants or claims; 0 where entries are told.
    pub sender: u32,
    /// The number of entries held, of the claimed entry, or of the first entry that is told.
    pub number: u32,
    /// The number of entries that are told, from 1 to 8; else 0.
    pub count: u32,
    /// 0.
    pub reserved: [u32; 3],
}

/// Returns the number of the rules.
pub(crate) fn rules_code(rules: Rules) -> u32
    ensures { result ≡ rules_code rules }
{
    match rules {
        Rules::One => 1,
        Rules::Two => 2,
    }
}

/// Returns the party that a packet says it is from: the referee where it tells entries.
pub(crate) fn sender_of(packet: &Packet) -> u8
    ensures { result ≡ sender_of packet.now }
{
    match packet {
        Packet::Want { sender, .. } | Packet::Claim { sender, .. } => *sender,
        Packet::Entries { .. } => REFEREE,
    }
}

impl PacketFields {
    /// Returns the parts of a packet.
    fn of(packet: &Packet) -> PacketFields
        requires { IsPacket packet.now }
        ensures { result ≡ packet_fields packet.now }
    {
        let (kind, sender, number, count) = match packet {
            Packet::Want { sender, held, .. } => (1, u32::from(*sender), *held, 0),
            Packet::Claim { sender, number, .. } => (2, u32::from(*sender), *number, 0),
            Packet::Entries { start, list, .. } => (3, 0, *start, list.entries.len() as u32),
        };
        PacketFields {
            id: packet.id(),
            rules: rules_code(packet.rules()),
            kind,
            sender,
            number,
            count,
            reserved: [0; 3],
        }
    }
}

/// Reads the parts of the packet whose encoding the bytes are.
fn read(bytes: &[u8]) -> Result<PacketFields, Status>
    ensures { ReadsPacket bytes.now result }
{
    let packet = decode(bytes)?;
    Ok(PacketFields::of(&packet))
}

/// Reads a packet, to route it. BG_NOT_A_PACKET leaves `packet` as it is.
#[unsafe(no_mangle)]
pub extern "C" fn bg_packet_read(bytes: &[u8], packet: &mut PacketFields) -> u32
    ensures { (made : Result Fields AStatus) × ReadsPacket bytes.now made × Sets made packet.old result packet.new }
{
    set(read(bytes), packet)
}
