//! The layout of packets, version 2 (docs/FORMATS.md, "Packets").
ghost use Rattle.std.specs.Prelude.{◌≡◌, ◌≤◌};
ghost use Rattle.bg_match.specs.Limits.{most_entries};
ghost use Rattle.bg_wire.specs.Entries.Reading.{Fills, Reads, many_at};
ghost use Rattle.bg_wire.specs.Entries.EntryReading.{entry_at};
ghost use Rattle.bg_wire.specs.Packets.PacketReading.{want_at, claim_at, most_from, list_at, entries_at};
ghost use Rattle.bg_wire.specs.Packets.PacketReading.{behind_kind_at, body_at, packet_at, wire_fault};

use crate::entries::codes::FIRST_ENTRY;
use crate::entries::entry_reading::{action, entry};
use crate::entries::reader::{FieldFault, ReadFault, Reader};
use crate::entries::rules_bytes::rules;
use crate::saves::layouts::Layout;
use crate::{
    EntryList, LAST_WATCHER, MOST_ENTRIES_IN_PACKET, Packet, SEAT_OF_O, SEAT_OF_X, WireFault,
};
use arrayvec::ArrayVec;
use bg_match::{MOST_ENTRIES, Number, Rules};

/// The number of two bytes with which every packet begins.
pub(crate) const MAGIC: u16 = 0x4247;

/// The version of this layout.
pub(crate) const VERSION: u8 = 2;

/// The kind of a Want.
pub(crate) const WANT: u8 = 1;

/// The kind of a Claim.
pub(crate) const CLAIM: u8 = 2;

/// The kind of Entries.
pub(crate) const ENTRIES: u8 = 3;

/// The offset of the first field, whose fault is Magic.
pub(crate) const MAGIC_AT: usize = 0;

/// The offset of the field whose fault is Version.
pub(crate) const VERSION_AT: usize = 2;

/// The offset of the field whose fault is Kind.
pub(crate) const KIND_AT: usize = 3;

impl WireFault {
    /// Returns the fault of a packet for that of a field. Three fields of the header have faults of
    /// their own.
    pub(crate) fn of(fault: ReadFault) -> WireFault
        ensures { result ≡ wire_fault fault }
    {
        match fault {
            ReadFault::Short => WireFault::Short,
            ReadFault::Field(MAGIC_AT) => WireFault::Magic,
            ReadFault::Field(VERSION_AT) => WireFault::Version,
            ReadFault::Field(KIND_AT) => WireFault::Kind,
            ReadFault::Field(at) => WireFault::Field(at),
        }
    }
}

#[tactic(auto, unfolding(crate::specs::Packets::PacketReading::want_at))]
fn want(
    reader: &mut Reader<'_>,
    id: u64,
    rules: Rules,
    packet: &mut Packet,
) -> Result<(), FieldFault>
    ensures { Fills result packet.new reader.new (want_at id rules reader.old) }
{
    let sender = reader.read_u8(SEAT_OF_X, LAST_WATCHER)?;
    let held = reader.read_u32(0, MOST_ENTRIES)?;
    *packet = Packet::Want {
        id,
        rules,
        sender,
        held,
    };
    Ok(())
}

#[tactic(auto, unfolding(crate::specs::Packets::PacketReading::claim_at))]
fn claim(
    reader: &mut Reader<'_>,
    id: u64,
    rules: Rules,
    packet: &mut Packet,
) -> Result<(), FieldFault>
    ensures { Fills result packet.new reader.new (claim_at id rules reader.old) }
{
    let sender = reader.read_u8(SEAT_OF_X, SEAT_OF_O)?;
    let number = reader.read_u32(FIRST_ENTRY, MOST_ENTRIES)?;
    let action = action(reader)?;
    *packet = Packet::Claim {
        id,
        rules,
        sender,
        number,
        action,
    };
    Ok(())
}

/// Returns the greatest number of entries that one packet tells from this number on.
fn most_from(start: Number) -> u8
    requires first { 1 ≤ start }
    requires last { start ≤ most_entries }
    ensures value { result ≡ most_from start }
    ensures few { result ≤ MOST_ENTRIES_IN_PACKET }
{
    let after = MOST_ENTRIES - start;
    if after < Number::from(MOST_ENTRIES_IN_PACKET) - 1 {
        after as u8 + 1
    } else {
        MOST_ENTRIES_IN_PACKET
    }
}

fn list_of(reader: &mut Reader<'_>, count: u8) -> Result<EntryList, FieldFault>
    requires { count ≤ MOST_ENTRIES_IN_PACKET }
    ensures { Reads result reader.new (many_at (entry_at Layout.Two) count reader.old) }
{
    let mut entries = ArrayVec::new();
    for _ in 0..count {
        entries.push(entry(reader, Layout::Two)?);
    }
    Ok(EntryList { entries })
}

#[tactic(auto, unfolding(crate::specs::Packets::PacketReading::list_at))]
fn list(reader: &mut Reader<'_>, start: Number) -> Result<EntryList, FieldFault>
    requires first { 1 ≤ start }
    requires last { start ≤ most_entries }
    ensures { Reads result reader.new (list_at start reader.old) }
{
    let count = reader.read_u8(1, most_from(start))?;
    list_of(reader, count)
}

#[tactic(auto, unfolding(crate::specs::Packets::PacketReading::entries_at))]
fn entries(
    reader: &mut Reader<'_>,
    id: u64,
    rules: Rules,
    packet: &mut Packet,
) -> Result<(), FieldFault>
    ensures { Fills result packet.new reader.new (entries_at id rules reader.old) }
{
    let start = reader.read_u32(FIRST_ENTRY, MOST_ENTRIES)?;
    let list = list(reader, start)?;
    *packet = Packet::Entries {
        id,
        rules,
        start,
        list,
    };
    Ok(())
}

/// Reads what follows the header.
#[tactic(auto, unfolding(crate::specs::Packets::PacketReading::body_at))]
fn body(
    reader: &mut Reader<'_>,
    kind: u8,
    id: u64,
    rules: Rules,
    packet: &mut Packet,
) -> Result<(), FieldFault>
    ensures { Fills result packet.new reader.new (body_at kind id rules reader.old) }
{
    match kind {
        WANT => want(reader, id, rules, packet),
        CLAIM => claim(reader, id, rules, packet),
        _ => entries(reader, id, rules, packet),
    }
}

/// Reads what follows the kind.
#[tactic(auto, unfolding(crate::specs::Packets::PacketReading::behind_kind_at))]
fn behind_kind(reader: &mut Reader<'_>, kind: u8, packet: &mut Packet) -> Result<(), FieldFault>
    ensures { Fills result packet.new reader.new (behind_kind_at kind reader.old) }
{
    let id = reader.read_u64()?;
    let rules = rules(reader)?;
    body(reader, kind, id, rules, packet)
}

/// Reads a packet at the front of the bytes.
#[tactic(auto, unfolding(crate::specs::Packets::PacketReading::packet_at))]
pub(crate) fn packet(reader: &mut Reader<'_>, packet: &mut Packet) -> Result<(), FieldFault>
    ensures { Fills result packet.new reader.new (packet_at reader.old) }
{
    reader.read_u16(MAGIC, MAGIC)?;
    reader.read_u8(VERSION, VERSION)?;
    let kind = reader.read_u8(WANT, ENTRIES)?;
    behind_kind(reader, kind, packet)
}
