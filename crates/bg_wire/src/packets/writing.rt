//! Packets as bytes (docs/FORMATS.md, "Packets").
ghost use Rattle.std.specs.Prelude.{◌≡◌, ◌≤◌, ◌+◌, ◌++◌, [], length};
ghost use Rattle.std.specs.Int.{w32, to_be_bytes};
ghost use Rattle.std.specs.List.{AllByRecursion};
ghost use Rattle.bg_match.specs.Entry.{IsEntry};
ghost use Rattle.bg_wire.specs.Packets.PacketText.{IsPacket, header_text, list_text, packet_text};

use crate::entries::entry_writing::{put_action, put_entry};
use crate::entries::rules_bytes::rules_code;
use crate::entries::writer::Writer;
use crate::packets::layout::{CLAIM, ENTRIES, MAGIC, VERSION, WANT};
use crate::{EntryList, MOST_DATAGRAM_BYTES, MOST_ENTRIES_IN_PACKET, Packet};
use bg_match::{Number, Rules};

/// A writer with room for the encoding of any packet.
pub(crate) type PacketWriter = Writer<MOST_DATAGRAM_BYTES>;

fn put_number(out: &mut PacketWriter, number: Number)
    requires { length out.old + 4 ≤ MOST_DATAGRAM_BYTES }
    ensures { out.new ≡ out.old ++ to_be_bytes w32 number }
{
    out.put(&number.to_be_bytes());
}

fn put_list(out: &mut PacketWriter, list: &EntryList)
    requires few { length list.now ≤ MOST_ENTRIES_IN_PACKET }
    requires in_range { AllByRecursion IsEntry list.now }
    requires room { length out.old + 81 ≤ MOST_DATAGRAM_BYTES }
    ensures { out.new ≡ out.old ++ list_text list.now }
{
    let entries = list.entries.as_slice();
    out.put(&[entries.len() as u8]);
    for entry in entries {
        put_entry(out, entry);
    }
}

/// Appends the header of a packet.
fn put_header(out: &mut PacketWriter, kind: u8, id: u64, rules: Rules)
    requires { out.old ≡ [] }
    ensures { out.new ≡ header_text kind id rules }
{
    out.put(&MAGIC.to_be_bytes());
    out.put(&[VERSION, kind]);
    out.put(&id.to_be_bytes());
    out.put(&[rules_code(rules)]);
}

/// Writes the encoding of a packet to an empty writer.
pub(crate) fn put_packet(out: &mut PacketWriter, packet: &Packet)
    requires empty { out.old ≡ [] }
    requires in_range { IsPacket packet.now }
    ensures { out.new ≡ packet_text packet.now }
{
    match packet {
        Packet::Want {
            id,
            rules,
            sender,
            held,
        } => {
            put_header(out, WANT, *id, *rules);
            out.put(&[*sender]);
            put_number(out, *held);
        }
        Packet::Claim {
            id,
            rules,
            sender,
            number,
            action,
        } => {
            put_header(out, CLAIM, *id, *rules);
            out.put(&[*sender]);
            put_number(out, *number);
            put_action(out, action);
        }
        Packet::Entries {
            id,
            rules,
            start,
            list,
        } => {
            put_header(out, ENTRIES, *id, *rules);
            put_number(out, *start);
            put_list(out, list);
        }
    }
}
