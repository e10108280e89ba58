//! Worked packets, byte by byte: the least and the greatest, and each kind of action and of entry.
use crate::bytes::bytes::{Bytes, extend, joined, list, turn, with_byte};
use crate::checks::{check_bytes, check_number};
use arrayvec::ArrayVec;
use bg_board::Die;
use bg_match::{Action, Entry, Level, Rules};
use bg_turns::Dice;
use bg_wire::{Datagram, LONGEST_PACKET, Packet, PacketBytes, decode, encode};
use std::process::Abort;

/// Party 3 holds nothing of match 1.
pub(crate) const WANT: [u8; 18] = [
    0x42, 0x47, 0x02, 0x01, 0, 0, 0, 0, 0, 0, 0, 0x01, 0x01, 0x03, 0, 0, 0, 0,
];

/// The seat of X plays 8-5 6-5 as entry 2 of match 1.
pub(crate) const CLAIM: [u8; 24] = [
    0x42, 0x47, 0x02, 0x02, 0, 0, 0, 0, 0, 0, 0, 0x01, 0x01, 0x01, 0, 0, 0, 0x02, 0x06, 0x02, 0x08,
    0x05, 0x06, 0x05,
];

/// Entries 1 and 2 of match 1: the opening 3 1, and 8-5 6-5.
pub(crate) const ENTRIES: [u8; 27] = [
    0x42, 0x47, 0x02, 0x03, 0, 0, 0, 0, 0, 0, 0, 0x01, 0x01, 0, 0, 0, 0x01, 0x02, 0x01, 0x03, 0x01,
    0x06, 0x02, 0x08, 0x05, 0x06, 0x05,
];

/// The text of a packet of match 1, by the first rules: the kind, and what follows the rules.
pub(crate) fn packet_bytes(rt: &impl Abort, kind: u8, rest: &[u8]) -> Bytes {
    let header = [0x42, 0x47, 0x02, kind, 0, 0, 0, 0, 0, 0, 0, 0x01, 0x01];
    joined(rt, &header, rest)
}

/// Whether the packet is read of the bytes, and they are written of it.
fn is_text_of(bytes: &[u8], packet: &Packet) -> bool {
    match decode(bytes) {
        Ok(found) => found == *packet && encode(&found).as_slice() == bytes,
        Err(_) => false,
    }
}

/// The packet is read of the bytes, and they are written of it.
fn check_packet(rt: &impl Abort, bytes: &[u8], packet: &Packet) {
    check_bytes(rt, bytes, is_text_of(bytes, packet));
}

/// A datagram of the bytes, to party 3, is copied whole.
fn check_copy(rt: &impl Abort, bytes: &[u8]) {
    let mut sent = ArrayVec::new();
    extend(rt, &mut sent, bytes);
    let datagram = Datagram {
        to: 3,
        bytes: PacketBytes { bytes: sent },
    };
    check_bytes(rt, bytes, datagram.copy() == datagram);
}

/// Whether what is read of the bytes, if they are a packet, is spelled as they are.
fn is_spelled_so(bytes: &[u8]) -> bool {
    match decode(bytes) {
        Ok(packet) => encode(&packet).as_slice() == bytes,
        Err(_) => true,
    }
}

/// What is read of the bytes is spelled as they are.
pub(crate) fn check_spelling(rt: &impl Abort, bytes: &[u8]) {
    check_bytes(rt, bytes, is_spelled_so(bytes));
}

#[test]
fn worked_want(rt: HostRuntime) {
    let want = Packet::Want {
        id: 1,
        rules: Rules::One,
        sender: 3,
        held: 0,
    };
    check_packet(&rt, &WANT, &want);
    check_copy(&rt, &WANT);
}

#[test]
fn worked_claim(rt: HostRuntime) {
    let claim = Packet::Claim {
        id: 1,
        rules: Rules::One,
        sender: 1,
        number: 2,
        action: Action::Move(turn(&rt, &[(8, 5), (6, 5)])),
    };
    check_packet(&rt, &CLAIM, &claim);
    check_copy(&rt, &CLAIM);
}

#[test]
fn worked_entries(rt: HostRuntime) {
    let opening = Entry::Opening(Die::Three, Die::One);
    let moved = Entry::Moved(turn(&rt, &[(8, 5), (6, 5)]));
    let entries = Packet::Entries {
        id: 1,
        rules: Rules::One,
        start: 1,
        list: list(&rt, &[opening, moved]),
    };
    check_packet(&rt, &ENTRIES, &entries);
    check_copy(&rt, &ENTRIES);
}

#[test]
fn default_packet(rt: HostRuntime) {
    let bytes = [
        0x42, 0x47, 0x02, 0x01, 0, 0, 0, 0, 0, 0, 0, 0, 0x01, 0x01, 0, 0, 0, 0,
    ];
    check_packet(&rt, &bytes, &Packet::default());
}

/// The text of an action, in the claim of it by party 2 as entry 1000000.
fn check_action(rt: &impl Abort, text: &[u8], action: Action) {
    let claim = Packet::Claim {
        id: 1,
        rules: Rules::One,
        sender: 2,
        number: 1000000,
        action,
    };
    let front = [0x02, 0, 0x0f, 0x42, 0x40];
    check_packet(rt, bytes_of(rt, 0x02, &front, text).as_slice(), &claim);
}

/// The text of a packet of match 1, by the first rules: the kind, and what follows the rules, in
/// two parts.
fn bytes_of(rt: &impl Abort, kind: u8, first: &[u8], second: &[u8]) -> Bytes {
    let mut bytes = packet_bytes(rt, kind, first);
    extend(rt, &mut bytes, second);
    bytes
}

/// The text of an entry, told as entry 1000000, by either rules.
fn check_entry(rt: &impl Abort, text: &[u8], entry: Entry) {
    let bytes = bytes_of(rt, 0x03, &[0, 0x0f, 0x42, 0x40, 1], text);
    check_told(rt, bytes.as_slice(), 1, Rules::One, &entry);
    check_told(rt, bytes.as_slice(), 2, Rules::Two, &entry);
}

/// The text with this number of the rules tells an entry.
fn check_told(rt: &impl Abort, bytes: &[u8], number: u8, rules: Rules, entry: &Entry) {
    let told = Packet::Entries {
        id: 1,
        rules,
        start: 1000000,
        list: list(rt, &[entry.copy()]),
    };
    check_packet(rt, with_byte(rt, bytes, 12, number).as_slice(), &told);
}

/// A turn of four steps, and its text.
const LONG_TURN: [(u8, u8); 4] = [(25, 24), (24, 0), (1, 0), (6, 2)];

const LONG_TURN_TEXT: [u8; 10] = [0x06, 4, 25, 24, 24, 0, 1, 0, 6, 2];

#[test]
fn each_kind_of_action(rt: HostRuntime) {
    check_action(&rt, &[0x02], Action::Roll);
    check_action(&rt, &[0x03], Action::Double);
    check_action(&rt, &[0x04], Action::Take);
    check_action(&rt, &[0x05], Action::Drop);
    check_action(&rt, &[0x06, 0], Action::Move(turn(&rt, &[])));
    let long = turn(&rt, &LONG_TURN);
    check_action(&rt, &LONG_TURN_TEXT, Action::Move(long));
    check_action(&rt, &[0x07, 1], Action::Resign(Level::Normal));
    check_action(&rt, &[0x07, 2], Action::Resign(Level::Gammon));
    check_action(&rt, &[0x07, 3], Action::Resign(Level::Backgammon));
    check_action(&rt, &[0x08], Action::Accept);
    check_action(&rt, &[0x09], Action::Reject);
}

#[test]
fn each_kind_of_entry(rt: HostRuntime) {
    let dice = Dice {
        first: Die::Six,
        second: Die::Two,
    };
    check_entry(&rt, &[0x01, 4, 4], Entry::Opening(Die::Four, Die::Four));
    check_entry(&rt, &[0x02, 6, 2], Entry::Rolled(dice));
    check_entry(&rt, &[0x03], Entry::Doubled);
    check_entry(&rt, &[0x04], Entry::Taken);
    check_entry(&rt, &[0x05], Entry::Dropped);
    let long = turn(&rt, &LONG_TURN);
    check_entry(&rt, &LONG_TURN_TEXT, Entry::Moved(long));
    check_entry(&rt, &[0x07, 2], Entry::Resigned(Level::Gammon));
    check_entry(&rt, &[0x08], Entry::Accepted);
    check_entry(&rt, &[0x09], Entry::Rejected);
    check_entry(&rt, &[0x0a], Entry::Passed);
}

/// Whether the bytes are a packet of match 1 by the second rules, and of no other.
fn is_by_second_rules(bytes: &[u8]) -> bool {
    match decode(bytes) {
        Ok(packet) => {
            packet.rules() == Rules::Two
                && packet.id() == 1
                && packet.is_of(1, Rules::Two)
                && !packet.is_of(1, Rules::One)
                && !packet.is_of(2, Rules::Two)
        }
        Err(_) => false,
    }
}

/// The bytes are a packet by the second rules.
fn check_second_rules(rt: &impl Abort, bytes: &[u8]) {
    check_bytes(rt, bytes, is_by_second_rules(bytes));
    check_spelling(rt, bytes);
}

/// Each kind of packet by the second rules.
#[test]
fn packets_by_second_rules(rt: HostRuntime) {
    check_second_rules(&rt, with_byte(&rt, &WANT, 12, 2).as_slice());
    check_second_rules(&rt, with_byte(&rt, &CLAIM, 12, 2).as_slice());
    check_second_rules(&rt, with_byte(&rt, &ENTRIES, 12, 2).as_slice());
    let want = Packet::Want {
        id: 1,
        rules: Rules::Two,
        sender: 3,
        held: 0,
    };
    check_packet(&rt, with_byte(&rt, &WANT, 12, 2).as_slice(), &want);
}

#[test]
fn longest_packet(rt: HostRuntime) {
    let entries = [[0x06, 4, 25, 0, 25, 24, 2, 1, 1, 0]; 8];
    let bytes = bytes_of(&rt, 0x03, &[0, 0x0f, 0x42, 0x39, 8], entries.as_flattened());
    check_number(&rt, "length", LONGEST_PACKET, is_longest(bytes.as_slice()));
    check_spelling(&rt, bytes.as_slice());
}

/// Whether the bytes are as many as a packet has at most, and are one.
fn is_longest(bytes: &[u8]) -> bool {
    bytes.len() == 98 && LONGEST_PACKET == 98 && decode(bytes).is_ok()
}
