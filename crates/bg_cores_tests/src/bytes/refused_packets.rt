//! Packets of which bytes are missing, added or changed.
use crate::bytes::bytes::{joined, with_byte, with_bytes};
use crate::bytes::packets::{CLAIM, ENTRIES, WANT, check_spelling, packet_bytes};
use crate::checks::{check_bytes, check_number};
use bg_wire::{WireFault, decode};
use std::process::Abort;

/// A number of an entry that no record has: 1000001.
const TOO_GREAT: [u8; 4] = [0, 0x0f, 0x42, 0x41];

/// Whether the bytes are refused for this.
fn is_refused(bytes: &[u8], fault: WireFault) -> bool {
    decode(bytes).err() == Some(fault)
}

fn check_refused(rt: &impl Abort, bytes: &[u8], fault: WireFault) {
    check_bytes(rt, bytes, is_refused(bytes, fault));
}

/// The bytes are refused with others from an offset on.
fn check_with(rt: &impl Abort, bytes: &[u8], offset: usize, new: &[u8], fault: WireFault) {
    check_refused(rt, with_bytes(rt, bytes, offset, new).as_slice(), fault);
}

/// The byte at an offset is another, and so the bytes are refused for this.
type Change = (usize, u8, WireFault);

/// Whether the bytes are refused with a change, for what it says.
fn is_refused_with(rt: &impl Abort, bytes: &[u8], change: Change) -> bool {
    let (offset, byte, fault) = change;
    is_refused(with_byte(rt, bytes, offset, byte).as_slice(), fault)
}

/// The bytes are refused with each change, and with one more byte.
fn check_changes(rt: &impl Abort, bytes: &[u8], changes: &[Change]) {
    for (i, change) in changes.iter().enumerate() {
        check_number(rt, "change", i, is_refused_with(rt, bytes, *change));
    }
    check_refused(rt, joined(rt, bytes, &[0]).as_slice(), WireFault::Extra);
}

const OF_WANT: [Change; 11] = [
    (0, 0x43, WireFault::Magic),
    (1, 0x42, WireFault::Magic),
    (2, 0, WireFault::Version),
    (2, 1, WireFault::Version),
    (2, 3, WireFault::Version),
    (3, 0, WireFault::Kind),
    (3, 4, WireFault::Kind),
    (12, 0, WireFault::Field(12)),
    (12, 3, WireFault::Field(12)),
    (13, 0, WireFault::Field(13)),
    (14, 1, WireFault::Field(14)),
];

#[test]
fn refused_wants(rt: HostRuntime) {
    check_changes(&rt, &WANT, &OF_WANT);
    check_refused(&rt, &WANT[..17], WireFault::Short);
    check_with(&rt, &WANT, 14, &TOO_GREAT, WireFault::Field(14));
}

/// The rules are tested behind the match id, and before the fields of the kind.
#[test]
fn rules_before_other_fields(rt: HostRuntime) {
    check_with(&rt, &WANT, 12, &[3, 0], WireFault::Field(12));
    check_kind(&rt, with_bytes(&rt, &WANT, 12, &[3, 0]).as_slice());
    check_refused(&rt, &WANT[..12], WireFault::Short);
}

/// Of another kind the bytes are refused for that.
fn check_kind(rt: &impl Abort, bytes: &[u8]) {
    check_with(rt, bytes, 3, &[4], WireFault::Kind);
}

/// A Want as version 1 had it.
#[test]
fn old_version_refused(rt: HostRuntime) {
    let want = [
        0x42, 0x47, 0x01, 0x01, 0, 0, 0, 0, 0, 0, 0, 0x01, 0x03, 0, 0,
    ];
    check_refused(&rt, &want, WireFault::Version);
}

const OF_CLAIM: [Change; 11] = [
    (12, 0, WireFault::Field(12)),
    (12, 3, WireFault::Field(12)),
    (13, 0, WireFault::Field(13)),
    (13, 3, WireFault::Field(13)),
    (17, 0, WireFault::Field(14)),
    (18, 1, WireFault::Field(18)),
    (18, 10, WireFault::Field(18)),
    (19, 5, WireFault::Field(19)),
    (20, 0, WireFault::Field(20)),
    (20, 26, WireFault::Field(20)),
    (21, 8, WireFault::Field(21)),
];

#[test]
fn refused_claims(rt: HostRuntime) {
    check_changes(&rt, &CLAIM, &OF_CLAIM);
    check_with(&rt, &CLAIM, 14, &TOO_GREAT, WireFault::Field(14));
}

const OF_ENTRIES: [Change; 10] = [
    (12, 0, WireFault::Field(12)),
    (12, 3, WireFault::Field(12)),
    (16, 0, WireFault::Field(13)),
    (17, 0, WireFault::Field(17)),
    (17, 9, WireFault::Field(17)),
    (18, 0, WireFault::Field(18)),
    (18, 11, WireFault::Field(18)),
    (19, 0, WireFault::Field(19)),
    (20, 7, WireFault::Field(20)),
    (26, 6, WireFault::Field(26)),
];

#[test]
fn refused_entries(rt: HostRuntime) {
    check_changes(&rt, &ENTRIES, &OF_ENTRIES);
    check_with(&rt, &ENTRIES, 13, &TOO_GREAT, WireFault::Field(13));
    // Two entries from 1000000 on.
    let last_two = packet_bytes(&rt, 0x03, &[0, 0x0f, 0x42, 0x40, 2, 0x03, 0x03]);
    check_refused(&rt, last_two.as_slice(), WireFault::Field(17));
    check_refused(&rt, &[0], WireFault::Short);
}

/// Whatever byte is at an offset, what is read is spelled as the bytes are.
fn check_bytes_at(rt: &impl Abort, bytes: &[u8], offset: usize) {
    for byte in 0..=255 {
        check_spelling(rt, with_byte(rt, bytes, offset, byte).as_slice());
    }
}

/// A part of a packet's text is short, and what else is read of changed bytes is spelled as they
/// are.
#[test]
fn cut_and_changed_packets(rt: HostRuntime) {
    check_each_offset(&rt, &WANT);
    check_each_offset(&rt, &CLAIM);
    check_each_offset(&rt, &ENTRIES);
}

fn check_each_offset(rt: &impl Abort, bytes: &[u8]) {
    for offset in 0..bytes.len() {
        check_refused(rt, &bytes[..offset], WireFault::Short);
        check_bytes_at(rt, bytes, offset);
    }
}
