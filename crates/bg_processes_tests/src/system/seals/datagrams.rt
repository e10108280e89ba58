//! Datagrams that are sealed and opened, and those that are not opened.
use crate::checks::{check, check_number};
use crate::helpers::words::{small_number, word};
use crate::system::seals::keys::{SECRET, key_of};
use crate::system::words::{bytes_of, bytes_of_both};
use bg_seals::{Direction, Key, MOST_PACKET_BYTES, MasterSecret, TAG_BYTES};
use std::process::Abort;

/// Party 3 holds nothing of match 1.
const WANT: [u8; 18] = [
    0x42, 0x47, 0x02, 0x01, 0x00, 0x00, 0x00, 0x00, 0x00, 0x00, 0x00, 0x01, 0x01, 0x03, 0x00, 0x00,
    0x00, 0x00,
];

/// Packets, each behind its way, to the referee or from it, and its party, and with its tag under
/// the key of the bytes 0 to 31. The longest packet has 128 bytes.
const SEALS: &str = "\
to 3 424702010000000000000001010300000000 b77fadf4dbf60b277b8ffb1349db1777
from 3 424702010000000000000001010300000000 25f50d02940b04c55e0cd68be31b0e56
to 4 424702010000000000000001010300000000 f0df1b42269214c5f1d1d56e011a7510
to 1 - a8aed9e9ff91bf415a70eee0cdd3bae6
from 1 00 52a72c98af0311ab3cc051e74665097a
to 255 07*128 82756cecfe06562b3cfa50e04c125588
from 255 07*128 9f0e363ffb3ac80cd0ebc8faca7c788e
";

/// The way of a word.
fn way(word: &str) -> Direction {
    if word == "to" {
        Direction::ToReferee
    } else {
        Direction::FromReferee
    }
}

/// Whether a packet is sealed as this datagram.
fn is_sealed_as(key: &Key, way: Direction, party: u8, packet: &[u8], datagram: &[u8]) -> bool {
    packet.len() <= MOST_PACKET_BYTES && key.seal(way, party, packet).as_slice() == datagram
}

/// The packet of a datagram, where it is opened.
fn opened<'a>(key: &Key, way: Direction, party: u8, datagram: &'a [u8]) -> Option<&'a [u8]> {
    key.open(way, party, datagram)
}

/// Whether a datagram is opened as this packet.
fn is_opened_as(key: &Key, way: Direction, party: u8, datagram: &[u8], packet: &[u8]) -> bool {
    match opened(key, way, party, datagram) {
        Some(found) => found == packet,
        None => false,
    }
}

/// The packet of a row is sealed as its bytes and the tag, and opened again.
fn check_row(rt: &(impl AllocGlobal + Abort), key: &Key, row: &str) {
    let (way, party) = (way(word(rt, row, 0)), small_number(rt, word(rt, row, 1)));
    let packet = bytes_of(rt, word(rt, row, 2));
    let datagram = bytes_of_both(rt, word(rt, row, 2), word(rt, row, 3));
    let holds = is_sealed_as(key, way, party, packet, datagram)
        && is_opened_as(key, way, party, datagram, packet);
    check(rt, holds, row);
}

#[test]
fn sealed_datagrams(rt: HostRuntime) {
    let key = Key::new(&SECRET);
    for row in SEALS.lines() {
        check_row(&rt, &key, row);
    }
}

/// Whether what party 3 tells the referee of match 1 is opened.
fn is_opened(datagram: &[u8]) -> bool {
    opened(&key_of(1, 3), Direction::ToReferee, 3, datagram).is_some()
}

/// The want of party 3, sealed under its key.
const SEALED: [u8; 34] = [
    0x42, 0x47, 0x02, 0x01, 0x00, 0x00, 0x00, 0x00, 0x00, 0x00, 0x00, 0x01, 0x01, 0x03, 0x00, 0x00,
    0x00, 0x00, 0xb4, 0xb5, 0x41, 0x3d, 0x2c, 0x34, 0x50, 0x73, 0x2b, 0xa9, 0xdf, 0xc5, 0x2f, 0x8f,
    0xac, 0xff,
];

#[test]
fn flipped_bits(rt: HostRuntime) {
    check_flipped(&rt);
}

fn check_flipped(rt: &impl Abort) {
    check(rt, is_opened(&SEALED), "no bit is flipped");
    for at in 0..SEALED.len() {
        for bit in [1, 2, 4, 8, 16, 32, 64, 128] {
            let mut datagram = SEALED;
            datagram[at] ^= bit;
            check_number(rt, "a bit of byte", at as u64, !is_opened(&datagram));
        }
    }
}

#[test]
fn other_lengths(rt: HostRuntime) {
    check_lengths(&rt);
}

/// No part at an end of the datagram is opened, and nothing longer.
fn check_lengths(rt: &impl Abort) {
    for length in 0..SEALED.len() {
        let is_any = is_opened(&SEALED[..length]) || is_opened(&SEALED[length + 1..]);
        check_number(rt, "cut at", length as u64, !is_any);
    }
    let mut longer = [0; 35];
    longer[..34].copy_from_slice(&SEALED);
    check(rt, !is_opened(&longer), "a byte more");
    // A tag alone is that of the empty packet, and no packet has more than 128 bytes.
    check(rt, !is_opened(&[0; TAG_BYTES]), "a tag alone");
    check(rt, !is_opened(&[0; 145]), "too many bytes");
}

/// Under what the datagram is not opened: the match and the party of the key, and the way and the
/// party that are claimed.
const OTHERS: &str = "\
2 3 to 3
1 2 to 3
1 3 to 2
1 3 from 3
";

/// Whether the datagram is opened under what a row says of keys of a secret.
fn is_opened_under(rt: &impl Abort, secret: &[u8; 32], row: &str) -> bool {
    let id = small_number(rt, word(rt, row, 0));
    let party = small_number(rt, word(rt, row, 1));
    let key = MasterSecret::new(secret).key_of(u64::from(id), party);
    let (way, party) = (way(word(rt, row, 2)), small_number(rt, word(rt, row, 3)));
    opened(&key, way, party, &SEALED).is_some()
}

#[test]
fn other_matches_parties_and_ways(rt: HostRuntime) {
    check_others(&rt);
}

fn check_others(rt: &impl Abort) {
    for row in OTHERS.lines() {
        check(rt, !is_opened_under(rt, &SECRET, row), row);
    }
    let row = "1 3 to 3";
    check(rt, is_opened_under(rt, &SECRET, row), row);
    check(rt, !is_opened_under(rt, &[7; 32], row), "another secret");
}

/// What party `party` makes of the want, where the referee sealed it for party 3: whether it is the
/// want, or nothing.
fn of_a_want_for_3(key: &Key, party: u8) -> Option<bool> {
    let datagram = key.seal(Direction::FromReferee, 3, &WANT);
    let packet = opened(key, Direction::FromReferee, party, datagram.as_slice())?;
    Some(packet == WANT.as_slice())
}

/// A datagram that was sealed for one watcher goes to another: refused, though both have one key.
#[test]
fn another_watcher_of_the_key(rt: HostRuntime) {
    check_watchers(&rt, &key_of(1, 3));
}

fn check_watchers(rt: &impl Abort, key: &Key) {
    check(rt, of_a_want_for_3(key, 3) == Some(true), "watcher 3");
    check(rt, of_a_want_for_3(key, 4).is_none(), "watcher 4");
    check(rt, of_a_want_for_3(key, 0).is_none(), "the referee");
}
