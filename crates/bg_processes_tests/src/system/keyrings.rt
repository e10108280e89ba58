//! What goes between parties by their keys, and which datagrams count.
use crate::checks::check;
use crate::helpers::words::{small_number, word};
use crate::system::seals::keys::{key_of, secret};
use crate::system::words::bytes_of;
use bg_seals::{Key, MOST_PACKET_BYTES, SealedDatagram};
use bg_system::{Keyring, heard};
use std::net::{Ipv4Addr, SocketAddr};
use std::process::Abort;

pub(crate) const PORT: u16 = 4000;

/// Party 3 holds nothing of match 1, as another program sealed it under the key that is derived
/// from the bytes 0 to 31.
const WANT_OF_3: [u8; 34] = [
    0x42, 0x47, 0x02, 0x01, 0x00, 0x00, 0x00, 0x00, 0x00, 0x00, 0x00, 0x01, 0x01, 0x03, 0x00, 0x00,
    0x00, 0x00, 0xb4, 0xb5, 0x41, 0x3d, 0x2c, 0x34, 0x50, 0x73, 0x2b, 0xa9, 0xdf, 0xc5, 0x2f, 0x8f,
    0xac, 0xff,
];

pub(crate) fn referee() -> Keyring {
    Keyring::of_referee(&secret(), 1)
}

pub(crate) fn party(number: u8) -> Keyring {
    Keyring::OfParty(key_of(1, number))
}

/// The keys of a word: "referee", the number of a party, or "strange" for a key of another match.
pub(crate) fn keys_of(rt: &impl Abort, word: &str) -> Keyring {
    if word == "referee" {
        referee()
    } else if word == "strange" {
        Keyring::OfParty(Key::new(&[9; 32]))
    } else {
        party(small_number(rt, word))
    }
}

pub(crate) fn address(port: u16) -> SocketAddr {
    SocketAddr::from((Ipv4Addr::LOCALHOST, port))
}

/// The datagram of a packet that goes from one party to another, if these keys seal it.
pub(crate) fn sealed(keys: &Keyring, from: u8, to: u8, packet: &[u8]) -> Option<SealedDatagram> {
    if packet.len() > MOST_PACKET_BYTES {
        return None;
    }
    keys.seal(from, to, packet)
}

/// What a datagram says that came from an address, and which party it is from, if it counts.
pub(crate) fn heard_by<'a>(
    keys: &Keyring,
    own: u8,
    datagram: &'a [u8],
    from: SocketAddr,
) -> Option<(u8, &'a [u8])> {
    heard(keys, PORT, own, datagram, from)
}

/// Whether the datagram of another program is heard by the referee's keys as it is, if it is heard.
fn is_want_of_3(own: u8, last: u8, port: u16) -> Option<bool> {
    let from = SocketAddr::from((Ipv4Addr::new(127, 0, 0, last), port));
    let (party, bytes) = heard_by(&referee(), own, &WANT_OF_3, from)?;
    Some(party == 3 && bytes == &WANT_OF_3[..18])
}

#[test]
fn a_datagram_of_another_program(rt: HostRuntime) {
    check_want(&rt);
}

/// It is heard by the referee alone, and from its party's address and port alone.
fn check_want(rt: &impl Abort) {
    let is_heard = is_want_of_3(0, 1, PORT + 3) == Some(true);
    check(rt, is_heard, "the want of party 3");
    check(rt, is_want_of_3(0, 1, PORT + 4).is_none(), "port of 4");
    check(rt, is_want_of_3(0, 1, PORT).is_none(), "port of 0");
    check(rt, is_want_of_3(0, 2, PORT + 3).is_none(), "from elsewhere");
    check(rt, is_want_of_3(4, 1, PORT + 3).is_none(), "to party 4");
    check(rt, is_want_of_3(3, 1, PORT).is_none(), "to party 3");
}

/// Whether the second keys hear a packet of one party as what the first keys sealed to go to
/// another.
fn is_heard_as(sealing: &Keyring, from: u8, to: u8, packet: &[u8], opening: &Keyring) -> bool {
    let Some(datagram) = sealed(sealing, from, to, packet) else {
        return false;
    };
    let address = address(PORT + u16::from(from));
    match heard_by(opening, to, datagram.as_slice(), address) {
        Some((party, bytes)) => party == from && bytes == packet,
        None => false,
    }
}

fn is_heard(rt: &(impl AllocGlobal + Abort), row: &str) -> bool {
    let sealing = keys_of(rt, word(rt, row, 0));
    let from = small_number(rt, word(rt, row, 1));
    let to = small_number(rt, word(rt, row, 2));
    let packet = bytes_of(rt, word(rt, row, 3));
    let opening = keys_of(rt, word(rt, row, 4));
    is_heard_as(&sealing, from, to, packet, &opening)
}

/// By whose keys a packet is sealed to go from one party to another, its bytes, and by whose keys
/// it is heard there. The packets are those of parties that hold nothing of match 1, the opening 5
/// 6 of its referee, and the sign of life.
const HEARD: &str = "\
1 1 0 424702010000000000000001010100000000 referee
2 2 0 424702010000000000000001010200000000 referee
3 255 0 42470201000000000000000101ff00000000 referee
referee 0 1 424702030000000000000001010000000101010506 1
referee 0 200 424702030000000000000001010000000101010506 3
1 1 0 00 referee
referee 0 2 00 2
";

/// The same of what is not heard: of a watcher who claims to be X, or that the referee speaks; by
/// other keys; between two parties of which none is the referee, or both are; and what is no
/// packet.
const NOT_HEARD: &str = "\
3 3 0 424702010000000000000001010100000000 referee
3 1 0 424702010000000000000001010100000000 referee
3 3 0 424702030000000000000001010000000101010506 referee
referee 0 1 424702010000000000000001010100000000 1
strange 1 0 424702010000000000000001010100000000 referee
1 1 0 424702010000000000000001010100000000 strange
referee 0 1 424702030000000000000001010000000101010506 2
3 3 4 424702010000000000000001010100000000 3
referee 0 0 424702030000000000000001010000000101010506 referee
1 1 0 - referee
1 1 0 01 referee
1 1 0 0000 referee
";

#[test]
fn what_is_heard(rt: HostRuntime) {
    for row in HEARD.lines() {
        check(&rt, is_heard(&rt, row), row);
    }
    for row in NOT_HEARD.lines() {
        check(&rt, !is_heard(&rt, row), row);
    }
}
