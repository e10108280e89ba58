//! What a seat is told of the other one, and which datagrams count.
use crate::checks::check;
use crate::helpers::words::{small_number, word};
use crate::system::keyrings::{PORT, address, heard_by, keys_of, party, referee, sealed};
use crate::system::words::{bytes_of, port};
use bg_system::{Keyring, Presence, SIGN_OF_LIFE, told};
use std::net::{Ipv4Addr, SocketAddr};
use std::process::Abort;

const HERE: &[u8] = &[0, 1];

/// What a party is told by bytes that these keys seal to go from the referee to a party, and that
/// come from an address.
fn told_by(sealing: &Keyring, to: u8, bytes: &[u8], own: u8, from: SocketAddr) -> Option<Presence> {
    let datagram = sealed(sealing, 0, to, bytes)?;
    told(&party(own), PORT, own, datagram.as_slice(), from)
}

/// Whether a party hears bytes that the referee seals for it, if it seals them.
fn is_heard(own: u8, bytes: &[u8]) -> Option<bool> {
    let datagram = sealed(&referee(), 0, own, bytes)?;
    let heard = heard_by(&party(own), own, datagram.as_slice(), address(PORT));
    Some(heard.is_some())
}

/// Both seats are told this by its bytes, which are no packet and no sign of life.
fn check_notice(rt: &impl Abort, presence: Presence, bytes: &[u8], what: &str) {
    check(rt, presence.notice().as_slice() == bytes, what);
    for seat in [1, 2] {
        let found = told_by(&referee(), seat, bytes, seat, address(PORT));
        let holds = found == Some(presence) && is_heard(seat, bytes) == Some(false);
        check(rt, holds, what);
    }
}

/// Each is told by its bytes. They are no packet and no sign of life, so that a seat of an older
/// program passes over them.
#[test]
fn notices(rt: HostRuntime) {
    check_notices(&rt);
}

fn check_notices(rt: &impl Abort) {
    check_notice(rt, Presence::Unheard, &[0, 0], "unheard");
    check_notice(rt, Presence::Here, HERE, "here");
    check_notice(rt, Presence::Away, &[0, 2], "away");
}

/// By whose keys bytes are sealed for which seat, to which one they come, from which port and from
/// which address of this machine, by its last number, and the bytes: what is no notice; and the
/// notice that goes to the other seat, under its key, or not from the referee's address and port.
const STRAYS: &str = "\
referee 1 1 4000 1 -
referee 1 1 4000 1 00
referee 1 1 4000 1 0003
referee 1 1 4000 1 0101
referee 1 1 4000 1 000100
referee 1 1 4000 1 01
referee 2 1 4000 1 0001
2 1 1 4000 1 0001
referee 1 1 4001 1 0001
referee 1 1 4002 1 0001
referee 1 1 4000 2 0001
";

/// What a seat is told as a row says.
fn told_in(rt: &(impl AllocGlobal + Abort), row: &str) -> Option<Presence> {
    let keys = keys_of(rt, word(rt, row, 0));
    let to = small_number(rt, word(rt, row, 1));
    let own = small_number(rt, word(rt, row, 2));
    let port = port(rt, word(rt, row, 3));
    let last = small_number(rt, word(rt, row, 4));
    let from = SocketAddr::from((Ipv4Addr::new(127, 0, 0, last), port));
    told_by(&keys, to, bytes_of(rt, word(rt, row, 5)), own, from)
}

#[test]
fn what_is_no_notice(rt: HostRuntime) {
    check_strays(&rt);
}

/// What is no notice, or does not count, tells nothing.
fn check_strays(rt: &(impl AllocGlobal + Abort)) {
    for row in STRAYS.lines() {
        check(rt, told_in(rt, row).is_none(), row);
    }
    let here = address(PORT);
    let sign = told_by(&referee(), 1, SIGN_OF_LIFE, 1, here);
    check(rt, sign.is_none(), "the sign of life");
    let unsealed = told(&party(1), PORT, 1, HERE, here);
    check(rt, unsealed.is_none(), "not sealed");
}
