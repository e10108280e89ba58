//! A socket takes what it sends itself, and nothing else.
use crate::checks::check;
use crate::helpers::devices::stranger;
use crate::helpers::hosts::{Host, Hosted};
use crate::helpers::lasting::lasting;
use bg_system::OwnSocket;
use std::net::{SocketAddr, UdpSocket};
use std::process::Abort;

/// A socket, which lasts as long as the process.
fn opened<'a>(rt: &impl Host) -> &'a OwnSocket {
    lasting(rt, OwnSocket::open(rt.host()).expect(rt, "a socket"))
}

/// What the socket has next is this, and nothing where this is none.
fn check_next(rt: &impl Abort, own: &OwnSocket, expected: Option<&[u8]>, what: &str) {
    check(rt, is_next(own, expected), what);
}

/// Whether a socket is read, and has this.
fn is_next(own: &OwnSocket, expected: Option<&[u8]>) -> bool {
    match (own.receive(), expected) {
        (Ok(Some(bytes)), Some(wanted)) => bytes.as_slice() == wanted,
        (Ok(None), None) => true,
        _ => false,
    }
}

/// The socket has this datagram, and then no other.
fn check_only(rt: &impl Abort, own: &OwnSocket, bytes: &[u8], what: &str) {
    check_next(rt, own, Some(bytes), what);
    check_next(rt, own, None, "nothing more");
}

fn send(rt: &impl Abort, own: &OwnSocket, bytes: &[u8]) {
    check(rt, own.send(bytes).is_ok(), "a datagram is sent");
}

#[test]
fn own_datagrams_come_in_order(rt: HostRuntime) {
    check_order(&rt);
}

/// What was sent comes in its order, and no more than 256 bytes of each.
fn check_order(rt: &impl Host) {
    let own = opened(rt);
    check_next(rt, own, None, "nothing yet");
    send(rt, own, b"first");
    send(rt, own, b"");
    send(rt, own, &[3; 300]);
    check_next(rt, own, Some(b"first"), "the first");
    check_next(rt, own, Some(b""), "an empty one");
    check_only(rt, own, &[3; 256], "a long one, cut");
}

/// A stranger sends bytes so often, as far as there is room.
fn stray(stranger: &UdpSocket, bytes: &[u8], times: u32, to: SocketAddr) {
    for _ in 0..times {
        let _ = stranger.send_to(bytes, to);
    }
}

/// A socket that hears itself alone from now on, to which a stranger sent before.
fn opened_late<'a>(rt: &impl Host, stranger: &UdpSocket) -> &'a OwnSocket {
    let own: &'a OwnSocket = lasting(rt, OwnSocket::bind(rt.host()).expect(rt, "a socket"));
    for _ in 0..20 {
        let sent = stranger.send_to(b"early", own.address);
        check(rt, sent.is_ok(), "a stranger sends");
    }
    own.hear_only(own.address).expect(rt, "an address to hear");
    own
}

#[test]
fn datagrams_of_others_are_passed_over(rt: HostRuntime) {
    check_passed_over(&rt);
}

/// A socket has what it sent itself, whatever others send.
fn check_passed_over(rt: &impl Host) {
    let stranger = stranger(rt);
    let own = opened_late(rt, stranger);
    // What came before the socket was connected waits, and is passed over.
    send(rt, own, b"own");
    check_only(rt, own, b"own", "its own");
    // What comes later takes no room: more than the socket has room for leaves room for its own.
    stray(stranger, &[0x42; 128], 5000, own.address);
    send(rt, own, b"own again");
    check_only(rt, own, b"own again", "its own again");
    // Another socket of this kind is a stranger too.
    let other = opened(rt);
    send(rt, other, b"other");
    check_next(rt, own, None, "nothing of another");
    check_only(rt, other, b"other", "that of another");
}
