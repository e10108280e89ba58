//! How the other seat stands, as the referee's socket tells a seat of it.
use crate::checks::check_number;
use crate::helpers::hosts::{Host, Hosted};
use crate::helpers::lasting::lasting;
use crate::helpers::party_scripts::{SetClock, check_script, takes};
use crate::helpers::tables::real_devices::{free_port, keys_of};
use crate::helpers::told_failures::failures;
use bg_processes::PartySocket;
use std::net::{Ipv4Addr, UdpSocket};

/// X was heard at 0, and O at 0 and at 20,000.
const STANDS: &str = "\
clock 0
told 1 nothing
ask 1
take 0 nothing
take 1 nothing
told 1 unheard
# With that the answer came, and O is told nothing unasked.
heard 1 1
take 2 nothing
told 2 nothing
ask 2
take 0 nothing
take 2 nothing
told 2 here
clock 2999
told 1 unheard
clock 3000
told 1 nothing
clock 9999
ask 1
take 0 nothing
take 1 nothing
told 1 here
clock 10000
ask 1
take 0 nothing
take 1 nothing
told 1 away
# What is heard may be a packet too.
clock 20000
send 2 0 o-wants
take 0 o-wants
ask 1
take 0 nothing
take 1 nothing
told 1 here
# Another referee has heard nothing.
rebind 0 0
ask 1
take 0 nothing
take 1 nothing
told 1 unheard
told 0 nothing
";

#[test]
fn a_seat_is_told_of_the_other(rt: HostRuntime) {
    check_script(&rt, STANDS);
}

/// The socket of a party that the test plays.
fn socket_of(rt: &impl Host, port: u16, party: u8) -> UdpSocket {
    let own = port.saturating_add(u16::from(party));
    let socket = UdpSocket::bind(rt.host(), (Ipv4Addr::LOCALHOST, own)).expect(rt, "a free port");
    socket.set_nonblocking(true).expect(rt, "a socket");
    socket
}

/// Sends bytes to the referee, sealed: as many as a packet has at most.
fn send(rt: &impl Host, socket: &UdpSocket, port: u16, party: u8, bytes: &[u8]) {
    assert!(rt; bytes.len() <= 128, "too many bytes for a packet");
    let sealed = keys_of(party).seal(party, 0, bytes).expect(rt, "a seal");
    let sent = socket.send_to(sealed.as_slice(), (Ipv4Addr::LOCALHOST, port));
    sent.expect(rt, "a datagram is sent");
}

/// Whether these bytes have come to a party from the referee, sealed, or nothing has.
fn is_next(socket: &UdpSocket, party: u8, expected: Option<&[u8]>) -> bool {
    let mut buffer = [0; 256];
    match (socket.recv_from(&mut buffer), expected) {
        (Ok((count, _)), Some(bytes)) => {
            keys_of(party).open(0, party, &buffer[..count]) == Some(bytes)
        }
        (Err(_), None) => true,
        _ => false,
    }
}

/// A party asks by the sign of life, and is answered by these bytes one behind the other.
fn check_answers<'a>(
    rt: &impl Host,
    referee: &mut PartySocket<'a, SetClock>,
    port: u16,
    party: u8,
    answers: &[&[u8]],
) {
    let socket = socket_of(rt, port, party);
    send(rt, &socket, port, party, &[0]);
    let is_so = takes(referee, 0, None) && are_all(&socket, party, answers);
    check_number(rt, "party", party.into(), is_so);
}

/// Whether these have come to a party from the referee, one behind the other, and no more.
fn are_all(socket: &UdpSocket, party: u8, answers: &[&[u8]]) -> bool {
    for bytes in answers {
        if !is_next(socket, party, Some(bytes)) {
            return false;
        }
    }
    is_next(socket, party, None)
}

#[test]
fn answers_in_bytes(rt: HostRuntime) {
    check_bytes(&rt);
}

/// Seats ask one after the other, and who watches.
fn check_bytes(rt: &impl Host) {
    let clock: &SetClock = lasting(rt, SetClock::new());
    let port = free_port(rt, 10_000);
    let referee = referee(rt, clock, port);
    // Who watches is told nothing of the seats.
    check_answers(rt, referee, port, 3, &[&[0]]);
    check_answers(rt, referee, port, 1, &[&[0, 0], &[0]]);
    check_answers(rt, referee, port, 2, &[&[0, 1], &[0]]);
    clock.milliseconds.set(10_000);
    check_answers(rt, referee, port, 1, &[&[0, 2], &[0]]);
    check_answers(rt, referee, port, 2, &[&[0, 1], &[0]]);
    check_answers(rt, referee, port, 4, &[&[0]]);
}

/// The referee's socket, which lasts as long as the process.
fn referee<'a>(
    rt: &impl Host,
    clock: &'a SetClock,
    port: u16,
) -> &'a mut PartySocket<'a, SetClock> {
    let bound = PartySocket::bind(rt.host(), clock, port, 0, keys_of(0), failures(rt));
    lasting(rt, bound.expect(rt, "a free port"))
}
