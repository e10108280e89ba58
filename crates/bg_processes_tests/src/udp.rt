//! Single calls of the sockets of a match.
use crate::checks::{check, check_number};
use crate::helpers::devices::lasting_link;
use crate::helpers::folders::{new_folder, remove_empty};
use crate::helpers::hosts::{Host, Hosted};
use crate::helpers::lasting::lasting;
use crate::helpers::party_scripts::{sends, takes};
use crate::helpers::stand_ins::{StandIn, stand_in};
use crate::helpers::told_failures::{check_told, failures};
use crate::helpers::words::number;
use bg_auto::LoopFault;
use bg_match::Rules;
use bg_processes::{Failures, UdpLink, run_loop};
use bg_streams::Writing;
use bg_world::Link;
use std::net::{IpAddr, Ipv4Addr, Net, SocketAddr, UdpSocket};
use std::process::Abort;

/// Each party has a socket of its own, and each is bound to 127.0.0.1.
#[test]
fn sockets_are_bound_to_the_loopback_address(rt: HostRuntime) {
    check_addresses(&rt);
}

/// The addresses of as many sockets as there are parties.
fn check_addresses(rt: &impl Host) {
    let net = stand_in(rt, 255);
    lasting_link(rt, net, 255, failures(rt));
    let is_own = net.opened() == 255 && !net.strayed.get();
    check(rt, is_own, "each party has a socket of its own");
    for index in 0..255 {
        let is_so = net.address(index).is_some_and(is_loopback);
        check_number(rt, "socket", index as u64, is_so);
    }
}

/// Whether it is a port of 127.0.0.1.
fn is_loopback(address: SocketAddr) -> bool {
    address.ip() == IpAddr::V4(Ipv4Addr::LOCALHOST) && address.port() != 0
}

/// Bytes that differ from one another: 0, 1 and so on up to 250, and then again.
fn counted() -> [u8; 600] {
    let mut bytes = [0; 600];
    for index in 0..600 {
        bytes[index] = (index % 251) as u8;
    }
    bytes
}

/// A party takes these bytes, or there is nothing for it to take.
fn check_taken<L: Link>(rt: &impl Abort, link: &mut L, party: u8, expected: Option<&[u8]>) {
    check_number(rt, "party", party.into(), takes(link, party, expected));
}

/// A datagram comes whole to its own party alone, and once; what came first is taken first,
/// whatever the pick.
#[test]
fn datagrams_come_to_their_party(rt: HostRuntime) {
    check_datagrams(&rt);
}

/// The sockets of four parties.
fn check_datagrams(rt: &impl Host) {
    check_order(rt, lasting_link(rt, rt.host(), 4, failures(rt)));
}

fn check_order<L: Link>(rt: &impl Abort, link: &mut L) {
    let bytes = counted();
    let (longest, packet) = (&bytes[..128], &bytes[..95]);
    for party in 0..4 {
        check_taken(rt, link, party, None);
    }
    check_sent(rt, link, 2, longest);
    check_sent(rt, link, 0, &[5]);
    check_sent(rt, link, 2, packet);
    check_taken(rt, link, 1, None);
    check_taken(rt, link, 3, None);
    check_taken(rt, link, 2, Some(longest));
    check_taken(rt, link, 2, Some(packet));
    check_taken(rt, link, 2, None);
    check_taken(rt, link, 0, Some(&[5]));
    check_taken(rt, link, 0, None);
}

/// Bytes are sent to a party.
fn check_sent<L: Link>(rt: &impl Abort, link: &mut L, to: u8, bytes: &[u8]) {
    check_number(rt, "to party", to.into(), sends(rt, link, to, bytes));
}

/// Of a datagram no more than 256 bytes are taken, and the rest is lost.
#[test]
fn longer_datagrams_are_cut(rt: HostRuntime) {
    check_long(&rt);
}

/// A link, and what sends to the socket of party 3.
fn check_long(rt: &impl Host) {
    let net = stand_in(rt, 4);
    let link = lasting_link(rt, net, 4, failures(rt));
    check_lengths(rt, net.socket(rt, 3), link);
}

/// Of so many bytes that are sent to the socket of party 3 so many are taken.
fn check_lengths<L: Link>(rt: &impl Abort, socket: &UdpSocket, link: &mut L) {
    let bytes = counted();
    for (count, taken) in [(0, 0), (255, 255), (256, 256), (257, 256), (600, 256)] {
        let is_sent = sends_itself(socket, &bytes[..count.min(bytes.len())]);
        let left = &bytes[..taken.min(bytes.len())];
        let is_cut = takes(link, 3, Some(left)) && takes(link, 3, None);
        check_number(rt, "bytes:", count as u64, is_sent && is_cut);
    }
}

/// Whether a socket sends all these bytes to itself.
fn sends_itself(socket: &UdpSocket, bytes: &[u8]) -> bool {
    match socket.local_addr() {
        Ok(address) => socket.send_to(bytes, address).ok() == Some(bytes.len()),
        Err(_) => false,
    }
}

/// A party that has no socket takes nothing, and what is sent to it fails; the others are as they
/// were.
#[test]
fn parties_beyond_the_last(rt: HostRuntime) {
    check_parties(&rt);
}

/// The sockets of four parties, where there may be more.
fn check_parties(rt: &impl Host) {
    let net = stand_in(rt, 255);
    let link = lasting_link(rt, net, 4, failures(rt));
    check(rt, net.opened() == 4, "four sockets");
    check_beyond(rt, link);
}

/// Parties with a socket and without one.
fn check_beyond<L: Link>(rt: &impl Abort, link: &mut L) {
    for party in [4, 5, 255, 0, 1, 2, 3] {
        let (own, has_socket) = ([party], party < 4);
        check_taken(rt, link, party, None);
        let is_sent = sends(rt, link, party, &own);
        check_number(rt, "to party", party.into(), is_sent == has_socket);
        let taken: Option<&[u8]> = if has_socket { Some(&own) } else { None };
        check_taken(rt, link, party, taken);
    }
}

/// Where the process may not have as many open files as there are parties, there is no link: it
/// notes for which party it got no socket.
#[test]
fn too_few_open_files(rt: HostRuntime) {
    check_too_few(&rt);
}

/// From no socket on.
fn check_too_few(rt: &impl Host) {
    for row in TOO_FEW.split_inclusive('\n') {
        let (sockets, line) = row.split_once(' ').expect(rt, "a number and a line");
        check_sockets(rt, number(rt, sockets) as usize, line);
    }
    check_sockets(rt, 4, "");
}

/// How many sockets there are, where they are too few, and the line that is noted then.
const TOO_FEW: &str = "\
0 no socket for party 0 on 127.0.0.1: Too many open files (os error 24)
1 no socket for party 1 on 127.0.0.1: Too many open files (os error 24)
2 no socket for party 2 on 127.0.0.1: Too many open files (os error 24)
3 no socket for party 3 on 127.0.0.1: Too many open files (os error 24)
";

/// Of a system that has so many sockets there are those of four parties, or none and this line.
fn check_sockets(rt: &impl Host, sockets: usize, line: &str) {
    let failures = failures(rt);
    let is_so = comes_to(stand_in(rt, sockets), sockets >= 4, failures);
    check_number(rt, "sockets:", sockets as u64, is_so);
    check_told(rt, failures, "", line);
}

/// Whether there are those of four parties, or a fault of sockets.
fn comes_to(net: &(impl Net + AllocGlobal), is_bound: bool, failures: &Failures) -> bool {
    match UdpLink::bind(net, 4, failures).err() {
        None => is_bound,
        Some(fault) => !is_bound && fault == LoopFault::Socket,
    }
}

/// Sockets are opened before the match is looked at, and no file before there are all of them.
#[test]
fn sockets_come_before_the_match(rt: HostRuntime) {
    check_first(&rt);
}

/// No length is looked at, and no file made.
fn check_first(rt: &impl Host) {
    let folder = new_folder(rt, "sockets-first");
    for length in [0, 1, 100] {
        let text = lasting(rt, Vec::new(rt.alloc()));
        let refused = refusal(stand_in(rt, 3), length, folder, failures(rt), text);
        let is_so = refused == Some(LoopFault::Socket) && text.is_empty();
        check_number(rt, "length", length.into(), is_so);
    }
    // It is empty: else it is not removed so.
    remove_empty(rt, folder);
}

/// Why no match of this length is played over these sockets.
fn refusal(
    net: &StandIn<'_>,
    length: u8,
    folder: &str,
    failures: &Failures,
    text: &mut Vec<u8>,
) -> Option<LoopFault> {
    let mut output = Writing::new(text);
    run_loop(net, 7, length, Rules::One, 1, folder, failures, &mut output).err()
}
