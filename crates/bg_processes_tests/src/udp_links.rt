//! Sockets of a match among those of others, and what is noted of sockets that fail.
use crate::checks::{check, check_number};
use crate::helpers::devices::{lasting_link, stranger};
use crate::helpers::folders::{new_folder, remove_folder};
use crate::helpers::hosts::{Host, Hosted};
use crate::helpers::lasting::lasting;
use crate::helpers::party_scripts::sends;
use crate::helpers::played_loops::{SEED, SHORT, played};
use crate::helpers::stand_ins::{StandIn, stand_in};
use crate::helpers::told_failures::{failures, told};
use bg_auto::{LoopFault, Observer};
use bg_match::{Number, Rules};
use bg_processes::{Failures, UdpLink, play_loop};
use bg_streams::Writing;
use bg_wire::decode;
use bg_world::{Event, Link, Outcome};
use std::net::{Ipv4Addr, SocketAddr, UdpSocket};
use std::process::Abort;

/// Packets of match 7 that no party of it sends: an opening 5 6, another one 1 2, a claim of X and
/// one of O to resign as entry 2, and party 1 asking for what follows entry 1000000.
const FORGED: [&[u8]; 5] = [
    &[
        0x42, 0x47, 2, 3, 0, 0, 0, 0, 0, 0, 0, 7, 1, 0, 0, 0, 1, 1, 1, 5, 6,
    ],
    &[
        0x42, 0x47, 2, 3, 0, 0, 0, 0, 0, 0, 0, 7, 1, 0, 0, 0, 1, 1, 1, 1, 2,
    ],
    &[
        0x42, 0x47, 2, 2, 0, 0, 0, 0, 0, 0, 0, 7, 1, 1, 0, 0, 0, 2, 7, 3,
    ],
    &[
        0x42, 0x47, 2, 2, 0, 0, 0, 0, 0, 0, 0, 7, 1, 2, 0, 0, 0, 2, 7, 3,
    ],
    &[
        0x42, 0x47, 2, 1, 0, 0, 0, 0, 0, 0, 0, 7, 1, 1, 0, 0x0F, 0x42, 0x40,
    ],
];

/// Another process, which sends forged packets to each party after each event.
#[derive(Drop)]
struct Forger<'a> {
    socket: &'a UdpSocket,
    net: &'a StandIn<'a>,
    /// How many packets it has sent.
    sent: u64,
}

impl<'a> Forger<'a> {
    /// Sends all packets to a party.
    fn send_all(&mut self, address: SocketAddr) {
        for packet in &FORGED {
            if self.socket.send_to(*packet, address).is_ok() {
                self.sent = self.sent.wrapping_add(1);
            }
        }
    }
}

impl<'a> Observer for Forger<'a> {
    fn happened(&mut self, _event: &Event, _outcome: &Outcome, _held: Option<Number>) {
        for index in 0..4 {
            if let Some(address) = self.net.address(index) {
                self.send_all(address);
            }
        }
    }

    fn played(&mut self, _done: u32) {}
}

/// What is printed of sixty rounds, while a forger sends to each party after each event.
fn besieged<'a>(rt: &'a impl Host, folder: &str) -> &'a [u8] {
    let net = stand_in(rt, 4);
    let text = lasting(rt, Vec::new(rt.alloc()));
    let mut forger = Forger {
        socket: stranger(rt),
        net,
        sent: 0,
    };
    let ended = play_sixty(net, folder, text, &mut forger);
    check(rt, ended.is_ok(), "sixty rounds");
    check_number(rt, "forged packets:", forger.sent, forger.sent >= 1000);
    text.as_slice()
}

fn play_sixty(
    net: &StandIn<'_>,
    folder: &str,
    text: &mut Vec<u8>,
    forger: &mut Forger<'_>,
) -> Result<(), LoopFault> {
    let (mut output, rules) = (Writing::new(text), Rules::One);
    play_loop(
        net,
        SEED,
        1,
        rules,
        60,
        folder,
        &Failures::new(),
        &mut output,
        forger,
    )
}

#[test]
fn forged_packets_change_nothing(rt: HostRuntime) {
    check_forged(&rt);
}

/// A match among forged packets is the quiet one.
fn check_forged(rt: &impl Host) {
    for packet in &FORGED {
        check(rt, decode(*packet).is_ok(), "a packet");
    }
    let quiet = new_folder(rt, "quiet");
    let expected = played(rt, quiet, SEED, SHORT, 60);
    remove_folder(rt, quiet);
    let folder = new_folder(rt, "besieged");
    check(rt, besieged(rt, folder) == expected, "the quiet match");
    remove_folder(rt, folder);
}

/// Sockets of three parties. Those of the first two reach a port that nobody has, so that the call
/// after each send fails.
fn broken<'a>(rt: &impl Host, failures: &'a Failures) -> &'a mut UdpLink<'a> {
    let net = stand_in(rt, 3);
    let link = lasting_link(rt, net, 3, failures);
    for index in 0..2 {
        let reached = net.socket(rt, index).connect(closed(rt));
        reached.expect(rt, "an address to reach");
    }
    link
}

/// The address of a socket that is closed.
fn closed(rt: &impl Host) -> SocketAddr {
    let socket = UdpSocket::bind(rt.host(), (Ipv4Addr::LOCALHOST, 0)).expect(rt, "a socket");
    socket.local_addr().expect(rt, "an address")
}

/// So many failures were noted, whose lines begin so.
fn check_noted(rt: &impl Host, failures: &Failures, lines: &str) {
    let noted = told(rt, failures, "");
    let are_as_many = noted.lines().count() == lines.lines().count();
    check(rt, are_as_many && begin_so(noted, lines), noted);
}

/// Whether lines begin as these.
fn begin_so(lines: &str, begun: &str) -> bool {
    for (line, wanted) in lines.lines().zip(begun.lines()) {
        if !line.starts_with(wanted) {
            return false;
        }
    }
    true
}

/// The party sends a byte to itself. Whether that does not fail.
fn sends_byte<L: Link>(rt: &impl Abort, link: &mut L, party: u8) -> bool {
    sends(rt, link, party, &[party])
}

/// So often the two parties without an end fail at what follows a send: a read, or another send.
fn check_broken<L: Link>(rt: &impl Abort, link: &mut L, times: u32, is_read: bool) {
    for _ in 0..times {
        for party in 0..3 {
            let is_sent = sends_byte(rt, link, party);
            let goes_on = if is_read {
                link.take(party, 0).is_ok()
            } else {
                sends_byte(rt, link, party)
            };
            let is_so = is_sent && goes_on == (party == 2);
            check_number(rt, "party", party.into(), is_so);
        }
    }
}

/// A send that succeeded lies between two that failed, so that each of these is noted.
const UNSENT: &str = "\
no datagram could be sent to party 0:\x20
no datagram could be sent to party 1:\x20
no datagram could be sent to party 0:\x20
no datagram could be sent to party 1:\x20
";

const UNREAD: &str = "\
the socket of party 0 could not be read:\x20
the socket of party 1 could not be read:\x20
";

#[test]
fn each_socket_notes_that_it_fails(rt: HostRuntime) {
    check_notes(&rt);
}

/// Reads fail first, and then sends.
fn check_notes(rt: &impl Host) {
    let failures = failures(rt);
    let link = broken(rt, failures);
    check_broken(rt, link, 3, true);
    check_noted(rt, failures, UNREAD);
    check_broken(rt, link, 2, false);
    check_noted(rt, failures, UNSENT);
}

#[test]
fn a_party_without_a_socket(rt: HostRuntime) {
    check_missing(&rt);
}

/// Sends to such a party fail, and are noted once.
fn check_missing(rt: &impl Host) {
    let failures = failures(rt);
    let link = lasting_link(rt, rt.host(), 2, failures);
    check_without(rt, link);
    let line = "no datagram could be sent to party 2: ";
    check_noted(rt, failures, line);
}

fn check_without<L: Link>(rt: &impl Abort, link: &mut L) {
    for when in ["the first time", "the second time"] {
        check(rt, !sends_byte(rt, link, 2), when);
        check(rt, sends_byte(rt, link, 1), when);
        check(rt, link.take(2, 0) == Ok(None), when);
    }
}
