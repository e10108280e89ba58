//! Sockets of the referee and the seats of a match, and scripts of what happens to them.
//!
//! A script has a line for each thing that happens or is to be seen, with parties by their numbers:
//! - "clock 1000": the clock shows so many milliseconds;
//! - "send 1 0 x-wants": the first party sends a packet to the second;
//! - "unsent 1 2 x-wants": that fails;
//! - "stray 0 64 rubbish": a stranger sends bytes so often to the party's port;
//! - "take 0 x-wants", "take 0 nothing": the party takes a packet, or there is nothing to take;
//! - "take-as 1 0 nothing": the same for the first party, from the socket of the second;
//! - "ask 1": the party asks whether the referee is there;
//! - "heard 1 2": so often the party has heard of the referee;
//! - "told 1 here", "told 1 nothing": the referee has told the party so of the other seat within
//!   the last seconds, or nothing;
//! - "rebind 1 3": another process has the first party's port, with the keys of the second;
//! - "# ..": a comment.

use crate::checks::{check, check_number};
use crate::helpers::hosts::{Host, Hosted};
use crate::helpers::lasting::lasting;
use crate::helpers::script_words::{packet_of, presence_of};
use crate::helpers::tables::real_devices::{free_port, keys_of};
use crate::helpers::told_failures::failures;
use crate::helpers::words::{number, small_number, word};
use arrayvec::ArrayVec;
use bg_processes::{Failures, PartySocket};
use bg_wire::{Datagram, PacketBytes};
use bg_world::{DeviceFault, Link};
use std::cell::Cell;
use std::io;
use std::net::{Ipv4Addr, UdpSocket};
use std::process::Abort;
use std::time::{Clock, Duration};

/// A clock that is set.
#[derive(Drop)]
pub(crate) struct SetClock {
    pub(crate) milliseconds: Cell<u64>,
}

impl SetClock {
    pub(crate) fn new() -> SetClock {
        SetClock {
            milliseconds: Cell::new(0),
        }
    }
}

impl Clock for SetClock {
    fn monotonic(&self) -> io::Result<Duration> {
        Ok(Duration::from_millis(self.milliseconds.get()))
    }

    fn since_1970(&self) -> io::Result<Duration> {
        self.monotonic()
    }

    fn sleep(&self, _duration: Duration) {}
}

pub(crate) fn datagram(rt: &impl Abort, to: u8, bytes: &[u8]) -> Datagram {
    let mut sent = ArrayVec::new();
    let fits = sent.try_extend_from_slice(bytes).is_ok();
    check(rt, fits, "bytes of a datagram");
    Datagram {
        to,
        bytes: PacketBytes { bytes: sent },
    }
}

/// A party takes these bytes from a link, or there is nothing for it to take.
pub(crate) fn takes<L: Link>(link: &mut L, party: u8, expected: Option<&[u8]>) -> bool {
    match (link.take(party, 0), expected) {
        (Ok(Some(bytes)), Some(expected)) => bytes.as_slice() == expected,
        (Ok(None), None) => true,
        _ => false,
    }
}

/// Whether a link sends these bytes. Where it does not, it has failed, and nothing lacked memory.
pub(crate) fn sends<L: Link>(rt: &impl Abort, link: &mut L, to: u8, bytes: &[u8]) -> bool {
    let sent = link.send(&datagram(rt, to, bytes));
    let has_memory = sent != Err(DeviceFault::Memory);
    check_number(rt, "memory for what goes to party", to.into(), has_memory);
    sent.is_ok()
}

/// The sockets of the referee and the seats, and the port of their match.
#[derive(Drop)]
pub(crate) struct Sockets<'a, R> {
    pub(crate) rt: &'a R,
    pub(crate) clock: &'a SetClock,
    failures: &'a Failures,
    pub(crate) port: u16,
    referee: Option<PartySocket<'a, SetClock>>,
    x: Option<PartySocket<'a, SetClock>>,
    o: Option<PartySocket<'a, SetClock>>,
}

/// Sockets of a match at a port of its own, by a clock that shows 0. They last as long as the
/// process.
pub(crate) fn lasting_sockets<R: Host>(rt: &R) -> &mut Sockets<'_, R> {
    let sockets = lasting(rt, Sockets::unbound(rt, free_port(rt, 10_000)));
    for party in 0..3 {
        sockets.rebind(party, party);
    }
    sockets
}

/// The sockets of a match come through a script.
pub(crate) fn check_script(rt: &impl Host, script: &str) {
    lasting_sockets(rt).play(script);
}

impl<'a, R: Host> Sockets<'a, R> {
    fn unbound(rt: &'a R, port: u16) -> Sockets<'a, R> {
        Sockets {
            rt,
            clock: lasting(rt, SetClock::new()),
            failures: failures(rt),
            port,
            referee: None,
            x: None,
            o: None,
        }
    }

    /// A socket at a party's port, with the keys of another one.
    pub(crate) fn bound(
        &self,
        port: u16,
        party: u8,
        keys: u8,
    ) -> io::Result<PartySocket<'a, SetClock>> {
        let keys = keys_of(keys);
        PartySocket::bind(self.rt.host(), self.clock, port, party, keys, self.failures)
    }

    fn place(&mut self, party: u8) -> &mut Option<PartySocket<'a, SetClock>> {
        match party {
            0 => &mut self.referee,
            1 => &mut self.x,
            _ => &mut self.o,
        }
    }

    fn rebind(&mut self, party: u8, keys: u8) {
        *self.place(party) = None;
        let bound = self.bound(self.port, party, keys);
        *self.place(party) = Some(bound.expect(self.rt, "a free port"));
    }

    /// The socket of a party.
    pub(crate) fn of(&mut self, party: u8) -> &mut PartySocket<'a, SetClock> {
        let rt = self.rt;
        self.place(party).as_mut().expect(rt, "a socket")
    }

    /// A stranger sends bytes so often to a party's port.
    fn stray(&mut self, party: u8, times: u8, bytes: Option<&[u8]>) {
        let port = self.port.saturating_add(u16::from(party));
        let bytes = bytes.expect(self.rt, "bytes");
        send_from_elsewhere(self.rt, port, bytes, times);
    }

    /// Whether a line of two parties, or of a party and a number, comes to what it says of a packet
    /// or of nothing.
    fn is_so_of_two(&mut self, verb: &str, party: u8, other: u8, packet: &str) -> bool {
        let packet = packet_of(self.rt, packet);
        if verb == "send" {
            self.sends(party, other, packet)
        } else if verb == "unsent" {
            !self.sends(party, other, packet)
        } else if verb == "take-as" {
            takes(self.of(other), party, packet)
        } else if verb == "stray" {
            self.stray(party, other, packet);
            true
        } else {
            false
        }
    }

    /// Whether a party sends a packet to another.
    fn sends(&mut self, from: u8, to: u8, packet: Option<&[u8]>) -> bool {
        let packet = packet.expect(self.rt, "a packet");
        let rt = self.rt;
        sends(rt, self.of(from), to, packet)
    }

    /// Whether a line of a party comes to what it says; behind the party stands a word.
    fn is_so_of(&mut self, verb: &str, party: u8, words: &str) -> bool {
        let rt = self.rt;
        let said = word(rt, words, 1);
        if verb == "take" {
            takes(self.of(party), party, packet_of(rt, said))
        } else if verb == "told" {
            self.of(party).other_seat() == presence_of(rt, said)
        } else if verb == "heard" {
            self.of(party).heard() == number(rt, said)
        } else if verb == "rebind" {
            self.rebind(party, small_number(rt, said));
            true
        } else {
            self.is_so_of_two(verb, party, small_number(rt, said), word(rt, words, 2))
        }
    }

    /// Whether a line comes to what it says.
    fn is_so(&mut self, line: &str) -> bool {
        let rt = self.rt;
        let (verb, words) = line.split_once(' ').expect(rt, line);
        if verb == "clock" {
            let milliseconds = number(rt, words);
            self.clock.milliseconds.set(u64::from(milliseconds));
            true
        } else if verb == "ask" {
            self.of(small_number(rt, words)).ask();
            true
        } else {
            verb == "#" || self.is_so_of(verb, small_number(rt, word(rt, words, 0)), words)
        }
    }

    /// Each line of a script comes to what it says.
    pub(crate) fn play(&mut self, script: &str) {
        let rt = self.rt;
        let mut number = 0u64;
        for line in script.lines() {
            number = number.wrapping_add(1);
            let is_so = self.is_so(line);
            assert!(rt; is_so, "line {number}: {line}");
        }
    }
}

/// Sends bytes to a port from a socket that no party has.
fn send_from_elsewhere(rt: &impl Host, port: u16, bytes: &[u8], times: u8) {
    let stranger = UdpSocket::bind(rt.host(), (Ipv4Addr::LOCALHOST, 0)).expect(rt, "a socket");
    for _ in 0..times {
        let sent = stranger.send_to(bytes, (Ipv4Addr::LOCALHOST, port));
        sent.expect(rt, "a datagram is sent");
    }
}
