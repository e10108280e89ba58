//! A referee's host and a world over devices of its own, as docs/USING.md shows them.
ghost use Rattle.std.specs.Prelude.{IfSome};
ghost use Rattle.bg_wire.specs.Packets.PacketText.{IsPacket};

use crate::across::hosts::{Host, new_folder, remove_folder};
use crate::checks::check;
use bg_board::Player;
use bg_examples::own_devices::{BeginFault, world_over};
use bg_examples::referee_host::{HostFault, RefereeHost};
use bg_match::{Action, Actor, Level, Rules};
use bg_party::{Learned, Seat};
use bg_wire::{Packet, RestoreRefusal, decode, encode};
use bg_world::{Event, Keeper, Link, Outcome, Setup, World};
use std::fs;
use std::net::{Ipv4Addr, SocketAddr, UdpSocket};
use std::process::Abort;
use std::time::Duration;

const MATCH: u64 = 1;

/// A socket that never waits for long.
fn client(rt: &impl Host) -> UdpSocket {
    let socket = UdpSocket::bind(rt.host(), (Ipv4Addr::LOCALHOST, 0)).expect(rt, "a socket");
    let waits = socket.set_read_timeout(Some(Duration::from_millis(200)));
    waits.expect(rt, "a socket that waits");
    socket
}

/// The packet that comes next to a socket, if one does.
fn received(socket: &UdpSocket) -> Option<Packet>
    ensures { IfSome result IsPacket }
{
    let mut buffer = [0; 256];
    let (count, _) = socket.recv_from(&mut buffer).ok()?;
    decode(&buffer[..count]).ok()
}

/// More turns than it takes to open a game: five of six words do.
const MOST_TURNS: u32 = 100;

/// Watcher 3 wants all entries.
const WANT: Packet = Packet::Want {
    id: MATCH,
    rules: Rules::One,
    sender: 3,
    held: 0,
};

/// Sends a packet to an address.
fn send(rt: &impl Abort, socket: &UdpSocket, packet: &Packet, to: SocketAddr)
    requires { IsPacket packet.now }
{
    let sent = socket.send_to(encode(packet).as_slice(), to);
    sent.expect(rt, "a datagram is sent");
}

fn open<'a>(rt: &'a impl Host, folder: &str, length: u8) -> RefereeHost<'a, HostRuntime> {
    let host = RefereeHost::open(rt.host(), folder, 0, MATCH, length, Rules::One);
    host.expect(rt, "a host")
}

/// Why no host of this match begins.
fn refusal(host: &HostRuntime, folder: &str, length: u8, rules: Rules) -> Option<HostFault> {
    RefereeHost::open(host, folder, 0, MATCH, length, rules).err()
}

fn address(rt: &impl Abort, host: &RefereeHost<'_, HostRuntime>) -> SocketAddr {
    host.address().expect(rt, "an address")
}

fn turn(rt: &impl Abort, host: &mut RefereeHost<'_, HostRuntime>) {
    host.turn().expect(rt, "a turn");
}

/// Asks once for all entries, as watcher 3, and waits until the host tells some: they may come as
/// an answer or unasked.
fn told(rt: &impl Host, host: &mut RefereeHost<'_, HostRuntime>) -> Packet {
    let watcher = client(rt);
    send(rt, &watcher, &WANT, address(rt, host));
    for _ in 0..MOST_TURNS {
        turn(rt, host);
        if let Some(packet) = received(&watcher) {
            return packet;
        }
    }
    panic!(rt; "nothing was told")
}

/// Whether these are entries from the first.
fn is_first(packet: &Packet) -> bool {
    matches!(
        packet,
        Packet::Entries {
            id: MATCH,
            rules: Rules::One,
            start: 1,
            ..
        }
    )
}

/// Whether a folder has this file of the referee.
fn has_file(rt: &impl Host, folder: &str, slot: u8) -> bool {
    let path = format!(in rt.alloc(); "{folder}/party-0.{slot}");
    fs::metadata(rt.host(), path.expect(rt, "memory").as_str()).is_ok()
}

/// Whether a host was refused since the folder has another match.
fn is_wrong_match(refusal: Option<HostFault>) -> bool {
    matches!(
        refusal,
        Some(HostFault::Restore(RestoreRefusal::WrongMatch))
    )
}

/// Whether a host was refused since another one has the files.
fn is_in_use(refusal: Option<HostFault>) -> bool {
    matches!(refusal, Some(HostFault::System(_)))
}

/// A watcher that asked is told the opening once it is saved, in the file of slot 1, and a later
/// host over the same folder tells it again. None begins while another one has the files, or for a
/// match of another length or by other rules.
#[test]
fn hosts_answer(rt: HostRuntime) {
    check_answers(&rt);
}

/// Two hosts, one after the other, tell the same.
fn check_answers(rt: &impl Host) {
    let folder = new_folder(rt, "hosts-answer");
    let first = first_answer(rt, folder);
    check(rt, "the first entries", is_first(&first));
    check(rt, "the same once more", later_answer(rt, folder) == first);
    remove_folder(rt, folder);
}

/// What a first host tells, which then has served.
fn first_answer(rt: &impl Host, folder: &str) -> Packet {
    let mut host = open(rt, folder, 5);
    let first = told(rt, &mut host);
    check_in_use(rt, folder);
    host.serve(1).expect(rt, "a turn");
    first
}

/// The opening is saved, and no other host begins.
fn check_in_use(rt: &impl Host, folder: &str) {
    check(
        rt,
        "slot 1 is written",
        has_file(rt, folder, 1) && !has_file(rt, folder, 0),
    );
    check(
        rt,
        "the files are in use",
        is_in_use(refusal(rt.host(), folder, 5, Rules::One)),
    );
}

/// What a later host of this match tells. None of another match begins.
fn later_answer(rt: &impl Host, folder: &str) -> Packet {
    check(
        rt,
        "another length",
        is_wrong_match(refusal(rt.host(), folder, 3, Rules::One)),
    );
    check(
        rt,
        "other rules",
        is_wrong_match(refusal(rt.host(), folder, 5, Rules::Two)),
    );
    told(rt, &mut open(rt, folder, 5))
}

/// Whether the seat may claim this action now, and then does.
fn chooses(seat: &mut Seat, action: Action) -> bool {
    seat.choose(action).is_ok()
}

/// The seat's claim counts as saved.
fn save(rt: &impl Abort, seat: &mut Seat) {
    let (_slot, save, _text) = seat.to_save().expect(rt, "a save");
    seat.mark_saved(save);
}

/// What a seat sends, if anything.
fn tick(rt: &impl Abort, socket: &UdpSocket, seat: &mut Seat, to: SocketAddr) {
    if let Some(packet) = seat.tick() {
        send(rt, socket, &packet, to);
    }
}

/// A seat takes what came.
fn take(socket: &UdpSocket, seat: &mut Seat) {
    if let Some(packet) = received(socket) {
        seat.take(&packet);
    }
}

/// One round of a seat: it sends what its core gives, the host has a turn, the core takes what
/// came, and the player gives the match up as soon as he may, or accepts that the other one does.
fn play(
    rt: &impl Abort,
    socket: &UdpSocket,
    seat: &mut Seat,
    host: &mut RefereeHost<'_, HostRuntime>,
) {
    tick(rt, socket, seat, address(rt, host));
    turn(rt, host);
    take(socket, seat);
    if chooses(seat, Action::Accept) || chooses(seat, Action::Resign(Level::Normal)) {
        save(rt, seat);
    }
}

fn fresh(rt: &impl Host, player: Player) -> Seat {
    Seat::fresh(rt.alloc(), player, MATCH, 1, Rules::One).expect(rt, "a seat")
}

/// Whether a seat holds the whole of a match of three entries.
fn holds_three(seat: &Seat) -> bool {
    seat.held().len() == 3 && seat.held().actor() == Actor::Nobody
}

/// Two seats play a match of one point over the host's socket: an opening, an offer to resign, and
/// its acceptance.
#[test]
fn hosts_referee(rt: HostRuntime) {
    check_refereed(&rt);
}

/// A match over a folder of its own.
fn check_refereed(rt: &impl Host) {
    let folder = new_folder(rt, "hosts-referee");
    play_over(rt, folder);
    remove_folder(rt, folder);
}

/// A host over the folder and two seats play a match.
fn play_over(rt: &impl Host, folder: &str) {
    let mut host = open(rt, folder, 1);
    let (mut x, mut o) = (fresh(rt, Player::X), fresh(rt, Player::O));
    play_match(rt, &mut host, &mut x, &mut o);
}

fn play_match(rt: &impl Host, host: &mut RefereeHost<'_, HostRuntime>, x: &mut Seat, o: &mut Seat) {
    let (x_socket, o_socket) = (client(rt), client(rt));
    play_rounds(rt, host, (&x_socket, x), (&o_socket, o));
}

/// Rounds of both seats, until both hold the end of the match.
fn play_rounds(
    rt: &impl Abort,
    host: &mut RefereeHost<'_, HostRuntime>,
    (x_socket, x): (&UdpSocket, &mut Seat),
    (o_socket, o): (&UdpSocket, &mut Seat),
) {
    for _ in 0..MOST_TURNS {
        play(rt, x_socket, x, host);
        play(rt, o_socket, o, host);
        if x.held().actor() == Actor::Nobody && o.held().actor() == Actor::Nobody {
            break;
        }
    }
    check(rt, "both hold the match", holds_three(x) && holds_three(o));
}

const SETUP: Setup = Setup {
    id: MATCH,
    length: 5,
    rules: Rules::One,
    watchers: 1,
};

/// A party takes what the link has for it.
fn take_event(party: u8) -> Event {
    Event::Take {
        party,
        pick: 0,
        word: 0,
    }
}

/// How many entries a party holds.
fn count<L: Link, K: Keeper>(world: &World<L, K>, party: u8) -> Option<u32> {
    match world.held(party) {
        Some(record) => Some(record.len()),
        None => None,
    }
}

/// Whether the referee opens the match and saves it, and the watcher learns of it. The world ends
/// before the test can.
fn begins<L: Link + Drop, K: Keeper + Drop>(mut world: World<L, K>) -> bool {
    let opens = world.step(Event::Due { word: 12 }) == Outcome::Due(Ok(1))
        && world.step(Event::Save { party: 0 }) == Outcome::Saved(1)
        && world.step(Event::Tick { party: 3 }) == Outcome::Sent(1);
    world.step(take_event(0));
    opens
        && world.step(take_event(3)) == Outcome::Learned(Learned::Grew(1))
        && world.step(take_event(3)) == Outcome::NoDatagram
}

/// Whether the referee goes on from what was saved, and the watcher from nothing.
fn goes_on<L: Link + Drop, K: Keeper + Drop>(mut world: World<L, K>) -> bool {
    count(&world, 0) == Some(1)
        && count(&world, 3) == Some(0)
        && world.step(Event::Save { party: 0 }) == Outcome::Saved(2)
}

/// Whether a world over the folder begins the match, or goes on with it.
fn comes_to(rt: &impl Abort, host: &HostRuntime, folder: &str, is_first: bool) -> bool {
    let world = world_over(host, folder, SETUP).expect(rt, "a world");
    plays(world, is_first)
}

/// Whether a world begins its match, or goes on with it.
fn plays<L: Link + Drop, K: Keeper + Drop>(world: World<L, K>, is_first: bool) -> bool {
    if is_first {
        begins(world)
    } else {
        goes_on(world)
    }
}

/// Whether there is no world of another match over the folder, as its files are of this one.
fn is_refused(host: &HostRuntime, folder: &str) -> bool {
    let other = world_over(host, folder, Setup { id: 2, ..SETUP });
    matches!(other, Err(BeginFault::Restart(0, _)))
}

/// A world over devices of one's own, and a later one over the same files.
#[test]
fn worlds_go_on(rt: HostRuntime) {
    check_worlds(&rt);
}

/// Worlds over one folder, one after the other.
fn check_worlds(rt: &impl Host) {
    let host = rt.host();
    let folder = new_folder(rt, "worlds-go-on");
    check(rt, "the match begins", comes_to(rt, host, folder, true));
    check(rt, "the match goes on", comes_to(rt, host, folder, false));
    check(rt, "another match", is_refused(host, folder));
    remove_folder(rt, folder);
}
