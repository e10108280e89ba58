//! Packets and saved texts in which each byte was changed to every other value, given to the calls
//! that take bytes.
ghost use Rattle.bg_wire.specs.Packets.PacketText.{IsPacket};
ghost use Rattle.bg_wire.specs.Saved.SavedText.{IsSavable, parts_of};

use crate::checks::check;
use crate::fronts::{check_legal, is_front};
use bg_board::Player;
use bg_match::Rules;
use bg_party::{Seat, Watcher};
use bg_referee::Referee;
use bg_wire::{Packet, REFEREE, SEAT_OF_X, Saved, decode, encode, load, restore, save_text};
use std::alloc::Global;
use std::process::Abort;

/// A word with the dice 3 1.
const THREE_ONE: u32 = 12;

/// In match 1: watcher 3 wants all entries; X claims 8-5 6-5; the opening 3 1 and that move.
const WANT: [u8; 18] = [66, 71, 2, 1, 0, 0, 0, 0, 0, 0, 0, 1, 1, 3, 0, 0, 0, 0];

const CLAIM: [u8; 24] = [
    66, 71, 2, 2, 0, 0, 0, 0, 0, 0, 0, 1, 1, 1, 0, 0, 0, 2, 6, 2, 8, 5, 6, 5,
];

const ENTRIES: [u8; 27] = [
    66, 71, 2, 3, 0, 0, 0, 0, 0, 0, 0, 1, 1, 0, 0, 0, 1, 2, 1, 3, 1, 6, 2, 8, 5, 6, 5,
];

/// The referee's save 2 with these entries, and X's save 1 with the opening and that claim.
const REFEREE_SAVE: [u8; 33] = [
    66, 71, 83, 50, 0, 0, 0, 0, 0, 0, 0, 0, 1, 1, 1, 0, 0, 0, 2, 0, 0, 0, 0, 2, 1, 3, 1, 6, 2, 8,
    5, 6, 5,
];

const SEAT_SAVE: [u8; 37] = [
    66, 71, 83, 50, 1, 0, 0, 0, 0, 0, 0, 0, 1, 1, 1, 0, 0, 0, 1, 1, 0, 0, 0, 2, 6, 2, 8, 5, 6, 5,
    0, 0, 0, 1, 1, 3, 1,
];

/// The same saves in the layout that is read, and no longer written.
const REFEREE_SAVE_OF_OLD: [u8; 30] = [
    66, 71, 83, 49, 0, 0, 0, 0, 0, 0, 0, 0, 1, 1, 0, 0, 0, 2, 0, 0, 2, 1, 3, 1, 6, 2, 8, 5, 6, 5,
];

const SEAT_SAVE_OF_OLD: [u8; 32] = [
    66, 71, 83, 49, 1, 0, 0, 0, 0, 0, 0, 0, 1, 1, 0, 0, 0, 1, 1, 0, 2, 6, 2, 8, 5, 6, 5, 0, 1, 1,
    3, 1,
];

/// What bytes are of.
#[derive(Clone, Copy)]
enum Kind {
    Packet,
    /// A save of this party.
    Save(u8),
}

/// A referee that has opened match 1 and saved it takes the packet.
fn check_referee(rt: &impl Abort, alloc: Global, packet: &Packet)
    requires { IsPacket packet.now }
{
    let referee = Referee::fresh(alloc, 1, 1, Rules::One);
    let mut referee = referee.expect(rt, "a length");
    check(rt, "an opening", referee.due(THREE_ONE) == Ok(1));
    let (_, save, _) = referee.to_save().expect(rt, "a save");
    referee.mark_saved(save);
    let _ = referee.take(packet, THREE_ONE);
    check_legal(rt, alloc, referee.held());
}

/// A seat takes the packet.
fn check_seat(rt: &impl Abort, alloc: Global, packet: &Packet)
    requires { IsPacket packet.now }
{
    let seat = Seat::fresh(alloc, Player::X, 1, 1, Rules::One);
    let mut seat = seat.expect(rt, "a length");
    let _ = seat.take(packet);
    check_legal(rt, alloc, seat.held());
}

/// A watcher takes the packet.
fn check_watcher(rt: &impl Abort, alloc: Global, packet: &Packet)
    requires { IsPacket packet.now }
{
    let watcher = Watcher::fresh(alloc, 3, 1, 1, Rules::One);
    let mut watcher = watcher.expect(rt, "a length");
    let _ = watcher.take(packet);
    check_legal(rt, alloc, watcher.held());
}

/// All cores take the bytes, where these are a packet.
fn check_packet(rt: &impl Abort, alloc: Global, bytes: &[u8]) {
    if let Ok(packet) = decode(bytes) {
        check(
            rt,
            "a packet is written as it stood",
            encode(&packet).as_slice() == bytes,
        );
        check_referee(rt, alloc, &packet);
        check_seat(rt, alloc, &packet);
        check_watcher(rt, alloc, &packet);
    }
}

/// What was restored is legal, and so is what a core holds that goes on from it.
fn check_restored(rt: &impl Abort, alloc: Global, saved: Saved)
    requires { IsSavable (parts_of saved) }
{
    if saved.party == REFEREE {
        check_legal(rt, alloc, Referee::resume(alloc, saved).held());
    } else {
        check_legal(rt, alloc, Seat::resume(alloc, saved).held());
    }
}

/// What two slots of match 1 restore, if anything.
fn check_slots(rt: &impl Abort, alloc: Global, slot0: &[u8], slot1: &[u8], party: u8) {
    if let Ok(Some(saved)) = restore(alloc, slot0, slot1, party, 1, 1, Rules::One) {
        check_restored(rt, alloc, saved);
    }
}

/// The text of old was loaded as the same as what was written of it.
fn check_same(rt: &impl Abort, alloc: Global, saved: &Saved, text: &[u8]) {
    let again = load(alloc, text).expect(rt, "a written text loads");
    check(
        rt,
        "what was saved loads as the same",
        has_parts(&again, saved) && has_log(&again, saved),
    );
}

/// Whether party, save and claim are the same.
fn has_parts(again: &Saved, saved: &Saved) -> bool {
    again.party == saved.party && again.save == saved.save && again.claim == saved.claim
}

/// Whether the entries are the same.
fn has_log(again: &Saved, saved: &Saved) -> bool {
    again.log.len() == saved.log.len() && is_front(&again.log, &saved.log)
}

/// What was loaded is written as it stood, or, where it stood in the layout of old, as a text that
/// loads as the same.
fn check_written(rt: &impl Abort, alloc: Global, saved: &Saved, bytes: &[u8])
    requires { IsSavable (parts_of saved.now) }
{
    let text = save_text(alloc, saved).expect(rt, "memory");
    if bytes.get(3) == Some(&b'2') {
        check(
            rt,
            "what was saved is written as it stood",
            text.as_slice() == bytes,
        );
    } else {
        check_same(rt, alloc, saved, &text);
    }
}

/// The bytes are loaded, and restored in either slot, alone and beside a good text.
fn check_saved(rt: &impl Abort, alloc: Global, bytes: &[u8], good: &[u8], party: u8) {
    if let Ok(saved) = load(alloc, bytes) {
        check_written(rt, alloc, &saved, bytes);
        check_legal(rt, alloc, &saved.log);
    }
    check_slots(rt, alloc, bytes, good, party);
    check_slots(rt, alloc, good, bytes, party);
    check_slots(rt, alloc, bytes, &[], party);
    check_slots(rt, alloc, &[], bytes, party);
}

/// Puts a byte into this place.
fn put(bytes: &mut [u8], place: usize, byte: u8) {
    if let Some(old) = bytes.get_mut(place) {
        *old = byte;
    }
}

/// The text with each value in this place, in a copy of it.
fn check_place(
    rt: &impl Abort,
    alloc: Global,
    copy: &mut Vec<u8>,
    text: &[u8],
    kind: Kind,
    place: usize,
) {
    for byte in 0..=u8::MAX {
        put(copy, place, byte);
        match kind {
            Kind::Packet => check_packet(rt, alloc, copy),
            Kind::Save(party) => check_saved(rt, alloc, copy, text, party),
        }
    }
}

/// The text with each value in each place.
fn check_altered(rt: &(impl AllocGlobal + Abort), text: &[u8], kind: Kind) {
    let alloc = rt.alloc();
    let mut copy = text.to_vec(alloc).expect(rt, "memory");
    let mut place = 0usize;
    for byte in text {
        check_place(rt, alloc, &mut copy, text, kind, place);
        put(&mut copy, place, *byte);
        place = place.wrapping_add(1);
    }
}

fn check_altered_packets(rt: &(impl AllocGlobal + Abort)) {
    check_altered(rt, &WANT, Kind::Packet);
    check_altered(rt, &CLAIM, Kind::Packet);
    check_altered(rt, &ENTRIES, Kind::Packet);
}

#[test]
fn altered_packets(rt: HostRuntime) {
    check_altered_packets(&rt);
}

#[test]
fn altered_saves(rt: HostRuntime) {
    check_altered(&rt, &REFEREE_SAVE, Kind::Save(REFEREE));
    check_altered(&rt, &SEAT_SAVE, Kind::Save(SEAT_OF_X));
    check_altered(&rt, &REFEREE_SAVE_OF_OLD, Kind::Save(REFEREE));
    check_altered(&rt, &SEAT_SAVE_OF_OLD, Kind::Save(SEAT_OF_X));
}
