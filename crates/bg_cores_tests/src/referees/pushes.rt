//! What the referee sends unasked, and to whom.
use super::packets::{MOVE, NO_DICE, O, ROLL, THREE_ONE, WATCHER, X, entries_of};
use super::referees::after_the_opening;
use super::rows::{Gives, Row, Told, check_rows, entry_of};
use bg_match::{Entry, Number};
use bg_referee::Referee;
use bg_wire::{Packet, Slot};

/// Whether the party of this push is told this entry under this number, and no more.
fn is_push(push: Option<&(u8, Packet)>, party: u8, number: Number, entry: &Entry) -> bool {
    match push {
        Some((to, packet)) => *to == party && tells_one(packet, number, entry),
        None => false,
    }
}

/// Whether a packet tells this entry under this number, and no more.
fn tells_one(packet: &Packet, number: Number, entry: &Entry) -> bool {
    match entries_of(packet, number) {
        Some([one]) => one == entry,
        _ => false,
    }
}

/// Whether the next tick sends this entry to this party, and nothing else.
pub(crate) fn pushes_to(referee: &mut Referee, party: u8, number: Number, told: Told) -> bool {
    let pushes = referee.tick();
    pushes.len() == 1 && is_push(pushes.as_slice().first(), party, number, &entry_of(told))
}

/// Whether the next tick sends this entry to this party, then to that one, and nothing else.
pub(crate) fn pushes_to_both(
    referee: &mut Referee,
    party: u8,
    other: u8,
    number: Number,
    told: Told,
) -> bool {
    let pushes = referee.tick();
    are_pushes(pushes.as_slice(), party, other, number, &entry_of(told))
}

/// Whether these are pushes of this entry to this party, then to that one, and nothing else.
fn are_pushes(
    pushes: &[(u8, Packet)],
    party: u8,
    other: u8,
    number: Number,
    entry: &Entry,
) -> bool {
    pushes.len() == 2
        && is_push(pushes.first(), party, number, entry)
        && is_push(pushes.get(1), other, number, entry)
}

/// Whether the next tick sends its first packet to this party.
pub(crate) fn first_push_goes_to(referee: &mut Referee, party: u8) -> bool {
    let pushes = referee.tick();
    match pushes.as_slice().first() {
        Some((to, _)) => *to == party,
        None => false,
    }
}

/// The watcher is told the opening, and O has it. Nobody learns of party 255, which is ahead. X,
/// who claims, has all that is saved then.
const UNASKED: [Row; 10] = [
    Row::Silence,
    Row::Want(WATCHER, 0, Gives::TheOpening(WATCHER)),
    Row::Want(O, 1, Gives::Nothing),
    Row::Want(255, 2, Gives::Ahead),
    Row::Claim(X, 2, &MOVE, NO_DICE, Gives::Accepted(2)),
    Row::Silence,
    Row::Save(Slot::Zero, 2),
    Row::PushToBoth(X, O, 2, Told::Move),
    Row::Push(WATCHER, 2, Told::Move),
    Row::Silence,
];

#[test]
fn what_is_sent_unasked(rt: HostRuntime) {
    check_rows(&rt, after_the_opening(&rt), &UNASKED);
}

const ONCE_ROUND: [Row; 11] = [
    Row::Want(X, 1, Gives::Nothing),
    Row::Want(254, 1, Gives::Nothing),
    Row::Want(255, 1, Gives::Nothing),
    Row::Claim(X, 2, &MOVE, NO_DICE, Gives::Accepted(2)),
    Row::Save(Slot::Zero, 2),
    Row::PushToBoth(X, 254, 2, Told::Move),
    // The round goes on behind 254, with 255 and X.
    Row::Claim(O, 3, &ROLL, THREE_ONE, Gives::Accepted(3)),
    Row::Save(Slot::One, 3),
    Row::FirstPush(255),
    Row::PushToBoth(O, 254, 3, Told::Roll),
    Row::Silence,
];

#[test]
fn once_round_the_parties(rt: HostRuntime) {
    check_rows(&rt, after_the_opening(&rt), &ONCE_ROUND);
}
