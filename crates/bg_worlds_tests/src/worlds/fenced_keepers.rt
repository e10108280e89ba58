//! A keeper in memory behind a fence: which writes it takes, what its slots have then, and nodes
//! that share it.

use crate::checks::{check, check_number, lasting};
use crate::worlds::parties::{ID, TERMS, begun_referee, begun_seat};
use crate::worlds::setups::{parted, small_number};
use bg_board::Player;
use bg_fences::{FencedMemoryKeeper, save_referee, save_seat};
use bg_match::Record;
use bg_wire::{LAST_SAVE, REFEREE, Slot, next_save};
use bg_world::{DeviceFault, Keeper, Outcome, RefereeNode, SeatNode};
use std::process::Abort;

/// A keeper whose slots have these bytes.
fn keeper(
    rt: &(impl AllocGlobal + Abort),
    zero: &[u8],
    one: &[u8],
) -> &'static mut FencedMemoryKeeper {
    let alloc = rt.alloc();
    let zero = zero.to_vec(alloc).expect(rt, "memory");
    let one = one.to_vec(alloc).expect(rt, "memory");
    lasting(alloc, FencedMemoryKeeper::new(alloc, zero, one)).expect(rt, "memory")
}

/// The text of the referee's save of this number, from 1, of a match with no entry. It lasts.
fn text_of(rt: &(impl AllocGlobal + Abort), number: u32) -> &'static [u8] {
    let alloc = rt.alloc();
    let log = Record::new(alloc, ID, TERMS.length, TERMS.rules).expect(rt, "a length");
    let next = next_save(alloc, number.saturating_sub(1), REFEREE, &None, &log);
    next.expect(rt, "a text").2.leak()
}

/// What a slot has. It lasts.
fn bytes_in(rt: &impl Abort, keeper: &mut FencedMemoryKeeper, slot: Slot) -> &'static [u8] {
    keeper.read(slot).expect(rt, "memory").leak()
}

/// Whether a write is taken, and its slot then has these bytes; or whether it is refused, and the
/// slot has what it had.
fn writes(
    rt: &impl Abort,
    keeper: &mut FencedMemoryKeeper,
    slot: Slot,
    bytes: &'static [u8],
    is_taken: bool,
) -> bool {
    let before = bytes_in(rt, keeper, slot);
    let written = keeper.write(slot, bytes);
    let after = bytes_in(rt, keeper, slot);
    if is_taken {
        written.is_ok() && after == bytes
    } else {
        written == Err(DeviceFault::Failed) && after == before
    }
}

/// Writes in a row: the number of a save, the slot that its text is written to, and what comes of
/// it.
const WRITES: &str = "\
2 0 refused
1 0 refused
1 1 taken
1 1 refused
3 1 refused
2 1 refused
2 0 taken
1 1 refused
2 0 refused
4 0 refused
3 1 taken";

/// The write of a row comes to what it says.
fn check_write(rt: &(impl AllocGlobal + Abort), keeper: &mut FencedMemoryKeeper, row: &str) {
    let (number, rest) = parted(rt, row, " ");
    let (slot, expected) = parted(rt, rest, " ");
    let text = text_of(rt, small_number(rt, number).into());
    let slot = if slot == "0" { Slot::Zero } else { Slot::One };
    check(rt, row, writes(rt, keeper, slot, text, expected == "taken"));
}

#[test]
fn saves_in_a_row(rt: HostRuntime) {
    let keeper = keeper(&rt, b"", b"");
    for row in WRITES.lines() {
        check_write(&rt, keeper, row);
    }
}

/// These bytes are refused, whichever slot they are written to.
fn check_refused(rt: &impl Abort, keeper: &mut FencedMemoryKeeper, bytes: &'static [u8]) {
    check(rt, "slot 0", writes(rt, keeper, Slot::Zero, bytes, false));
    check(rt, "slot 1", writes(rt, keeper, Slot::One, bytes, false));
}

/// The first bytes of the text of the save of this number.
fn torn(rt: &(impl AllocGlobal + Abort), number: u32) -> &'static [u8] {
    text_of(rt, number)
        .get(..20)
        .expect(rt, "a text of 33 bytes")
}

#[test]
fn bytes_that_are_no_next_save(rt: HostRuntime) {
    let keeper = keeper(&rt, b"", text_of(&rt, 1));
    check_refused(&rt, keeper, b"");
    check_refused(&rt, keeper, b"no saved text");
    check_refused(&rt, keeper, torn(&rt, 2));
}

/// Over slots that have these bytes, the save of this number is the next one.
fn check_next(rt: &(impl AllocGlobal + Abort), zero: &[u8], one: &[u8], number: u32) {
    let keeper = keeper(rt, zero, one);
    let (equal, next) = (number.saturating_sub(1), number);
    let is_refused = writes(rt, keeper, Slot::of(equal), text_of(rt, equal), false);
    let is_taken = writes(rt, keeper, Slot::of(next), text_of(rt, next), true);
    check_number(rt, "save", number.into(), is_refused && is_taken);
}

#[test]
fn slots_of_many_kinds(rt: HostRuntime) {
    let (first, fourth) = (text_of(&rt, 1), text_of(&rt, 4));
    check_next(&rt, b"", first, 2);
    // The fence goes by what the slots restore.
    check_next(&rt, torn(&rt, 2), first, 2);
    check_next(&rt, fourth, first, 5);
    check_next(&rt, fourth, torn(&rt, 5), 5);
}

#[test]
fn numbers_that_are_spent(rt: HostRuntime) {
    let last = text_of(&rt, LAST_SAVE);
    let keeper = keeper(&rt, b"", last);
    check_refused(&rt, keeper, last);
    check_refused(&rt, keeper, text_of(&rt, 1));
}

/// A referee that begins over the slots of the keeper. It lasts.
fn referee(
    rt: &(impl AllocGlobal + Abort),
    keeper: &mut FencedMemoryKeeper,
) -> &'static mut RefereeNode {
    let begun = begun_referee(rt.alloc(), TERMS, keeper);
    lasting(rt.alloc(), begun.expect(rt, "a length").0).expect(rt, "memory")
}

/// A seat of X that does so.
fn seat(rt: &(impl AllocGlobal + Abort), keeper: &mut FencedMemoryKeeper) -> &'static mut SeatNode {
    let begun = begun_seat(rt.alloc(), Player::X, TERMS, keeper);
    lasting(rt.alloc(), begun.expect(rt, "a length").0).expect(rt, "memory")
}

/// A referee saves, by the call that passes the fence.
fn saved(node: &mut RefereeNode, keeper: &mut FencedMemoryKeeper) -> Outcome {
    save_referee(node, keeper)
}

/// A referee saves, by its own call.
fn saved_alone(node: &mut RefereeNode, keeper: &mut FencedMemoryKeeper) -> Outcome {
    node.save(keeper)
}

/// A referee restarts. Whether it is up.
fn restarts(node: &mut RefereeNode, keeper: &mut FencedMemoryKeeper) -> bool {
    node.restart(keeper) == Outcome::Restarted
}

/// A referee opens the game by the dice of a word.
fn open(node: &mut RefereeNode, word: u32) {
    drop(node.due(word));
}

/// Whether two referees that are up hold the same first entry.
fn hold_the_same(first: &RefereeNode, second: &RefereeNode) -> bool {
    match (first.held(), second.held()) {
        (Some(first), Some(second)) => first.entry(1) == second.entry(1),
        _ => false,
    }
}

fn check_two_referees(rt: &(impl AllocGlobal + Abort)) {
    let keeper = keeper(rt, b"", b"");
    let (first, second) = (referee(rt, keeper), referee(rt, keeper));
    open(first, 12);
    open(second, 2);
    check(rt, "two openings", !hold_the_same(first, second));
    check(
        rt,
        "the first saves",
        saved(first, keeper) == Outcome::Saved(1),
    );
    check(
        rt,
        "the second is down",
        saved(second, keeper) == Outcome::SaveFault && second.held().is_none(),
    );
    check(
        rt,
        "the second goes on from that save",
        restarts(second, keeper) && hold_the_same(first, second),
    );
    check(
        rt,
        "the second saves",
        saved(second, keeper) == Outcome::Saved(2),
    );
    // The node's own call is refused too.
    check(
        rt,
        "the first is behind",
        saved_alone(first, keeper) == Outcome::SaveFault,
    );
}

#[test]
fn two_referees(rt: HostRuntime) {
    check_two_referees(&rt);
}

/// A seat saves.
fn seat_saved(node: &mut SeatNode, keeper: &mut FencedMemoryKeeper) -> Outcome {
    save_seat(node, keeper)
}

/// A seat restarts. Whether it is up.
fn seat_restarts(node: &mut SeatNode, keeper: &mut FencedMemoryKeeper) -> bool {
    node.restart(keeper) == Outcome::Restarted
}

fn check_two_seats(rt: &(impl AllocGlobal + Abort)) {
    let keeper = keeper(rt, b"", b"");
    let (first, second) = (seat(rt, keeper), seat(rt, keeper));
    check(
        rt,
        "the first saves",
        seat_saved(first, keeper) == Outcome::Saved(1),
    );
    check(
        rt,
        "the second is down",
        seat_saved(second, keeper) == Outcome::SaveFault && second.held().is_none(),
    );
    check(rt, "the second restarts", seat_restarts(second, keeper));
    check(
        rt,
        "the second saves",
        seat_saved(second, keeper) == Outcome::Saved(2),
    );
}

#[test]
fn two_seats(rt: HostRuntime) {
    check_two_seats(&rt);
}
