//! Early entries.
use super::watchers::{Row, check_rows, fresh, learns};
use super::{MOVED, MOVED_OTHERWISE, NONE, OFFERED, OPENING, REJECTED};
use crate::checks::check_row;
use bg_party::{Learned, Watcher};

const AFTER_A_GAP: [Row; 8] = [
    Row::Asks(0),
    Row::Told(2, &MOVED, &NONE, Learned::Gap),
    Row::Held(0),
    Row::Asks(0),
    Row::Told(1, &OPENING, &NONE, Learned::Grew(2)),
    Row::Asks(2),
    Row::TheMove,
    Row::Told(2, &MOVED, &NONE, Learned::Nothing),
];

#[test]
fn entries_after_a_gap(rt: HostRuntime) {
    check_rows(&rt, fresh(&rt), &AFTER_A_GAP);
}

const EARLY_ENTRIES: [Row; 6] = [
    Row::Told(2, &MOVED_OTHERWISE, &OFFERED, Learned::Gap),
    Row::Told(5, &OFFERED, &NONE, Learned::Gap),
    Row::Told(1, &OPENING, &NONE, Learned::Grew(1)),
    // All that was kept is dropped with it.
    Row::Told(2, &MOVED, &NONE, Learned::Grew(1)),
    Row::Told(3, &OFFERED, &REJECTED, Learned::Grew(2)),
    Row::Held(4),
];

#[test]
fn an_early_entry_that_does_not_follow(rt: HostRuntime) {
    check_rows(&rt, fresh(&rt), &EARLY_ENTRIES);
}

/// An early entry that does not follow the opening, 8-5 6-4 after 3 1, is not appended with it, nor
/// kept: the entry that follows is then taken in its place.
const ONE_EARLY_ENTRY: [Row; 7] = [
    Row::Told(2, &MOVED_OTHERWISE, &NONE, Learned::Gap),
    Row::Held(0),
    Row::Told(1, &OPENING, &NONE, Learned::Grew(1)),
    Row::Held(1),
    Row::Told(2, &MOVED, &NONE, Learned::Grew(1)),
    Row::Held(2),
    Row::TheMove,
];

#[test]
fn one_early_entry_that_does_not_follow(rt: HostRuntime) {
    check_rows(&rt, fresh(&rt), &ONE_EARLY_ENTRY);
}

const EARLY_ENTRIES_TWICE: [Row; 6] = [
    Row::Told(2, &MOVED_OTHERWISE, &OFFERED, Learned::Gap),
    Row::Told(5, &OFFERED, &NONE, Learned::Gap),
    Row::Told(2, &MOVED, &NONE, Learned::Gap),
    // The later arrival counts, and what is kept behind a hole stays.
    Row::Told(1, &OPENING, &NONE, Learned::Grew(3)),
    Row::Told(4, &REJECTED, &NONE, Learned::Grew(2)),
    Row::Held(5),
];

#[test]
fn early_entries_that_come_twice(rt: HostRuntime) {
    check_rows(&rt, fresh(&rt), &EARLY_ENTRIES_TWICE);
}

/// Whether a watcher learns the entries of this number, even and above 1, and of the next: an offer
/// and its rejection.
fn learns_an_offer(watcher: &mut Watcher, number: u8, learned: Learned) -> bool {
    learns(watcher, number, &OFFERED, &REJECTED, learned)
}

/// Whether a watcher learns the opening, and the entries from 2 to 29.
fn learns_up_to_29(watcher: &mut Watcher) -> bool {
    if !learns(watcher, 1, &OPENING, &NONE, Learned::Grew(1)) {
        return false;
    }
    for offers in 1..15 {
        if !learns_an_offer(watcher, 2 * offers, Learned::Grew(2)) {
            return false;
        }
    }
    true
}

/// Of the two, 32 is kept, and 33 is not.
const BEYOND_THE_WINDOW: [Row; 2] = [
    Row::Told(32, &OFFERED, &REJECTED, Learned::Gap),
    Row::Told(33, &REJECTED, &NONE, Learned::Gap),
];

const THE_REST: [Row; 2] = [
    Row::Told(30, &OFFERED, &REJECTED, Learned::Grew(3)),
    Row::Held(32),
];

#[test]
fn how_far_the_window_goes(rt: HostRuntime) {
    let watcher = fresh(&rt);
    check_rows(&rt, watcher, &BEYOND_THE_WINDOW);
    check_row(&rt, "up to 29", learns_up_to_29(watcher));
    check_rows(&rt, watcher, &THE_REST);
}

/// Whether a watcher keeps the entries from 2 to 33, all of them early.
fn keeps_up_to_33(watcher: &mut Watcher) -> bool {
    for offers in 1..17 {
        if !learns_an_offer(watcher, 2 * offers, Learned::Gap) {
            return false;
        }
    }
    true
}

const A_FULL_WINDOW: [Row; 2] = [
    Row::Told(1, &OPENING, &NONE, Learned::Grew(32)),
    Row::Told(33, &REJECTED, &NONE, Learned::Grew(1)),
];

#[test]
fn a_full_window(rt: HostRuntime) {
    let watcher = fresh(&rt);
    check_row(&rt, "up to 33", keeps_up_to_33(watcher));
    check_rows(&rt, watcher, &A_FULL_WINDOW);
}
