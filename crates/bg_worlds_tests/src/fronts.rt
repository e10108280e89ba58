//! What records of one match have in common, and that they are legal.
use crate::checks::{check_number, check_party};
use crate::worlds::memory_worlds::MemoryWorld;
use bg_match::{Number, Record};
use std::alloc::Global;
use std::process::Abort;

/// Appends a copy of the entry that another record has under this number. Whether there is one, and
/// it may follow.
fn push(record: &mut Record, other: &Record, number: Number) -> bool {
    match other.entry(number) {
        Some(entry) => record.push(entry.copy()).is_ok(),
        None => false,
    }
}

/// The entries follow each other from the start.
pub(crate) fn check_legal(rt: &impl Abort, alloc: Global, record: &Record) {
    let again = Record::new(alloc, record.id(), record.length(), record.rules());
    let mut again = again.expect(rt, "a length");
    for number in 1..=record.len() {
        check_number(rt, "entry", number.into(), push(&mut again, record, number));
    }
}

/// Whether the record is a front of the whole.
pub(crate) fn is_front(record: &Record, whole: &Record) -> bool {
    if record.len() > whole.len() {
        return false;
    }
    for number in 1..=record.len() {
        if record.entry(number) != whole.entry(number) {
            return false;
        }
    }
    true
}

/// Whether the record of a party that is up is a front of the whole.
fn holds_front(world: &MemoryWorld, party: u8, whole: &Record) -> bool {
    match world.held(party) {
        Some(record) => is_front(record, whole),
        None => true,
    }
}

/// The record of every party up to the last that is up is a front of the referee's, where that is
/// up.
pub(crate) fn check_fronts(rt: &impl Abort, world: &MemoryWorld, last: u8) {
    let Some(whole) = world.held(0) else {
        return;
    };
    for party in 1..=last {
        check_party(rt, party, holds_front(world, party, whole));
    }
}
