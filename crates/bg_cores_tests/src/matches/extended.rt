//! Lists of entries appended at once.
use super::is_copied;
use super::lines::entry;
use super::plays::{begun, is_pushed};
use crate::checks::{check_number, check_row};
use bg_match::{Entry, ExtendFault, Number, Record, Rules};
use std::process::Abort;

/// Puts the entries of some lines into a list.
fn fill(rt: &impl Abort, list: &mut [Entry], lines: &str) {
    for (place, line) in list.iter_mut().zip(lines.lines()) {
        *place = entry(rt, line);
    }
}

/// The entries of four lines.
fn entries(rt: &impl Abort, lines: &str) -> [Entry; 4] {
    let mut list = [Entry::Passed, Entry::Passed, Entry::Passed, Entry::Passed];
    fill(rt, &mut list, lines);
    list
}

fn push_all(rt: &impl Abort, record: &mut Record, list: &[Entry]) {
    for entry in list {
        check_row(rt, "an entry alone", is_pushed(record, entry));
    }
}

/// A record of these entries.
fn record_of(rt: &(impl AllocGlobal + Abort), list: &[Entry]) -> Record {
    let mut record = begun(rt, 5, Rules::One);
    push_all(rt, &mut record, list);
    record
}

/// Whether a record has as many entries as another, and its standing.
fn is_like(record: &Record, other: &Record) -> bool {
    record.len() == other.len() && record.standing() == other.standing()
}

/// Whether a record is the same as another.
fn is_same(record: &Record, other: &Record) -> bool {
    for number in 1..=other.len() {
        if !is_copied(other, record, number) {
            return false;
        }
    }
    is_like(record, other)
}

/// Whether a list is appended, and leads where another record stands.
fn is_appended(record: &mut Record, list: &[Entry], other: &Record) -> bool {
    record.after_all(list) == Ok(other.standing()) && record.extend(list) == Ok(())
}

/// Whether the fourth entry of a list is refused.
fn is_refused(record: &mut Record, list: &[Entry]) -> bool {
    record.after_all(list) == Err(4) && record.extend(list) == Err(ExtendFault::Illegal(4))
}

/// Whether a list is appended, after which a record is the same as another.
fn is_joined(record: &mut Record, list: &[Entry], other: &Record) -> bool {
    is_appended(record, list, other) && is_same(record, other)
}

/// Whether a list is refused for its fourth entry, and a record is still the same as another.
fn is_kept(record: &mut Record, list: &[Entry], other: &Record) -> bool {
    is_refused(record, list) && is_same(record, other)
}

/// A record of these entries, with this room for more.
fn roomy(rt: &(impl AllocGlobal + Abort), list: &[Entry], room: Number) -> Record {
    let mut record = record_of(rt, list);
    check_row(rt, "room", record.reserve(room).is_ok());
    record
}

/// The first so many entries, and those behind them.
fn parts<'a>(rt: &impl Abort, list: &'a [Entry], held: usize) -> (&'a [Entry], &'a [Entry]) {
    list.split_at_checked(held).expect(rt, "so many entries")
}

/// Whether the entries behind the first so many are appended, with this room for more.
fn joins(
    rt: &(impl AllocGlobal + Abort),
    list: &[Entry],
    whole: &Record,
    held: usize,
    room: Number,
) -> bool {
    let (front, rest) = parts(rt, list, held);
    is_joined(&mut roomy(rt, front, room), rest, whole)
}

fn check_joins(rt: &(impl AllocGlobal + Abort), list: &[Entry], whole: &Record) {
    for held in 0..=4 {
        let (without, with) = (
            joins(rt, list, whole, held, 0),
            joins(rt, list, whole, held, 4),
        );
        check_number(rt, "without room behind", held, without);
        check_number(rt, "with room behind", held, with);
    }
}

fn check_lists(rt: &(impl AllocGlobal + Abort), list: &[Entry]) {
    check_joins(rt, list, &record_of(rt, list));
}

/// X opens with 8-5 6-5, and O offers to resign, which X rejects.
const LIST: &str = "\
open 3 1
move 8-5 6-5
resign gammon
reject";

#[test]
fn lists_appended(rt: HostRuntime) {
    check_lists(&rt, &entries(&rt, LIST));
}

/// The entries behind the opening, of which the last does not follow.
const REFUSED: &str = "\
move 8-5 6-5
resign normal
take
reject";

/// Whether a list is refused behind the opening, and then the rest of the other one is appended.
fn joins_after(
    rt: &(impl AllocGlobal + Abort),
    record: &mut Record,
    refused: &[Entry],
    list: &[Entry],
) -> bool {
    let (front, rest) = parts(rt, list, 1);
    is_kept(record, refused, &record_of(rt, front)) && is_joined(record, rest, &record_of(rt, list))
}

/// The same of a record of the opening, with this room for more.
fn goes_on(
    rt: &(impl AllocGlobal + Abort),
    refused: &[Entry],
    list: &[Entry],
    room: Number,
) -> bool {
    let (front, _) = parts(rt, list, 1);
    joins_after(rt, &mut roomy(rt, front, room), refused, list)
}

fn check_refused(rt: &(impl AllocGlobal + Abort), refused: &[Entry], list: &[Entry]) {
    check_row(rt, "without room", goes_on(rt, refused, list, 0));
    check_row(rt, "with room", goes_on(rt, refused, list, 4));
}

/// A refused list leaves the record as it was, so that another one is appended as if there had been
/// none.
#[test]
fn refused_lists(rt: HostRuntime) {
    check_refused(&rt, &entries(&rt, REFUSED), &entries(&rt, LIST));
}
