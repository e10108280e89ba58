//! Entries applied to standings in place: each leads where `next` says, and a refused one changes
//! nothing.
use super::lines::entry;
use crate::checks::{check_line, check_number, check_row};
use bg_match::{Entry, Number, Record, Standing};
use std::process::Abort;

/// An entry of each kind, and a second opening and a second turn, which are refused for their
/// numbers.
const TRIED: &str = "\
open 3 1
open 3 3
roll 6 5
double
take
drop
move 8-5 6-5
move 8-5
resign gammon
accept
reject
pass";

/// Whether an entry leads a copy of a standing where `next` says, and a refused one leaves it as it
/// is.
pub(super) fn is_applied(standing: &Standing, entry: &Entry) -> bool {
    let mut after = *standing;
    let applied = after.apply(entry);
    match standing.next(entry) {
        Ok(next) => applied.is_ok() && after == next,
        Err(why) => applied == Err(why) && after == *standing,
    }
}

/// Each of the tried entries leads a copy of a standing where `next` says.
pub(super) fn check_tried(rt: &impl Abort, row: &str, standing: &Standing) {
    for line in TRIED.lines() {
        check_line(rt, row, line, is_applied(standing, &entry(rt, line)));
    }
}

/// Whether an entry of a match is applied.
fn applies(standing: &mut Standing, entry: &Entry) -> bool {
    is_applied(standing, entry) && standing.apply(entry) == Ok(())
}

/// Whether the entry of this number is there, and is applied.
fn applies_next(standing: &mut Standing, record: &Record, number: Number) -> bool {
    match record.entry(number) {
        Some(entry) => applies(standing, entry),
        None => false,
    }
}

fn start_of(record: &Record) -> Standing {
    Standing::start(record.length(), record.rules())
}

fn is_standing(record: &Record, standing: &Standing) -> bool {
    record.standing() == *standing
}

/// Applies the entries of a record in turn. At each standing the other entries are tried too.
pub(super) fn check_applied(rt: &impl Abort, names: &str, record: &Record) {
    let mut standing = start_of(record);
    for number in 1..=record.len() {
        check_tried(rt, names, &standing);
        let applies = applies_next(&mut standing, record, number);
        check_number(rt, names, number as usize, applies);
    }
    check_tried(rt, names, &standing);
    check_row(rt, names, is_standing(record, &standing));
}
