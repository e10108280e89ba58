//! Rows of calls of a watcher with what each gives: the words of the tests of watchers.
use super::{entries, opening_move, want};
use crate::checks::check_number;
use crate::lasting::lasting;
use bg_match::{Entry, Number, Rules};
use bg_party::{Learned, Watcher};
use bg_wire::FIRST_WATCHER;
use std::process::Abort;

/// A call of a watcher and what it gives, or what the watcher then has.
#[derive(Clone, Copy)]
pub(crate) enum Row {
    /// It is told the entry of this number, and another behind it unless that has no bytes.
    Told(u8, &'static [u8], &'static [u8], Learned),
    /// Its tick sends what watcher 3 wants, who holds so many entries.
    Asks(Number),
    /// It holds so many entries.
    Held(Number),
    /// Its entry 2 is 8-5 6-5.
    TheMove,
}

/// The watcher of match 1, of length 1, of this number, by these rules, who holds nothing. It
/// lasts.
pub(crate) fn fresh_by(
    rt: &(impl AllocGlobal + Abort),
    party: u8,
    rules: Rules,
) -> &'static mut Watcher {
    assert!(rt; party >= FIRST_WATCHER);
    let watcher = Watcher::fresh(rt.alloc(), party, 1, 1, rules).expect(
        rt,
        "a length from 1 to 99",
    );
    lasting(rt, watcher)
}

/// The first watcher of that match by the first rules.
pub(crate) fn fresh(rt: &(impl AllocGlobal + Abort)) -> &'static mut Watcher {
    fresh_by(rt, FIRST_WATCHER, Rules::One)
}

/// Whether a watcher learns this from these entries.
pub(crate) fn learns(
    watcher: &mut Watcher,
    number: u8,
    first: &[u8],
    second: &[u8],
    learned: Learned,
) -> bool {
    let Some(packet) = entries(number, first, second) else {
        return false;
    };
    watcher.take(&packet) == learned
}

/// Whether entry 2 is the opening move.
fn holds_the_move(watcher: &Watcher) -> bool {
    watcher.held().entry(2) == Some(&Entry::Moved(opening_move()))
}

/// Whether the call gives what the row says.
fn gives(watcher: &mut Watcher, row: &Row) -> bool {
    match row {
        Row::Told(number, first, second, learned) => {
            learns(watcher, *number, first, second, *learned)
        }
        Row::Asks(held) => asks(watcher, *held),
        Row::Held(count) => watcher.held().len() == *count,
        Row::TheMove => holds_the_move(watcher),
    }
}

/// Whether watcher 3 sends what it wants, who holds so many entries.
fn asks(watcher: &mut Watcher, held: Number) -> bool {
    watcher.tick() == Some(want(3, held))
}

/// Every call gives what its row says.
pub(crate) fn check_rows(rt: &impl Abort, watcher: &mut Watcher, rows: &[Row]) {
    for (i, row) in rows.iter().enumerate() {
        check_number(rt, "row", i, gives(watcher, row));
    }
}
