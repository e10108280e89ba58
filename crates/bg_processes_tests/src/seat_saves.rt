//! When a seat saves: each claim at once, and its answer with the next claim, or at a tick.
use crate::helpers::folders::{new_folder, remove_folder};
use crate::helpers::hosts::Host;
use crate::helpers::tables::real_devices::sit_down;
use crate::helpers::tables::{Devices, Sitting, Table};
use crate::helpers::words::{number, word};
use bg_auto::Observer;
use bg_match::{Number, Rules};
use bg_world::{Event, Keeper, Link, Outcome};
use std::process::Abort;

/// How often a seat has saved, and how many entries it held then.
#[derive(Drop)]
struct Saves {
    made: u32,
    entries: Number,
}

impl Observer for Saves {
    fn happened(&mut self, _event: &Event, outcome: &Outcome, held: Option<Number>) {
        if matches!(outcome, Outcome::Saved(_)) {
            self.made = self.made.wrapping_add(1);
            self.entries = held.unwrap_or_default();
        }
    }

    fn played(&mut self, _done: u32) {}
}

/// Each row has a party and what it does, and then how often O has saved, and how many entries its
/// last save has. O opens, and claims entries 2, 5 and 6.
const ROWS: &str = "\
referee ticks 0 0
o ticks 0 0
referee ticks 0 0
o listens 0 0
o plays 1 1
referee ticks 1 1
# The answer waits, but for no longer than until a tick.
o listens 1 1
o listens 1 1
o ticks 2 2
o ticks 2 2
x ticks 2 2
referee ticks 2 2
x listens 2 2
x plays 2 2
referee ticks 2 2
x listens 2 2
x plays 2 2
referee ticks 2 2
# What X did is not saved by itself.
o ticks 2 2
o plays 3 4
referee ticks 3 4
# The next claim is saved with the answer.
o listens 3 4
o plays 4 5
referee ticks 4 5
o listens 4 5
# A process that ends saves the answer first.
o ends 5 6
o ends 5 6
";

/// What parties do in turn, by rows.
#[derive(Drop)]
struct Steps<'a> {
    rows: &'a str,
}

impl<'a> Sitting for Steps<'a> {
    /// Rows end the test where a party does something else, or O has saved more or less.
    fn sit<R: Host, L: Link + Drop, K: Keeper + Drop, D: Devices<L, K> + Drop>(
        &self,
        rt: &R,
        table: &mut Table<D, L, K>,
    ) {
        let mut saves = Saves {
            made: 0,
            entries: 0,
        };
        for row in self.rows.lines() {
            if !row.starts_with('#') {
                let is_done = table.step(word(rt, row, 0), word(rt, row, 1), &mut saves);
                check_saved(rt, row, is_done, saves.made, saves.entries);
            }
        }
    }
}

/// What a row says was done, and O has saved so often since, and so many entries.
fn check_saved(rt: &impl Abort, row: &str, is_done: bool, made: u32, entries: Number) {
    let are_so_many = number(rt, word(rt, row, 2)) == made
        && number(rt, word(rt, row, 3)) == entries;
    let is_so = is_done && are_so_many;
    assert!(rt; is_so, "{row}: {made} saves, the last of {entries} entries");
}

/// The rows of a match in a folder of its own.
fn check_saves(rt: &impl Host, name: &str, rows: &str) {
    let folder = new_folder(rt, name);
    sit_down(rt, &Steps { rows }, folder, Rules::One, 0);
    remove_folder(rt, folder);
}

#[test]
fn answers_are_saved_with_the_next_claim_or_at_a_tick(rt: HostRuntime) {
    check_saves(&rt, "seat-saves", ROWS);
}

/// O claims entry 5, and its answer is not saved when the save of the next claim fails. So claim 5
/// is open again, and the choice of entry 6 is lost.
const LOST: &str = "\
referee ticks 0 0
o ticks 0 0
referee ticks 0 0
o listens 0 0
o plays 1 1
referee ticks 1 1
o ticks 2 2
x ticks 2 2
referee ticks 2 2
x listens 2 2
x plays 2 2
referee ticks 2 2
x listens 2 2
x plays 2 2
referee ticks 2 2
o ticks 2 2
o plays 3 4
referee ticks 3 4
o listens 3 4
o loses 3 4
o ticks 3 4
referee ticks 3 4
o listens 3 4
o plays 4 5
";

#[test]
fn a_claim_that_is_lost_with_its_save_is_not_claimed(rt: HostRuntime) {
    check_saves(&rt, "lost-claims", LOST);
}
