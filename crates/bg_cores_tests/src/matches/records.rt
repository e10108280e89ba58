//! Records, entry by entry.
use super::is_copied;
use super::lines::{entry, level};
use super::plays::check_plays;
use crate::checks::check_row;
use crate::words::{parted, small_number, turn};
use bg_board::Die;
use bg_match::{Action, Actor, Entry, LengthFault, Record, Rules, entry_of};
use bg_turns::Dice;
use std::alloc::Global;
use std::process::Abort;

/// A match of one point in which X opened with 8-5 6-5, and one that opens after other entries were
/// refused.
const PLAYS: &str = "\
entries_of_a_short_record: 1 by rules 1
open 3 1
move 8-5 6-5
entry 0: none
entry 1: open 3 1
entry 2: move 8-5 6-5
entry 3: none
actor: O

size_of_a_short_record: 1 by rules 1
open 3 1
move 8-5 6-5
id: 7
length: 1
entries: 2

seats_of_a_short_record: 1 by rules 1
open 3 1
move 8-5 6-5
by 0: nobody
by 1: nobody
by 2: X
by 3: nobody

what_follows_a_short_record: 1 by rules 1
open 3 1
move 8-5 6-5
may: roll 6 6
take -> wrong phase
double -> no double: crawford
entries: 2

copy_of_a_short_record: 1 by rules 1
open 3 1
move 8-5 6-5
copy
id: 7
length: 1
entries: 2
by 2: X

refused_openings_and_turns: 1 by rules 1
open 3 3 -> equal opening
take -> wrong phase
open 3 1
move 8-5 -> more dice can be played
open 3 3 -> wrong phase
entries: 1";

#[test]
fn short_records(rt: HostRuntime) {
    check_plays(&rt, PLAYS);
}

/// Whether a copy has the entries and the standing of a record.
fn is_copy(record: &Record, copy: &Record) -> bool {
    for number in 1..=record.len() {
        if !is_copied(record, copy, number) {
            return false;
        }
    }
    copy.len() == record.len() && copy.standing() == record.standing()
}

/// Whether a record is given room, and its copy is as it is. The copy takes its place.
pub(super) fn copies(record: &mut Record) -> bool {
    if record.reserve(40).is_err() {
        return false;
    }
    match record.copy() {
        Ok(copy) => {
            let is_copy = is_copy(record, &copy);
            *record = copy;
            is_copy
        }
        Err(_) => false,
    }
}

/// Whether a new record of this length is empty, and the referee begins it.
fn is_begun(alloc: Global, length: u8) -> Result<bool, LengthFault> {
    let record = Record::new(alloc, 7, length, Rules::One)?;
    Ok(record.is_empty() && record.actor() == Actor::Referee)
}

/// A record of each of these lengths can be made, or can't.
fn check_lengths(rt: &(impl AllocGlobal + Abort), lengths: &str, made: Result<bool, LengthFault>) {
    for word in lengths.split(' ') {
        let length = small_number(rt, word);
        check_row(rt, word, is_begun(rt.alloc(), length) == made);
    }
}

#[test]
fn lengths(rt: HostRuntime) {
    check_lengths(&rt, "1 99", Ok(true));
    check_lengths(&rt, "0 100", Err(LengthFault::LengthOutOfRange));
}

/// An action, which is written as its entry is, but for "roll".
fn action(rt: &impl Abort, line: &str) -> Action {
    match line {
        "roll" => Action::Roll,
        "double" => Action::Double,
        "take" => Action::Take,
        "drop" => Action::Drop,
        "accept" => Action::Accept,
        "reject" => Action::Reject,
        _ => long_action(rt, line),
    }
}

fn long_action(rt: &impl Abort, line: &str) -> Action {
    let (kind, words) = parted(rt, line, " ");
    match kind {
        "move" => Action::Move(turn(rt, words)),
        "resign" => Action::Resign(level(rt, words)),
        _ => panic!(rt; "no action: {line}"),
    }
}

const THROW: Dice = Dice {
    first: Die::Six,
    second: Die::Five,
};

/// Whether an action makes this entry with 6 5, and without dice one too unless it rolls.
fn makes(action: &Action, entry: &Entry) -> bool {
    let rolls = *action == Action::Roll;
    entry_of(action.copy(), None).is_none() == rolls
        && entry_of(action.copy(), Some(THROW)).as_ref() == Some(entry)
}

/// Each action, and the entry that it makes with 6 5.
const ACTIONS: &str = "\
roll -> roll 6 5
double -> double
take -> take
drop -> drop
move 13-7 -> move 13-7
resign gammon -> resign gammon
accept -> accept
reject -> reject";

fn makes_entry_of(rt: &impl Abort, action: &Action, line: &str) -> bool {
    makes(action, &entry(rt, line))
}

/// Whether the action of a row makes its entry.
fn is_made(rt: &impl Abort, row: &str) -> bool {
    let (chosen, made) = parted(rt, row, " -> ");
    makes_entry_of(rt, &action(rt, chosen), made)
}

#[test]
fn entries_of_actions(rt: HostRuntime) {
    for row in ACTIONS.lines() {
        check_row(&rt, row, is_made(&rt, row));
    }
}
