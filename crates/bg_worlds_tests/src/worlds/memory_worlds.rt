//! Worlds over devices in memory, as `simulate` makes them, and their plays.
//!
//! A play has rows, and lines that say what its world is made of and what is seen of it:
//! - "length 3", "watchers 2": the setup, else of length 1 and with none who watches;
//! - "fails: write 0 2 20", "fails: read 1 1", "fails: send 7 went", "fails: send 7 lost": the
//!   plan, where a cut is "none" or a number, or "cut", the one that the play is given;
//! - "held: 2 1 -": how many entries the parties hold, from party 0 on, "-" where one is down or
//!   not there;
//! - "sent to 0: 4": how many datagrams were sent to a party;
//! - "entry 2 of 0: O roll": an entry that a party holds.
//!
//! Each call of a world stands in one short function with no contract, so that what the call
//! ensures does not burden the proofs of the tests.
use crate::checks::{check, lasting};
use crate::sections::names_of;
use crate::worlds::lines::{check_outcome, event, lines_of};
use crate::worlds::setups::{number, parted, plan_of, setup_of, small_number};
use bg_match::{Number, Record};
use bg_text::parse_entry;
use bg_world::{Event, MemoryKeeper, MemoryNet, Outcome, RunReport, World, WorldFault, simulate};
use std::alloc::Global;
use std::process::Abort;

pub(crate) type MemoryWorld = World<MemoryNet, MemoryKeeper>;

/// The world of a play after these events, which lasts, and their report.
pub(crate) fn simulated(
    rt: &impl Abort,
    alloc: Global,
    lines: &[&str],
    cut: Option<u32>,
    events: &[Event],
) -> Result<(&'static mut MemoryWorld, RunReport), WorldFault> {
    let setup = setup_of(rt, lines);
    let plan = plan_of(rt, alloc, lines, cut)?;
    let (world, report) = simulate(alloc, setup, &plan, events)?;
    Ok((lasting(alloc, world)?, report))
}

/// The world of a play where nothing has happened yet.
fn world_by(
    rt: &impl Abort,
    alloc: Global,
    lines: &[&str],
    cut: Option<u32>,
) -> Result<&'static mut MemoryWorld, WorldFault> {
    let (world, _) = simulated(rt, alloc, lines, cut, &[])?;
    Ok(world)
}

/// The world of a play where nothing has happened yet. The first try may lack memory.
pub(crate) fn world_of(
    rt: &(impl AllocGlobal + Abort),
    lines: &[&str],
) -> &'static mut MemoryWorld {
    match world_by(rt, rt.alloc(), lines, None) {
        Ok(world) => world,
        Err(_) => world_by(rt, rt.alloc(), lines, None).expect(rt, "memory"),
    }
}

/// The events of the rows, which last.
pub(crate) fn events_of(rt: &(impl AllocGlobal + Abort), lines: &[&str]) -> &'static [Event] {
    let mut events = Vec::new(rt.alloc());
    add_events(rt, &mut events, lines);
    events.leak()
}

fn add_events(rt: &impl Abort, events: &mut Vec<Event>, lines: &[&str]) {
    for line in lines {
        if let Some((words, _)) = line.split_once(" -> ") {
            check(
                rt,
                "memory for an event",
                events.push(event(rt, words)).is_ok(),
            );
        }
    }
}

/// The event happens.
pub(crate) fn step(world: &mut MemoryWorld, event: Event) -> Outcome {
    world.step(event)
}

/// The event of a line happens.
pub(crate) fn happen(rt: &impl Abort, world: &mut MemoryWorld, line: &str) -> Outcome {
    step(world, event(rt, line))
}

/// The record of a party, if it is there and up.
pub(crate) fn record_of(world: &MemoryWorld, party: u8) -> Option<&Record> {
    world.held(party)
}

/// How many entries a party holds, if it is there and up.
pub(crate) fn held(world: &MemoryWorld, party: u8) -> Option<Number> {
    Some(record_of(world, party)?.len())
}

/// How many datagrams were sent to a party.
pub(crate) fn sent_to(world: &MemoryWorld, party: u8) -> u32 {
    world.link().sent_to(party)
}

/// The parties hold so many entries, from party 0 on.
fn check_held(rt: &impl Abort, world: &MemoryWorld, counts: &str) {
    for (party, word) in (0..=255).zip(counts.split(' ')) {
        let count = if word == "-" {
            None
        } else {
            Some(number(rt, word))
        };
        assert!(rt;
            held(world, party) == count,
            "held: {counts}, party {party}"
        );
    }
}

/// So many datagrams were sent to a party.
fn check_sent(rt: &impl Abort, world: &MemoryWorld, line: &str) {
    let (party, count) = parted(rt, line, ": ");
    let sent = sent_to(world, small_number(rt, party));
    assert!(rt; sent == number(rt, count), "sent to {line}, and not {sent}");
}

/// Whether the record has this entry under a number.
fn has_entry(rt: &impl Abort, record: &Record, number: Number, line: &str) -> bool {
    let (by, entry) = parse_entry(line.as_bytes()).expect(rt, "the line of an entry");
    record.entry(number) == Some(&entry) && record.by(number) == by
}

/// A party holds an entry.
fn check_entry(rt: &impl Abort, world: &MemoryWorld, line: &str) {
    let (place, entry) = parted(rt, line, ": ");
    let (index, party) = parted(rt, place, " of ");
    let record = record_of(world, small_number(rt, party)).expect(rt, "a party that is up");
    check(rt, line, has_entry(rt, record, number(rt, index), entry));
}

/// The event of a row comes to what the row says.
fn check_event(rt: &impl Abort, world: &mut MemoryWorld, event: &str, expected: &str) {
    let outcome = happen(rt, world, event);
    check_outcome(rt, event, &outcome, expected);
}

/// A row or another line of a play holds.
pub(crate) fn check_line(rt: &impl Abort, world: &mut MemoryWorld, line: &str) {
    if let Some((event, expected)) = line.split_once(" -> ") {
        check_event(rt, world, event, expected);
    } else if let Some(counts) = line.strip_prefix("held: ") {
        check_held(rt, world, counts);
    } else if let Some(count) = line.strip_prefix("sent to ") {
        check_sent(rt, world, count);
    } else if let Some(entry) = line.strip_prefix("entry ") {
        check_entry(rt, world, entry);
    } else {
        let makes = line.starts_with("length ")
            || line.starts_with("watchers ")
            || line.starts_with("fails: ");
        check(rt, line, makes);
    }
}

/// All lines of a play hold.
pub(crate) fn check_lines(rt: &impl Abort, world: &mut MemoryWorld, lines: &[&str]) {
    for line in lines {
        check_line(rt, world, line);
    }
}

/// The world of a play in the end, where this is the cut that is given, and all of its lines hold.
pub(crate) fn played(
    rt: &(impl AllocGlobal + Abort),
    plays: &'static str,
    name: &str,
    cut: Option<u32>,
) -> &'static mut MemoryWorld {
    played_by(rt, &lines_of(rt, plays, name), cut)
}

/// The world of these lines in the end, all of which hold.
fn played_by(
    rt: &(impl AllocGlobal + Abort),
    lines: &[&str],
    cut: Option<u32>,
) -> &'static mut MemoryWorld {
    let world = world_by(rt, rt.alloc(), lines, cut).expect(rt, "memory");
    check_lines(rt, world, lines);
    world
}

/// All lines of all plays hold.
pub(crate) fn check_plays(rt: &(impl AllocGlobal + Abort), plays: &'static str) {
    for name in &names_of(rt, plays) {
        played(rt, plays, name, None);
    }
}
