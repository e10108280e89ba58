//! The devices in memory where memory is refused. No run of the tests refuses any, but
//! `tools/checks/refuse_growths` refuses each growth in turn.
use crate::checks::{check, check_no_growth_is_left, check_number, check_party};
use crate::worlds::lines::check_outcome;
use crate::worlds::memory_worlds::{
    MemoryWorld, check_line, check_lines, happen, held, sent_to, step, world_of,
};
use bg_world::{Event, Outcome};
use std::process::Abort;
use std::test::Fail;

/// What an event comes to, once more where there was no memory for it.
fn at_last(rt: &impl Abort, world: &mut MemoryWorld, event: &str) -> Outcome {
    let outcome = happen(rt, world, event);
    if outcome.wants_memory() {
        return happen(rt, world, event);
    }
    outcome
}

/// The event of a row, once more where there was no memory for it, comes to what the row says.
fn check_at_last(rt: &impl Abort, world: &mut MemoryWorld, row: &str) {
    let (event, expected) = row.split_once(" -> ").expect(rt, "a row");
    check_outcome(rt, event, &at_last(rt, world, event), expected);
}

/// The event sends to a party, once more where there was no memory for it, which had sent nothing.
fn check_send_at_last(
    rt: &impl Abort,
    world: &mut MemoryWorld,
    to: u8,
    event: &Event,
    expected: &str,
) {
    check_outcome(rt, "sends", &sent_at_last(rt, world, to, event), expected);
}

/// What an event comes to that sends to a party, once more where there was no memory for it.
fn sent_at_last(rt: &impl Abort, world: &mut MemoryWorld, to: u8, event: &Event) -> Outcome {
    let before = sent_to(world, to);
    let outcome = step(world, event.copy());
    if outcome == Outcome::Memory {
        check_party(rt, to, sent_to(world, to) == before);
        return step(world, event.copy());
    }
    outcome
}

/// The referee's save has this number, also where there was no memory for it: then it is down, and
/// comes back with what it had saved, so many entries, or opens a game anew.
fn check_save_at_last(rt: &impl Abort, world: &mut MemoryWorld, save: u32) {
    let outcome = saved_at_last(rt, world, save);
    check_number(rt, "save", save.into(), outcome == Outcome::Saved(save));
}

/// What the referee's save comes to, once more where there was no memory for it.
fn saved_at_last(rt: &impl Abort, world: &mut MemoryWorld, save: u32) -> Outcome {
    let outcome = at_last(rt, world, "save 0");
    if outcome == Outcome::SaveFault {
        check_back(rt, world, save);
        return at_last(rt, world, "save 0");
    }
    outcome
}

/// The referee comes back with what it had saved, so many entries, or opens a game anew.
fn check_back(rt: &impl Abort, world: &mut MemoryWorld, save: u32) {
    check_at_last(rt, world, "restart 0 -> restarted");
    let saved = if save == 1 { 0 } else { 1 };
    check(
        rt,
        "the entries that were saved",
        held(world, 0) == Some(saved),
    );
    if saved == 0 {
        check_at_last(rt, world, "due 12 -> entry 1");
    }
}

/// A party that has forgotten all asks, and the referee answers.
fn check_answer(rt: &impl Abort, world: &mut MemoryWorld, party: u8, restart: &str, answer: &str) {
    check_at_last(rt, world, restart);
    let pick = sent_to(world, 0);
    check_send_at_last(rt, world, 0, &Event::Tick { party }, "sent 1");
    let take = Event::Take {
        party: 0,
        pick,
        word: 0,
    };
    check_send_at_last(rt, world, party, &take, answer);
}

fn check_refused_growths_of_sends(rt: &(impl AllocGlobal + Abort)) -> Result<(), Fail> {
    let world = world_of(rt, &["watchers 1"]);
    check_at_last(rt, world, "due 12 -> entry 1");
    check_save_at_last(rt, world, 1);
    for _ in 0..6 {
        for (party, restart, answer) in [
            (1, "restart 1 -> restarted", "answer to 1: entries 1 to 1"),
            (2, "restart 2 -> restarted", "answer to 2: entries 1 to 1"),
            (3, "restart 3 -> restarted", "answer to 3: entries 1 to 1"),
        ] {
            check_answer(rt, world, party, restart, answer);
        }
    }
    let counts = [
        "sent to 0: 18",
        "sent to 1: 6",
        "sent to 2: 6",
        "sent to 3: 6",
    ];
    check_lines(rt, world, &counts);
    for row in [
        "take 1 5 0 -> learned 1",
        "take 2 5 0 -> learned 1",
        "take 3 5 0 -> learned 1",
    ] {
        check_at_last(rt, world, row);
    }
    check_no_growth_is_left(rt.alloc())
}

/// Where memory is refused nothing changes and the same send then succeeds.
#[test]
fn refused_growths_of_sends(rt: HostRuntime) -> Result<(), Fail> {
    check_refused_growths_of_sends(&rt)
}

/// A send that fails and goes nowhere wants no memory.
#[test]
fn refused_growths_of_no_send(rt: HostRuntime) -> Result<(), Fail> {
    let plan = [
        "fails: send 1 lost",
        "fails: send 1 went",
        "fails: send 3 went",
        "fails: send 0 lost",
        "fails: send 4294967295 lost",
    ];
    let world = world_of(&rt, &plan);
    let rows = [
        "tick 2 -> link fault",
        "take 0 0 0 -> no datagram",
        "sent to 0: 0",
    ];
    check_lines(&rt, world, &rows);
    check_no_growth_is_left(rt.alloc())
}

/// Where memory is refused the slot stays as it was, and the same write or read then succeeds.
#[test]
fn refused_growths_of_keepers(rt: HostRuntime) -> Result<(), Fail> {
    let world = world_of(&rt, &[]);
    check_at_last(&rt, world, "due 12 -> entry 1");
    for save in 1..5 {
        check_save_at_last(&rt, world, save);
    }
    check_at_last(&rt, world, "restart 0 -> restarted");
    check_line(&rt, world, "held: 1 0 0");
    check_no_growth_is_left(rt.alloc())
}

/// A write that is torn and leaves no bytes fails by itself, whatever memory there is. A read that
/// fails or finds no bytes wants no memory, nor does a restart over slots that have none.
#[test]
fn refused_growths_of_no_bytes(rt: HostRuntime) -> Result<(), Fail> {
    let plan = [
        "fails: write 1 1 none",
        "fails: write 1 2 0",
        "fails: read 1 1",
    ];
    let world = world_of(&rt, &plan);
    check_at_last(&rt, world, "save 1 -> save fault");
    let rows = [
        "restart 1 -> restore fault: device",
        "restart 1 -> restarted",
    ];
    check_lines(&rt, world, &rows);
    check_at_last(&rt, world, "save 1 -> save fault");
    check_lines(&rt, world, &["restart 1 -> restarted", "held: 0 0 0"]);
    check_no_growth_is_left(rt.alloc())
}
