//! Saves in two steps: a host is told what to write, writes it, and says what became of the write.
use crate::checks::check;
use crate::worlds::faults::PLAYS as FAULTS;
use crate::worlds::lines::{check_outcome, lines_of};
use crate::worlds::memory_worlds::{MemoryWorld, check_line, happen, held, played, world_of};
use crate::worlds::setups::{parted, small_number};
use crate::worlds::worked_matches::PLAYS as WORKED;
use bg_world::{DeviceFault, Keeper, Outcome, Save};
use std::process::Abort;

fn begin(world: &mut MemoryWorld, party: u8) -> Result<Save, Outcome> {
    world.begin_save(party)
}

fn end(
    world: &mut MemoryWorld,
    party: u8,
    number: u32,
    written: Result<(), DeviceFault>,
) -> Option<Outcome> {
    world.end_save(party, number, written)
}

/// The host writes a save to the keeper of its party.
fn write(world: &mut MemoryWorld, party: u8, save: &Save) -> Result<(), DeviceFault> {
    let keepers = world.keepers_mut();
    match party {
        0 => keepers.referee.write(save.slot, save.text.as_slice()),
        1 => keepers.x.write(save.slot, save.text.as_slice()),
        _ => keepers.o.write(save.slot, save.text.as_slice()),
    }
}

/// A party saves in two steps: what the save comes to.
fn save_in_two_steps(rt: &impl Abort, world: &mut MemoryWorld, party: u8) -> Outcome {
    match begin(world, party) {
        Err(outcome) => outcome,
        Ok(save) => {
            let written = write(world, party, &save);
            let number = save.number;
            drop(save);
            end(world, party, number, written).expect(rt, "a save that is under way")
        }
    }
}

/// All lines of a play hold, where each party saves in two steps.
fn check_play(rt: &(impl AllocGlobal + Abort), plays: &'static str, name: &str) {
    check_lines_in_two_steps(rt, &lines_of(rt, plays, name));
}

fn check_lines_in_two_steps(rt: &(impl AllocGlobal + Abort), lines: &[&str]) {
    let world = world_of(rt, lines);
    for line in lines {
        match line.strip_prefix("save ") {
            Some(row) => check_save(rt, world, line, row),
            None => check_line(rt, world, line),
        }
    }
}

/// The save of a row comes to what it says, in two steps.
fn check_save(rt: &impl Abort, world: &mut MemoryWorld, line: &str, row: &str) {
    let (party, expected) = parted(rt, row, " -> ");
    let outcome = save_in_two_steps(rt, world, small_number(rt, party));
    check_outcome(rt, line, &outcome, expected);
}

fn check_plays_in_two_steps(rt: &(impl AllocGlobal + Abort)) {
    check_play(rt, FAULTS, "the_drawn_run");
    check_play(rt, FAULTS, "failed_reads");
    check_play(rt, FAULTS, "failed_writes");
    check_play(rt, FAULTS, "parties_that_are_not_there");
    check_play(rt, WORKED, "a_turn_with_a_watcher");
    check_play(rt, WORKED, "a_roll_is_saved");
    check_play(rt, WORKED, "a_roll_is_lost");
    check_play(rt, WORKED, "a_claim_is_kept");
}

#[test]
fn plays_in_two_steps(rt: HostRuntime) {
    check_plays_in_two_steps(&rt);
}

/// What has happened before a save is begun.
const BEFORE: &str = "\
nothing
length 1

an_opening
due 12 -> entry 1

an_answer
as the_opening
tick 1 -> sent 1
take 0 0 0 -> answer to 1: entries 1 to 1

a_learned_opening
as the_opening
tick 1 -> sent 1
take 0 0 0 -> answer to 1: entries 1 to 1
take 1 0 0 -> learned 1

a_claim
as to_the_choice

a_sent_claim
as to_the_choice
as to_the_claim
";

fn world_after(rt: &(impl AllocGlobal + Abort), name: &str) -> &'static mut MemoryWorld {
    played(rt, BEFORE, name, None)
}

/// The number of the save that begins now.
fn begun(rt: &impl Abort, world: &mut MemoryWorld, party: u8) -> u32 {
    begin(world, party).expect(rt, "a save").number
}

/// Whether a save of the party is still under way after this event.
fn is_under_way_after(
    rt: &(impl AllocGlobal + Abort),
    before: &str,
    party: u8,
    line: &str,
) -> bool {
    let world = world_after(rt, before);
    let save = begun(rt, world, party);
    happen(rt, world, line);
    match end(world, party, save, Ok(())) {
        None => false,
        Some(outcome) => {
            check(rt, line, outcome == Outcome::Saved(save));
            true
        }
    }
}

/// Rows of what has happened before, the party that saves, and the event that comes then: the save
/// is still under way after each, or after none.
fn check_after(rt: &(impl AllocGlobal + Abort), rows: &str, is_under_way: bool) {
    for row in rows.lines() {
        let (before, rest) = parted(rt, row, ": ");
        let (party, line) = parted(rt, rest, ": ");
        let found = is_under_way_after(rt, before, small_number(rt, party), line);
        check(rt, row, found == is_under_way);
    }
}

/// The record or the claim of the party changes, or it saves or begins again.
const ENDS: &str = "\
nothing: 0: due 12
a_sent_claim: 0: take 0 1 0
an_answer: 1: take 1 0 0
a_learned_opening: 1: choose X move 8-5 6-5
an_opening: 0: save 0
an_opening: 0: restart 0
a_claim: 1: save 1
a_claim: 1: restart 1
";

#[test]
fn what_ends_a_save(rt: HostRuntime) {
    check_after(&rt, ENDS, false);
}

/// Nothing that is saved changes, or it changes at another party.
const OUTLIVED: &str = "\
an_opening: 0: due 12
an_answer: 0: take 0 0 0
an_answer: 0: tick 0
an_answer: 0: take 1 0 0
an_answer: 2: take 1 0 0
a_claim: 1: take 1 0 0
a_claim: 1: tick 1
a_claim: 1: choose X move 24-23 24-21
a_claim: 0: save 1
a_claim: 1: restart 0
a_claim: 2: restart 1
";

#[test]
fn what_a_save_outlives(rt: HostRuntime) {
    check_after(&rt, OUTLIVED, true);
}

fn check_saves_of_another_number(rt: &(impl AllocGlobal + Abort)) {
    let world = world_after(rt, "an_opening");
    check_no_end(rt, world, 0, 1, "none was begun");
    check(rt, "a save begins", begins(world, 0, 1, 27));
    check_no_end(rt, world, 0, 2, "another number");
    check_no_end(rt, world, 1, 1, "another party");
    check_no_end(rt, world, 3, 1, "no party");
    check(
        rt,
        "the save ends",
        end(world, 0, 1, Ok(())) == Some(Outcome::Saved(1)),
    );
    check_no_end(rt, world, 0, 1, "it was ended");
}

#[test]
fn saves_of_another_number(rt: HostRuntime) {
    check_saves_of_another_number(&rt);
}

/// Whether the save that begins now has this number and so many bytes.
fn begins(world: &mut MemoryWorld, party: u8, number: u32, count: usize) -> bool {
    match begin(world, party) {
        Ok(save) => save.number == number && save.text.len() == count,
        Err(_) => false,
    }
}

/// No save of this number is under way at the party.
fn check_no_end(rt: &impl Abort, world: &mut MemoryWorld, party: u8, number: u32, why: &str) {
    check(rt, why, end(world, party, number, Ok(())).is_none());
}

#[test]
fn saves_that_fail(rt: HostRuntime) {
    check_failed(&rt, DeviceFault::Failed, "a failure");
    check_failed(&rt, DeviceFault::Memory, "want of memory");
}

/// A party whose save failed so is down, and no other.
fn check_failed(rt: &(impl AllocGlobal + Abort), fault: DeviceFault, what: &str) {
    let world = world_after(rt, "an_opening");
    let save = begun(rt, world, 0);
    let outcome = end(world, 0, save, Err(fault));
    check(rt, what, outcome == Some(Outcome::SaveFault));
    check(
        rt,
        what,
        held(world, 0).is_none() && held(world, 1) == Some(0),
    );
    check(rt, what, refusal(world, 0) == Some(Outcome::Down));
    check(rt, what, refusal(world, 3) == Some(Outcome::NoSuchParty));
}

/// Why no save begins, if none does.
fn refusal(world: &mut MemoryWorld, party: u8) -> Option<Outcome> {
    begin(world, party).err()
}
