//! Runs in which memory is refused. No run of the tests refuses any, but
//! `tools/checks/refuse_growths` refuses each growth in turn.
use crate::checks::check_no_growth_is_left;
use crate::fronts::check_fronts;
use crate::worlds::lines::{check_outcome, lines_of};
use crate::worlds::memory_worlds::{MemoryWorld, happen, world_of};
use bg_world::Outcome;
use std::process::Abort;
use std::test::Fail;

/// Whether a device failed, or slots restore nothing for their party.
fn is_fault(outcome: &Outcome) -> bool {
    matches!(
        outcome,
        Outcome::LinkFault | Outcome::SaveFault | Outcome::RestoreFault(_)
    )
}

const PLAYS: &str = "\
with_a_watcher
watchers 1
as a_turn

of_a_lost_roll
as to_the_choice
as to_the_claim
as to_the_roll
as the_roll_lost

of_a_kept_claim
as to_the_choice
as to_the_claim
as the_claim_kept
";

/// The rows of a play, in which a growth may be refused. They hold as long as no memory was wanted
/// and nothing failed.
fn check_refused(rt: &(impl AllocGlobal + Abort), name: &str) -> Result<(), Fail> {
    check_rows(rt, &lines_of(rt, PLAYS, name));
    check_no_growth_is_left(rt.alloc())
}

fn check_rows(rt: &(impl AllocGlobal + Abort), lines: &[&str]) {
    let world = world_of(rt, lines);
    let mut undisturbed = true;
    for line in lines {
        if let Some((event, expected)) = line.split_once(" -> ") {
            undisturbed = check_row(rt, world, undisturbed, event, expected);
            check_fronts(rt, world, 3);
        }
    }
}

/// Whether no memory was wanted and nothing failed, up to this row, which then holds.
fn check_row(
    rt: &impl Abort,
    world: &mut MemoryWorld,
    undisturbed: bool,
    event: &str,
    expected: &str,
) -> bool {
    let outcome = happen(rt, world, event);
    let still = undisturbed && !outcome.wants_memory() && !is_fault(&outcome);
    if still {
        check_outcome(rt, event, &outcome, expected);
    }
    still
}

#[test]
fn refused_growths_with_a_watcher(rt: HostRuntime) -> Result<(), Fail> {
    check_refused(&rt, "with_a_watcher")
}

#[test]
fn refused_growths_of_a_lost_roll(rt: HostRuntime) -> Result<(), Fail> {
    check_refused(&rt, "of_a_lost_roll")
}

#[test]
fn refused_growths_of_a_kept_claim(rt: HostRuntime) -> Result<(), Fail> {
    check_refused(&rt, "of_a_kept_claim")
}
