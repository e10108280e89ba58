//! Worlds whose devices fail, worlds that are refused, and runs.
use crate::checks::{check, check_row};
use crate::worlds::lines::lines_of;
use crate::worlds::memory_worlds::{
    MemoryWorld, check_line, check_plays, events_of, played, simulated, world_of,
};
use bg_world::{Event, RunReport, WorldFault};
use std::alloc::Global;
use std::process::Abort;

/// `the_drawn_run` is the run that docs/PROTOCOL.md draws: an answer that is lost, a claim that is
/// accepted twice and counts once, a watcher, and a save that is torn. In the end X learns his
/// move, and then the lost answer arrives: it tells him nothing new.
///
/// In `failed_sends_that_are_lost` and `failed_sends_that_went` the first send fails, and its
/// datagram went out or not.
///
/// In `failed_reads` the referee's first read fails.
///
/// In `failed_writes` the first save of the seat of O fails: it is down until it restarts, and the
/// others are up.
///
/// In `parties_that_are_not_there` events are at parties that are not there, or that save nothing.
pub(crate) const PLAYS: &str = "\
the_drawn_run
watchers 1
fails: write 0 2 20
due 12 -> entry 1
save 0 -> saved 1
tick 1 -> sent 1
take 0 0 0 -> answer to 1: entries 1 to 1
tick 1 -> sent 1
take 0 1 0 -> answer to 1: entries 1 to 1
take 1 1 0 -> learned 1
choose X move 8-5 6-5 -> claimed 2
save 1 -> saved 1
tick 1 -> sent 1
take 0 2 0 -> accepted 2
tick 3 -> sent 1
take 0 3 0 -> answer to 3: entries 1 to 1
take 3 0 0 -> learned 1
save 0 -> save fault
restart 0 -> restarted
tick 1 -> sent 1
take 0 4 0 -> accepted 2
save 0 -> saved 2
tick 1 -> sent 0
tick 1 -> sent 1
take 0 5 0 -> answer to 1: entries 2 to 2
take 1 2 0 -> learned 1
take 1 0 0 -> nothing

failed_sends_that_are_lost
fails: send 1 lost
as the_opening
tick 1 -> link fault
take 0 0 0 -> no datagram

failed_sends_that_went
fails: send 1 went
as the_opening
tick 1 -> link fault
take 0 0 0 -> answer to 1: entries 1 to 1

failed_reads
fails: read 0 1
restart 0 -> restore fault: device
save 0 -> down
restart 0 -> restarted
save 0 -> saved 1

failed_writes
fails: write 2 1 none
as a_failed_write

parties_that_are_not_there
watchers 2
take 9 0 0 -> no such party
tick 5 -> no such party
restart 255 -> no such party
save 3 -> no such party
tick 4 -> sent 1
";

#[test]
fn faults_of_devices(rt: HostRuntime) {
    check_plays(&rt, PLAYS);
}

/// The referee's second save is torn: what follows where the torn text is lost, and where all of it
/// was written.
const TORN: &str = "\
the_save_before
fails: write 0 2 cut
as to_the_choice
as to_the_claim
as to_the_torn_save
held: 1
take 0 1 0 -> accepted 2
save 0 -> saved 2

the_save_itself
fails: write 0 2 cut
as to_the_choice
as to_the_claim
as to_the_torn_save
held: 2
take 0 1 0 -> answer to 1: entries 2 to 2
save 0 -> saved 3
";

/// The text of the save has 33 bytes.
#[test]
fn torn_saves(rt: HostRuntime) {
    played(&rt, TORN, "the_save_before", None);
    for cut in 0..33 {
        played(&rt, TORN, "the_save_before", Some(cut));
    }
    played(&rt, TORN, "the_save_itself", Some(33));
}

/// Why there is no world of these lines.
fn refusal(rt: &impl Abort, alloc: Global, lines: &[&str]) -> Option<WorldFault> {
    simulated(rt, alloc, lines, None, &[]).err()
}

#[test]
fn setups_at_their_limits(rt: HostRuntime) {
    for (i, (length, watchers, expected)) in [
        ("length 1", "watchers 253", None),
        ("length 99", "watchers 0", None),
        (
            "length 0",
            "watchers 254",
            Some(WorldFault::TooManyWatchers),
        ),
        (
            "length 0",
            "watchers 253",
            Some(WorldFault::LengthOutOfRange),
        ),
        (
            "length 100",
            "watchers 0",
            Some(WorldFault::LengthOutOfRange),
        ),
    ]
    .iter()
    .enumerate()
    {
        let refused = refusal(&rt, rt.alloc(), &[length, watchers]);
        check_row(&rt, i, refused == *expected);
    }
}

/// What a run of these events comes to.
fn run(world: &mut MemoryWorld, events: &[Event]) -> RunReport {
    world.run(events)
}

fn check_runs_count_faults(rt: &(impl AllocGlobal + Abort)) {
    let events = events_of(rt, &lines_of(rt, PLAYS, "failed_writes"));
    let world = world_of(rt, &["fails: write 2 1 none"]);
    let expected = RunReport {
        done: 8,
        memory: 0,
        faults: 1,
    };
    check(rt, "one fault", run(world, events) == expected);
    check_line(rt, world, "held: 0 0 0");
}

/// No fault ends a run.
#[test]
fn runs_count_faults(rt: HostRuntime) {
    check_runs_count_faults(&rt);
}
