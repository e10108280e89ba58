//! Whole runs from the start, whose saves are torn at each byte.
use crate::checks::check;
use crate::worlds::lines::lines_of;
use crate::worlds::memory_worlds::{MemoryWorld, check_lines, events_of, simulated};
use bg_world::RunReport;
use std::process::Abort;

/// In `four_saves` the referee has one entry in its third save, and two in its fourth, which fails;
/// then it restarts.
///
/// In `one_save` the referee's first save fails; then it restarts.
const RUNS: &str = "\
a_run_without_failures
watchers 1
as a_turn

four_saves
fails: write 0 4 cut
save 0 -> saved 1
save 0 -> saved 2
due 12 -> entry 1
save 0 -> saved 3
tick 1 -> sent 1
take 0 0 0 -> answer to 1: entries 1 to 1
take 1 0 0 -> learned 1
choose X move 8-5 6-5 -> claimed 2
save 1 -> saved 1
tick 1 -> sent 1
take 0 1 0 -> accepted 2
save 0 -> save fault
restart 0 -> restarted

one_save
fails: write 0 1 cut
due 12 -> entry 1
save 0 -> save fault
restart 0 -> restarted
";

/// The world of a run in which so many events failed, and no other, and none lacked memory.
fn run(
    rt: &(impl AllocGlobal + Abort),
    name: &str,
    cut: Option<u32>,
    faults: usize,
) -> &'static mut MemoryWorld {
    run_of(rt, name, &lines_of(rt, RUNS, name), cut, faults)
}

/// The same of these lines.
fn run_of(
    rt: &(impl AllocGlobal + Abort),
    name: &str,
    lines: &[&str],
    cut: Option<u32>,
    faults: usize,
) -> &'static mut MemoryWorld {
    let events = events_of(rt, lines);
    let (world, report) = simulated(rt, rt.alloc(), lines, cut, events).expect(rt, "memory");
    let expected = RunReport {
        done: events.len(),
        memory: 0,
        faults,
    };
    check(rt, name, report == expected);
    world
}

/// Behind a run with one fault these lines hold.
fn check_torn(rt: &(impl AllocGlobal + Abort), name: &str, cut: Option<u32>, lines: &[&str]) {
    check_lines(rt, run(rt, name, cut, 1), lines);
}

#[test]
fn a_run_without_failures(rt: HostRuntime) {
    check(
        &rt,
        "16 events",
        events_of(&rt, &lines_of(&rt, RUNS, "a_run_without_failures")).len() == 16,
    );
    let world = run(&rt, "a_run_without_failures", None, 0);
    check_lines(&rt, world, &["held: 2 1 0 2"]);
}

/// The text of the fourth save has 33 bytes: only all of them are restored, else the third save is.
#[test]
fn later_saves_torn(rt: HostRuntime) {
    let before = ["held: 1", "save 0 -> saved 4"];
    check_torn(&rt, "four_saves", None, &before);
    for cut in 0..33 {
        check_torn(&rt, "four_saves", Some(cut), &before);
    }
    for cut in 33..35 {
        check_torn(
            &rt,
            "four_saves",
            Some(cut),
            &["held: 2", "save 0 -> saved 5"],
        );
    }
}

/// The text of the first save has 27 bytes: but for all of them the referee comes back fresh.
#[test]
fn first_saves_torn(rt: HostRuntime) {
    let before = ["held: 0", "save 0 -> saved 1"];
    check_torn(&rt, "one_save", None, &before);
    for cut in 0..27 {
        check_torn(&rt, "one_save", Some(cut), &before);
    }
    check_torn(&rt, "one_save", Some(27), &["held: 1", "save 0 -> saved 2"]);
}
