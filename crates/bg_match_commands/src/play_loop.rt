//! The command that plays a match over sockets and files.

use bg_auto::LoopFault;
use bg_command_parts::{Asked, Operator, OwnSaves, stopped};
use bg_console::{
    Progress, allocated, check_folder, failed, failed_barely, lock_of, no_memory, path_in,
    tell_if_open, unwritten, wrong_at,
};
use bg_match::Terms;
use bg_options::LoopOptions;
use bg_processes::{Failures, play_loop};
use bg_reports::Ending;
use bg_streams::Writing;
use bg_world::WorldFault;
use std::{fs, io};

/// Plays the match that the options name.
pub fn run(
    rt: &HostRuntime,
    options: LoopOptions<'_>,
    progress: Progress,
) -> Result<Ending, Ending> {
    let LoopOptions {
        seed,
        terms: Terms { length, rules },
        rounds,
        folder,
    } = options;
    check_folder(rt, folder, " is no folder: make it first")?;
    let _lock = lock_of(rt, folder)?;
    check_no_match(rt, folder)?;
    tell_if_open(rt, folder);
    let mut output = Writing::new(io::writer(rt));
    let failures = Failures::new();
    let mut operator = Operator::new(rt, &failures, folder, progress, rounds);
    let result = play_loop(
        rt,
        seed,
        length,
        rules,
        rounds,
        folder,
        &failures,
        &mut output,
        &mut operator,
    );
    operator.end();
    let saves = OwnSaves {
        folder,
        party: operator.last_party(),
        asked: Asked::Options(seed, length, rules),
    };
    match result {
        Ok(()) => Ok(Ending::Simulated),
        Err(LoopFault::Stopped(outcome)) => Err(stopped(rt, saves, &outcome)),
        Err(fault) => Err(loop_failed(rt, fault, output.error())),
    }
}

/// Refuses the folder of the referee of a match between processes, whose saves would be lost.
fn check_no_match(rt: &HostRuntime, folder: &str) -> Result<(), Ending> {
    let path = allocated(rt, path_in(rt.alloc(), folder, "match"))?;
    if fs::metadata(rt, path.as_str()).is_err() {
        return Ok(());
    }
    Err(wrong_at(
        rt,
        folder,
        " has a match between processes: give another --dir",
    ))
}

/// Reports that the match ended with a fault, and the reason if writing failed.
fn loop_failed(rt: &HostRuntime, fault: LoopFault, reason: Option<&io::Error>) -> Ending {
    match (fault, reason) {
        (LoopFault::Write, Some(error)) => unwritten(rt, error),
        (fault @ (LoopFault::Memory | LoopFault::World(WorldFault::Memory)), _) => {
            let _ = no_memory(rt);
            failed_barely(rt, fault)
        }
        (fault, _) => failed(rt, fault),
    }
}
