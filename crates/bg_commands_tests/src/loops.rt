//! Matches over sockets and files that tests play in one process.
use crate::lasting::lasting;
use bg_auto::{LoopFault, Observer};
use bg_match::Rules;
use bg_processes::{Failures, play_loop};
use bg_streams::Writing;
use std::process::Abort;

/// Plays so many rounds of a match over a folder, of which an observer is told.
pub(crate) fn play<O: Observer>(
    rt: &(impl AllocGlobal + Abort),
    host: &HostRuntime,
    folder: &str,
    rounds: u32,
    failures: &Failures,
    observer: &mut O,
) -> Result<(), LoopFault> {
    let text = lasting(rt, Vec::new(rt.alloc()));
    let mut output = Writing::new(text);
    play_loop(
        host,
        7,
        1,
        Rules::One,
        rounds,
        folder,
        failures,
        &mut output,
        observer,
    )
}
