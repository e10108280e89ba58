//! A match between automatic players over UDP sockets and files.
ghost use Rattle.bg_auto.specs.RoundResults.{setup_of};
ghost use Rattle.bg_processes.specs.LoopResults.{IsLoopResult};

use crate::files::file_keepers::FileKeeper;
use crate::sockets::udp_links::UdpLink;
use bg_auto::{LoopFault, NoObserver, Observer, PARTIES, play_rounds};
use bg_match::Rules;
use bg_streams::Sink;
use bg_system::Failures;
use bg_wire::{REFEREE, SEAT_OF_O, SEAT_OF_X};
use bg_world::Keepers;
use std::fs::File;
use std::net::Net;
use std::rt::Files;

/// Plays a match of automatic players as [`run_rounds`](bg_auto::run_rounds) does, over sockets on
/// 127.0.0.1 and the files of a folder (docs/OPERATING.md). Over the same folder, with the same
/// seed, length and rules, it resumes the match. The devices note in `failures` why their calls
/// failed.
///
/// # Errors
/// `Socket` where a socket can't be opened, `Memory` where there is no memory for the sockets and
/// the names of the files; then those of `run_rounds`.
pub fn run_loop<R: Net + Files<File = File> + AllocGlobal, W: Sink>(
    rt: &R,
    seed: u64,
    length: u8,
    rules: Rules,
    rounds: u32,
    folder: &str,
    failures: &Failures,
    output: &mut W,
) -> Result<(), LoopFault>
    ensures { IsLoopResult W.Sink (setup_of seed length rules) rounds result output.old output.new }
{
    play_loop(
        rt,
        seed,
        length,
        rules,
        rounds,
        folder,
        failures,
        output,
        &mut NoObserver,
    )
}

/// Plays as [`run_loop`] does, with an observer. When the observer is told of an event, `failures`
/// holds the failed calls of devices in it.
pub fn play_loop<R, W: Sink, O: Observer>(
    rt: &R,
    seed: u64,
    length: u8,
    rules: Rules,
    rounds: u32,
    folder: &str,
    failures: &Failures,
    output: &mut W,
    observer: &mut O,
) -> Result<(), LoopFault>
where
    R: Net + Files<File = File> + AllocGlobal,
    ensures { IsLoopResult W.Sink (setup_of seed length rules) rounds result output.old output.new }
{
    let link = UdpLink::bind(rt, PARTIES, failures)?;
    let keepers = Keepers {
        referee: FileKeeper::new(rt, folder, REFEREE, failures)?,
        x: FileKeeper::new(rt, folder, SEAT_OF_X, failures)?,
        o: FileKeeper::new(rt, folder, SEAT_OF_O, failures)?,
    };
    play_rounds(
        rt.alloc(),
        seed,
        length,
        rules,
        rounds,
        link,
        keepers,
        output,
        observer,
    )
}
