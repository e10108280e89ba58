//! Want of memory: no run of the tests refuses a growth, but `tools/checks/refuse_growths` refuses
//! each in turn.
use super::failing_calls::is_sound;
use crate::checks::{check, check_no_growth_is_left};
use crate::helpers::folders::{remove_folder, try_folder};
use crate::helpers::hosts::{Host, Hosted};
use crate::helpers::lasting::lasting_text;
use crate::helpers::played_loops::{SEED, SHORT, played, try_played};
use crate::helpers::tables::real_devices::sit_down;
use crate::helpers::tables::{Devices, Sitting, Table};
use bg_auto::LoopFault;
use bg_match::Rules;
use bg_processes::{
    KeyFile, MatchFile, make_key_secret, make_secret, publish, read_key_secret, read_secret,
};
use bg_world::{Keeper, Link, WorldFault};
use std::alloc::AllocError;
use std::io::ErrorKind;
use std::process::Abort;
use std::{fs, io};

/// A new folder, by a second try where the first lacked memory.
fn folder_at_last(rt: &impl Host, name: &str) -> &'static str {
    let folder = match try_folder(rt, name) {
        Err(error) if error.kind() == ErrorKind::OutOfMemory => try_folder(rt, name),
        result => result,
    };
    folder.expect(rt, "a new folder")
}

/// Removes a folder, by a second try where the first lacked memory.
fn remove_at_last(rt: &impl Host, folder: &str) {
    match fs::remove_dir_all(rt.host(), folder) {
        Err(error) if error.kind() == ErrorKind::OutOfMemory => remove_folder(rt, folder),
        result => result.expect(rt, "the folder is removed"),
    }
}

const WRITTEN: MatchFile = MatchFile {
    id: 1,
    terms: SHORT,
    port: 4000,
};

/// What lacked memory is done once more, and then succeeds.
#[test]
fn refused_growths_of_files(rt: HostRuntime) {
    check_files(&rt);
}

/// Files are written and read once more where memory was refused.
fn check_files(rt: &impl Host) {
    let folder = folder_at_last(rt, "file-growths");
    let mut failed = false;
    for _ in 0..2 {
        match write_and_read(rt, folder, &WRITTEN) {
            Ok(read) => check(rt, read == Some(WRITTEN), "what was written"),
            Err(error) => {
                let is_first = error.kind() == ErrorKind::OutOfMemory && !failed;
                check(rt, is_first, "memory is refused once");
                failed = true;
            }
        }
    }
    remove_at_last(rt, folder);
    check_no_growth_is_left(rt);
}

/// Writes each kind of file, and reads those that are read.
fn write_and_read(rt: &impl Host, folder: &str, file: &MatchFile) -> io::Result<Option<MatchFile>> {
    write_files(rt, folder, file)?;
    read_files(rt, folder)
}

/// Writes each kind of file.
fn write_files(rt: &impl Host, folder: &str, file: &MatchFile) -> io::Result<()> {
    make_secret(rt.host(), folder)?;
    make_key_secret(rt.host(), folder)?;
    write_key(rt.host(), folder, file)?;
    publish(rt.host(), try_path(rt, folder, "board")?, b"board")?;
    file.write(rt.host(), folder)
}

/// Reads the secret, the key of X, and the match.
fn read_files(rt: &impl Host, folder: &str) -> io::Result<Option<MatchFile>> {
    read_secret(rt.host(), folder)?;
    KeyFile::read(rt.host(), try_path(rt, folder, "match-x")?)?;
    MatchFile::read(rt.host(), try_path(rt, folder, "match")?)
}

/// The path of a file in a folder, where there is memory.
fn try_path(
    rt: &(impl AllocGlobal + Abort),
    folder: &str,
    name: &str,
) -> Result<&'static str, AllocError> {
    let path = format!(in rt.alloc(); "{folder}/{name}")?;
    Ok(lasting_text(rt, path))
}

/// Writes the key of X, by the secret in the folder.
fn write_key(host: &HostRuntime, folder: &str, file: &MatchFile) -> io::Result<()> {
    let secret = read_key_secret(host, folder)?;
    KeyFile::derive(*file, &secret, 1).write(host, folder)
}

/// Processes that lacked memory lose nothing: the match goes on, by the same process or by the
/// next.
#[test]
fn refused_growths_of_processes(rt: HostRuntime) {
    check_processes(&rt);
}

/// A match between processes goes on where memory was refused.
fn check_processes(rt: &impl Host) {
    let folder = folder_at_last(rt, "process-growths");
    sit_down(rt, &Start {}, folder, Rules::One, 0);
    remove_at_last(rt, folder);
    check_no_growth_is_left(rt);
}

/// A match until the watcher holds three entries.
#[derive(Drop)]
struct Start {}

impl Sitting for Start {
    fn sit<R: Host, L: Link + Drop, K: Keeper + Drop, D: Devices<L, K> + Drop>(
        &self,
        rt: &R,
        table: &mut Table<D, L, K>,
    ) {
        check(rt, table.play_some(3), "the match goes on");
    }
}

/// Whether a match ended for want of memory; the output of these tests is in memory too.
fn lacked_memory(fault: &LoopFault) -> bool {
    match fault {
        LoopFault::World(WorldFault::Memory) | LoopFault::Memory | LoopFault::Write => true,
        LoopFault::Stopped(outcome) => outcome.wants_memory(),
        _ => false,
    }
}

/// A round that lacked memory loses nothing: over the same folder the match goes on. No run of the
/// tests refuses any, but `tools/checks/refuse_growths` refuses each growth in turn.
#[test]
fn refused_growths_of_a_round(rt: HostRuntime) {
    check_round(&rt);
}

/// A round is played once more where memory was refused.
fn check_round(rt: &impl Host) {
    let folder = folder_at_last(rt, "growths");
    let text = match try_played(rt, folder, SEED, SHORT, 1) {
        Ok(text) => text,
        Err(fault) => {
            check(rt, lacked_memory(&fault), "no other fault");
            played(rt, folder, SEED, SHORT, 1)
        }
    };
    check(rt, is_sound(text), "all parties are up");
    remove_at_last(rt, folder);
    check_no_growth_is_left(rt);
}
