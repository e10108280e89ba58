//! The command that runs the referee of a match.

use bg_command_parts::{Asked, FailureReporter, Logbook, OwnSaves, begun, socket_of, stopped};
use bg_console::{
    Progress, allocated, check_folder, check_writable, failed_with, has_key_secret, key_files_of,
    lock_of, match_in, tell_if_open, waited, waiting_for, wrong,
};
use bg_match::Number;
use bg_options::RefereeOptions;
use bg_processes::{
    Failures, FileKeeper, Going, Keyring, MatchFile, NamedMatch, Names, PartySocket, Printable,
    RefereeProcess, Ticking, Waiting, read_key_secret, read_secret,
};
use bg_reports::Ending;
use bg_wire::REFEREE;
use bg_world::Keeper;
use std::time::Clock;

type Referee<'a> = RefereeProcess<PartySocket<'a, HostRuntime>, FileKeeper<'a, HostRuntime>>;

/// The message on what isn't a folder.
const NO_FOLDER: &str = " is no folder: name the one that `bg_relay new` made";

/// The messages on files of the folder that can't be read, and what to do about each.
const NO_SECRET: &str = "/secret could not be read";

const SECRET_REMEDY: &str =
    "put that file back: the dice go by it; if it is lost, `bg_relay recover` makes another folder";

const NO_KEY_SECRET: &str = "/key-secret could not be read";

const KEY_SECRET_REMEDY: &str =
    "let this user read it, or put it back; if it is lost, remove it: the key files in the folder do as well";

/// Runs the referee of the match in this folder, until the match is over.
pub fn run(
    rt: &HostRuntime,
    options: RefereeOptions<'_>,
    progress: Progress,
) -> Result<Ending, Ending> {
    let RefereeOptions { folder, is_quiet } = options;
    check_folder(rt, folder, NO_FOLDER)?;
    let _lock = lock_of(rt, folder)?;
    tell_if_open(rt, folder);
    // Each name by itself: else the check of this function is not told what a name is.
    let NamedMatch {
        table,
        names: Names { x, o },
    } = match_in(rt, folder)?;
    check_writable(rt, folder)?;
    let progress = if is_quiet {
        Progress::start(rt, false)
    } else {
        progress
    };
    let names = Names { x, o };
    play(rt, folder, &NamedMatch { table, names }, is_quiet, progress)
}

/// Begins the referee of the match in a folder, which is locked and has this match file, and runs
/// it until the match is over.
fn play(
    rt: &HostRuntime,
    folder: &str,
    file: &NamedMatch,
    is_quiet: bool,
    progress: Progress,
) -> Result<Ending, Ending> {
    let failures = Failures::new();
    let mut process = begin(rt, folder, &file.table, &failures)?;
    let mut reporter = FailureReporter::new(rt, &failures, folder);
    attend(
        rt,
        folder,
        file,
        &mut process,
        &mut reporter,
        is_quiet,
        progress,
    )
}

/// Begins the referee of the match in a folder, which has this match file. Its devices note their
/// failures in `failures`.
fn begin<'a>(
    rt: &'a HostRuntime,
    folder: &str,
    table: &MatchFile,
    failures: &'a Failures,
) -> Result<Referee<'a>, Ending> {
    let secret = match read_secret(rt, folder) {
        Ok(secret) => secret,
        Err(error) => return Err(failed_with(rt, folder, NO_SECRET, &error, SECRET_REMEDY)),
    };
    let keys = keys_of(rt, folder, table)?;
    let link = socket_of(rt, table.port, REFEREE, keys, failures)?;
    let keeper = allocated(rt, FileKeeper::new(rt, folder, REFEREE, failures))?;
    let attempt = RefereeProcess::begin(rt.alloc(), table.id, table.terms, secret, link, keeper);
    begun(rt, failures, saves_of(folder, table), attempt)
}

/// Returns the saves of the referee of a match in a folder.
fn saves_of<'a>(folder: &'a str, table: &'a MatchFile) -> OwnSaves<'a> {
    OwnSaves {
        folder,
        party: REFEREE,
        asked: Asked::File(table),
    }
}

/// Returns the keys of all parties: derived from the folder's secret, or those of its key files.
/// Where it has neither, reports how to make some.
fn keys_of(rt: &HostRuntime, folder: &str, file: &MatchFile) -> Result<Keyring, Ending> {
    if !has_key_secret(rt, folder)? {
        if let Some(files) = key_files_of(rt, folder, file)? {
            return Ok(Keyring::of_key_files(files));
        }
        let shown = Printable(folder);
        return Err(wrong(
            rt,
            format_args!("{shown} has no keys: `bg_relay keys --dir {shown}` makes them"),
        ));
    }
    match read_key_secret(rt, folder) {
        Ok(secret) => Ok(Keyring::of_referee(&secret, file.id)),
        Err(error) => Err(failed_with(rt, folder, NO_KEY_SECRET, &error, KEY_SECRET_REMEDY)),
    }
}

/// Logs that the referee begins, runs it until the match is over, and logs that it ends. Over any
/// clock and keeper, as the check takes seconds for each call of a process over those of the system.
fn attend<C: Clock, K: Keeper>(
    rt: &HostRuntime,
    folder: &str,
    file: &NamedMatch,
    process: &mut RefereeProcess<PartySocket<'_, C>, K>,
    reporter: &mut FailureReporter<'_, HostRuntime>,
    is_quiet: bool,
    progress: Progress,
) -> Result<Ending, Ending> {
    let Some(record) = process.held() else {
        return Err(Ending::Failed);
    };
    let (mut waiting, mut ticking) = waiting_for(rt, process.link().descriptor(), false)?;
    let mut logbook = Logbook::begin(rt, is_quiet, REFEREE, file, record);
    let ended = serve(
        rt,
        saves_of(folder, &file.table),
        process,
        &mut waiting,
        &mut ticking,
        reporter,
        &mut logbook,
        progress,
    );
    logbook.end(ended.is_ok());
    ended
}

/// Runs rounds until the match is over.
fn serve<C: Clock, K: Keeper>(
    rt: &HostRuntime,
    saves: OwnSaves<'_>,
    process: &mut RefereeProcess<PartySocket<'_, C>, K>,
    waiting: &mut Waiting,
    ticking: &mut Ticking,
    reporter: &mut FailureReporter<'_, HostRuntime>,
    logbook: &mut Logbook<'_>,
    progress: Progress,
) -> Result<Ending, Ending> {
    let mut progress = progress;
    let mut told: Number = 0;
    for _ in 0..u64::MAX {
        let empty_reads = process.link().empty_reads();
        let (_, tick) = waited(rt, ticking.next_round(rt, waiting, empty_reads))?;
        match process.round(tick, reporter) {
            Ok(Going::On) => {}
            Ok(Going::Over) => return Ok(Ending::Served),
            Err(outcome) => return Err(stopped(rt, saves, &outcome)),
        }
        reporter.check_files()?;
        let record = process.held();
        logbook.after_round(process.link(), record, tick);
        let held = match record {
            Some(record) => record.len(),
            None => 0,
        };
        if held != told {
            progress.tell_of(rt, format_args!("the referee has {held} entries"));
            told = held;
        }
    }
    Ok(Ending::Failed)
}
