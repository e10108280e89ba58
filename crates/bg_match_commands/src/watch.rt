//! The command that watches a match.

mod kept_files;
mod live_boards;
mod screens;
mod showing;

use crate::watch::kept_files::KeptFiles;
use crate::watch::live_boards::LiveBoard;
use crate::watch::showing::{Lines, Showing};
use crate::watchers::{NoWatcher, Watcher, begin_watcher};
use bg_command_parts::{Audience, FailureReporter, Logbook, SilenceReporter, no_socket};
use bg_console::{
    Outputs, Telling, Terminal, check_out_file, failed, key_file_of, page_words, title_of, waited,
    waiting_for, wrong_at,
};
use bg_options::WatchOptions;
use bg_processes::{Failures, Going, Liveness, MatchFile, Ticking, Waiting};
use bg_reports::Ending;
use bg_seals::Key;
use bg_wire::FIRST_WATCHER;

/// The message where there is no room for one more who watches.
const NO_PORT: &str =
    "no port of a watcher is free: 253 watch already, or others have the ports; end one of them";

/// Watches the match that the options name, and keeps the files that were asked for. Draws its
/// board on the terminal, if the standard output is one, and otherwise prints its transcript.
/// `is_watched` says whether the standard error is a terminal.
pub fn run(
    rt: &HostRuntime,
    options: WatchOptions<'_>,
    terminal: Option<Terminal>,
    is_watched: bool,
) -> Result<Ending, Ending> {
    check_outputs(rt, options.board, options.transcript, options.page)?;
    let path = options.match_path;
    let handed = key_file_of(rt, path, FIRST_WATCHER)?;
    let file = handed.named_match();
    let names = file.names;
    let title = title_of(rt, options.title, &names)?;
    let failures = Failures::new();
    let (party, mut process) = begin(rt, path, &file.table, &handed.key, &failures)?;
    let (mut waiting, mut ticking) = waiting_for(rt, process.link().descriptor(), false)?;
    let mut files = KeptFiles::new(Outputs {
        board: options.board,
        transcript: options.transcript,
        page: options.page,
        words: page_words(title.as_str(), &names),
        numbering: options.numbering,
        goes_on: options.goes_on,
    });
    let drawn_on = terminal.filter(|terminal| terminal.is_drawn_on && !options.is_plain);
    // Log lines would tear the board, where both are at one terminal.
    let is_quiet = options.is_quiet || (is_watched && drawn_on.is_some());
    let mut logbook = Logbook::begin(rt, is_quiet, party, &file, process.held());
    let audience = audience_of(is_quiet, is_watched, drawn_on.is_some());
    let mut silence = SilenceReporter::new(rt, file.table, audience);
    let says_too = !is_watched;
    let mut showing = match drawn_on {
        Some(terminal) => {
            let board = LiveBoard::new(rt, terminal, &failures, says_too, file, process.held());
            Showing::Board(board)
        }
        None => Showing::Lines(Lines {
            rt,
            telling: Telling::new(),
            // A watcher has no file as a device, and so no folder to name.
            reporter: FailureReporter::new(rt, &failures, ""),
        }),
    };
    let ended = watch(
        rt,
        &mut process,
        &mut waiting,
        &mut ticking,
        &mut showing,
        &mut logbook,
        &mut silence,
        &mut files,
        is_watched,
    );
    logbook.end(ended.is_ok());
    ended
}

/// Returns the audience of the standard error, by whether only errors are to be reported, whether a
/// person watches it, and whether the board is drawn on the standard output.
fn audience_of(is_quiet: bool, is_watched: bool, is_drawn: bool) -> Audience {
    match (is_watched, is_quiet) {
        (true, _) if is_drawn => Audience::Nobody,
        (true, false) => Audience::Person,
        (_, true) => Audience::Log,
        (false, false) => Audience::LogWithLogbook,
    }
}

/// Refuses an output that has no name or is no regular file, and one file for two of the outputs,
/// where each would replace the other.
fn check_outputs(
    rt: &HostRuntime,
    board: Option<&str>,
    transcript: Option<&str>,
    page: Option<&str>,
) -> Result<(), Ending> {
    for path in [board, transcript, page] {
        if let Some(path) = path {
            check_out_file(rt, path)?;
        }
    }
    for pair in [(board, transcript), (board, page), (transcript, page)] {
        let (Some(one), Some(other)) = pair else {
            continue;
        };
        if bg_console::is_one_file(rt, one, other) {
            let words = " is named for two outputs: each needs a file of its own";
            return Err(wrong_at(rt, one, words));
        }
    }
    Ok(())
}

/// Begins a watcher of the match of this key file, and returns its number too.
fn begin<'a>(
    rt: &'a HostRuntime,
    path: &str,
    table: &MatchFile,
    key: &Key,
    failures: &'a Failures,
) -> Result<(u8, Watcher<'a>), Ending> {
    match begin_watcher(rt, path, table, key, failures) {
        Ok(begun) => Ok(begun),
        Err(NoWatcher::NoPort) => Err(failed(rt, NO_PORT)),
        Err(NoWatcher::NoSocket(party, error)) => Err(no_socket(rt, party, &error)),
        Err(NoWatcher::Reported(ending)) => Err(ending),
    }
}

/// Runs rounds until the match is over.
fn watch(
    rt: &HostRuntime,
    process: &mut Watcher<'_>,
    waiting: &mut Waiting,
    ticking: &mut Ticking,
    showing: &mut Showing<'_>,
    logbook: &mut Logbook<'_>,
    silence: &mut SilenceReporter<'_>,
    files: &mut KeptFiles<'_>,
    is_watched: bool,
) -> Result<Ending, Ending> {
    let mut liveness = Liveness::new();
    for _ in 0..u64::MAX {
        let empty_reads = process.link().empty_reads();
        let (_, tick) = waited(rt, ticking.next_round(rt, waiting, empty_reads))?;
        let going = process.round(tick, showing);
        let link = process.link();
        let record = process.held();
        let word = liveness.after_round(link, tick);
        let is_heard = link.heard() > 0;
        silence.after_round(link, &liveness);
        // A watcher at a terminal is told sooner whether the referee is heard.
        logbook.after_round(link, Some(record), tick && !is_watched);
        let news = showing.go_on(record, word, is_heard)?;
        files.after_round(rt, record, news, tick, is_heard)?;
        showing.note_files(files.are_failing());
        if going == Going::Over {
            files.write(rt, record, is_heard)?;
            break;
        }
    }
    Ok(Ending::Served)
}
