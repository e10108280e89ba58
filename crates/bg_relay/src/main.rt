//! The program: judges backgammon matches, shows saved ones, and plays scripts and automatic
//! matches, in memory or over sockets and files.
#![tactic(auto)]

pub use bg_auto::{
    DiceAttempts, LoopFault, MemoryWorld, Simulation, auto_action, dice_word, event_of,
    event_words, run_rounds, sim_text,
};
use bg_console::{Progress, columns, failed, no_memory, output_terminal, unwritten, wrong};
use bg_file_commands::{
    check, dice, export, id, import, judge, keys, list, new_match, page, picture, recover, show,
};
use bg_match_commands::{board, play_loop, referee, script, sim, watch};
use bg_options::{Request, command_line};
use bg_processes::PrintableLines;
pub use bg_processes::{FileKeeper, UdpLink, run_loop};
use bg_reports::Ending;
use bg_seat_commands::{act, auto, play};
use bg_serve::{manage, serve};
use clap::ArgMatches;
use clap::error::ErrorKind;
use std::io;
use std::io::IsTerminal;
use std::process::ExitCode;

fn main(rt: HostRuntime) -> ExitCode {
    ExitCode::from(run(&rt).status())
}

/// Runs the command that the arguments name.
fn run(rt: &HostRuntime) -> Ending {
    let words: Vec<String> = match std::env::args(rt) {
        Ok(words) => match words.collect(rt.alloc()) {
            Ok(words) => words,
            Err(_) => return no_memory(rt),
        },
        Err(error) if error.kind() == io::ErrorKind::InvalidData => {
            return wrong(
                rt,
                "an argument is not valid UTF-8: rename that file or folder",
            );
        }
        Err(error) => return failed(rt, error),
    };
    let first = words.get(1).map(|word| word.as_str());
    let Ok(command) = command_line(rt.alloc(), first) else {
        return no_memory(rt);
    };
    match command.try_get_matches_from(words.as_slice()) {
        Ok(matches) => obey_matches(rt, &matches, called_by(&words)),
        Err(error) => answer(rt, &error),
    }
}

/// Returns the name by which the program was called.
fn called_by(words: &[String]) -> &str {
    match words.first() {
        Some(name) if !name.is_empty() => name.as_str(),
        _ => "bg_relay",
    }
}

/// Carries out the request of the parsed arguments, if they make one.
fn obey_matches(rt: &HostRuntime, matches: &ArgMatches<'_>, called: &str) -> Ending {
    match Request::read(matches) {
        Ok(request) => match obey(rt, request, called) {
            Ok(ending) | Err(ending) => ending,
        },
        Err(fault) => wrong(rt, fault),
    }
}

/// Carries out a request, for a program that was called by this name. Where a command ended early,
/// the reason has been reported.
fn obey(rt: &HostRuntime, request: Request<'_, '_>, called: &str) -> Result<Ending, Ending> {
    let is_watched = rt.stderr().is_terminal();
    let progress = Progress::start(rt, is_watched);
    match request {
        Request::Judge => judge::run(rt),
        Request::Check(options) => check::run(rt, options, columns(rt), progress),
        Request::Import(options) => import::run(rt, options, progress),
        Request::Export(options) => export::run(rt, options, progress),
        Request::Show(options) => show::run(rt, options),
        Request::List(options) => list::run(rt, options),
        Request::Board(options) => board::run(rt, options),
        Request::Page(options) => page::run(rt, options),
        Request::Picture(options) => picture::run(rt, options),
        Request::Id => id::run(rt),
        Request::Dice { secret } => dice::run(rt, secret),
        Request::Script(options) => script::run(rt, options),
        Request::Sim(options) => sim::run(rt, options, progress),
        Request::Loop(options) => play_loop::run(rt, options, progress),
        Request::New(options) => new_match::run(rt, options, called),
        Request::Keys { folder } => keys::run(rt, folder),
        Request::Recover(options) => recover::run(rt, options),
        Request::Referee(options) => referee::run(rt, options, progress),
        Request::Play(options) => play::run(rt, options, output_terminal(rt)),
        Request::Act(options) => act::run(rt, options, is_watched),
        Request::Auto(options) => auto::run(rt, options, is_watched),
        Request::Watch(options) => watch::run(rt, options, output_terminal(rt), is_watched),
        Request::Serve(options) => serve::run(rt, options),
        Request::Manage(options) => manage::run(rt, options),
    }
}

/// Prints help or the version, or what is wrong with the arguments.
fn answer(rt: &HostRuntime, error: &clap::Error) -> Ending {
    if let ErrorKind::OutOfMemory = error.kind() {
        return no_memory(rt);
    }
    let Ok(text) = error.to_string(rt.alloc()) else {
        return no_memory(rt);
    };
    if error.use_stderr() {
        let _ = rt.eprint(PrintableLines(&text));
        return Ending::WrongArguments;
    }
    match rt.print(text) {
        Ok(()) => Ending::Told,
        Err(error) => unwritten(rt, &error),
    }
}
