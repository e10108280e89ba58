//! Command lines: which words are refused, and what help they give.
use crate::checks::check;
use bg_options::{TASKS, command_line};
use clap::error::ErrorKind;
use std::alloc::Global;
use std::process::Abort;

/// These words are refused so, or answered by help; a row tells them where they are not.
pub(crate) fn check_refused(
    rt: &(impl AllocGlobal + Abort),
    row: &str,
    words: &[&str],
    kind: ErrorKind,
    on_stderr: bool,
) {
    let refused = refusal(rt.alloc(), words.get(1).copied(), words);
    check(rt, refused == Some((kind, on_stderr)), row);
}

/// How the command line that help is given of refuses words, and whether that is an error; nothing
/// where it accepts them.
fn refusal(alloc: Global, asked: Option<&str>, words: &[&str]) -> Option<(ErrorKind, bool)> {
    let line = command_line(alloc, asked).ok()?;
    match line.try_get_matches_from(words) {
        Ok(_) => None,
        Err(error) => Some((error.kind(), error.use_stderr())),
    }
}

/// Each command has its name, by itself and among all of them.
#[test]
fn each_name_has_its_command(rt: HostRuntime) {
    check_names(&rt);
}

/// Help is shown of each.
fn check_names(rt: &(impl AllocGlobal + Abort)) {
    let help = ErrorKind::DisplayHelp;
    for (name, _) in TASKS {
        let words = ["bg_relay", name, "--help"];
        check_refused(rt, name, &words, help, false);
        let among_all = refusal(rt.alloc(), None, &words);
        check(rt, among_all == Some((help, false)), name);
    }
}

#[test]
fn help_is_shown(rt: HostRuntime) {
    let help = ErrorKind::DisplayHelp;
    check_refused(&rt, "--help", &["bg_relay", "--help"], help, false);
    check_refused(
        &rt,
        "judge --help",
        &["bg_relay", "judge", "--help"],
        help,
        false,
    );
}

#[test]
fn other_words_are_refused(rt: HostRuntime) {
    let missing = ErrorKind::DisplayHelpOnMissingArgumentOrSubcommand;
    check_refused(&rt, "no words", &["bg_relay"], missing, true);
    let unknown_command = ErrorKind::InvalidSubcommand;
    check_refused(&rt, "walk", &["bg_relay", "walk"], unknown_command, true);
    let unknown_option = ErrorKind::UnknownArgument;
    check_refused(
        &rt,
        "judge --loud",
        &["bg_relay", "judge", "--loud"],
        unknown_option,
        true,
    );
}
