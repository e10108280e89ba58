//! Messages on standard error.

use bg_system::{DeviceFailure, FailedCall, Failures, Printable};
use std::fmt::Display;
use std::io;
use std::io::ErrorKind;

/// Prints a message to standard error, after the program's name (docs/OPERATING.md, "Messages"). If
/// it can't be written, there is nobody to tell.
pub fn say<D: Display + Drop>(rt: &impl Eprint, message: D) {
    let _ = eprintln!(rt; "bg_relay: {message}");
}

/// Prints the name of a file or a folder, and these words after it.
pub fn say_of(rt: &impl Eprint, path: &str, words: &str) {
    let shown = Printable(path);
    say(rt, format_args!("{shown}{words}"));
}

/// Prints the name of a file or a folder, these words and a reason. Then it says what to do, if a
/// right or room is missing.
pub fn say_why(rt: &impl Eprint, path: &str, words: &str, reason: &io::Error) {
    let (shown, remedy) = (Printable(path), remedy_of(reason));
    say(rt, format_args!("{shown}{words}: {reason}{remedy}"));
}

/// Returns what to do if a file can't be used for this reason, or an empty text if that depends on
/// the file.
pub(crate) fn remedy_of(reason: &io::Error) -> &'static str {
    match reason.kind() {
        ErrorKind::PermissionDenied =>
            "; `ls -ld` says whose it is: run this as that user, or let them give you the right",
        ErrorKind::StorageFull | ErrorKind::QuotaExceeded =>
            "; make room there, and run this again",
        ErrorKind::OutOfMemory => "; end other programs, or allow this one more (`ulimit -v`)",
        _ => "",
    }
}

/// Prints a number between these words.
pub fn say_number(rt: &impl Eprint, before: &str, number: u64, behind: &str) {
    say(rt, format_args!("{before}{number}{behind}"));
}

/// Prints the failures of devices that were not printed yet, the oldest first. The devices' files
/// are in this folder.
pub fn say_failures(rt: &impl Eprint, failures: &Failures, folder: &str) {
    for failure in failures.drain() {
        let (text, remedy) = (failure.in_folder(folder), remedy_of_failure(&failure));
        say(rt, format_args!("{text}{remedy}"));
    }
}

/// Returns what to do if the file of a slot can't be used because a right or room is missing, or an
/// empty text.
fn remedy_of_failure(failure: &DeviceFailure) -> &'static str {
    match (failure.call, failure.error.kind()) {
        (
            FailedCall::Write(_) | FailedCall::Sync,
            ErrorKind::StorageFull | ErrorKind::QuotaExceeded,
        ) => "; make room there: the match goes on from what is saved",
        (
            FailedCall::Write(_) | FailedCall::Read(_) | FailedCall::Sync,
            ErrorKind::PermissionDenied,
        ) => "; let its owner give you the right: the match goes on from what is saved",
        _ => "",
    }
}
