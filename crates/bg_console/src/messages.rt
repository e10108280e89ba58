//! The messages on standard error (docs/OPERATING.md, "Messages"), and the endings that go with
//! them.

pub(crate) mod progress;
pub(crate) mod says;

use crate::messages::says::{remedy_of, say, say_of, say_why};
use bg_reports::Ending;
use bg_streams::EngineFault;
use bg_system::Printable;
use std::alloc::AllocError;
use std::fmt::Display;
use std::io;
use std::io::ErrorKind;

/// The message for lack of memory, and those on an input that can't be read.
const NO_MEMORY: &str =
    "out of memory: end other programs, or allow this one more (`ulimit -v`), and start it again";

const NO_INPUT: &str = "the input could not be read";

const OTHER_INPUT: &str = "; give it a file or a terminal that can be read, and run it again";

/// Reports that reading, writing or memory failed, and returns `Failed`.
pub fn failed<D: Display + Drop>(rt: &impl Eprint, message: D) -> Ending {
    say(rt, message);
    Ending::Failed
}

/// Reports the same by a line of its own form, without the program's name.
pub fn failed_barely<D: Display + Drop>(rt: &impl Eprint, line: D) -> Ending {
    let _ = rt.eprintln(line);
    Ending::Failed
}

/// Reports that reading, writing or memory failed, with the reason that the input or the output
/// keeps.
pub fn engine_failed(
    rt: &impl Eprint,
    fault: EngineFault,
    of_input: Option<&io::Error>,
    of_output: Option<&io::Error>,
) -> Ending {
    match (fault, of_input, of_output) {
        (EngineFault::Read, Some(reason), _) => unread(rt, reason),
        (EngineFault::Write, _, Some(reason)) => unwritten(rt, reason),
        (EngineFault::Memory, _, _) => no_memory(rt),
        _ => failed(rt, fault),
    }
}

/// Reports that memory ran out.
pub fn no_memory(rt: &impl Eprint) -> Ending {
    failed(rt, NO_MEMORY)
}

/// Returns the result of an attempt that needs memory. Ends with `Failed`, and reports it, where
/// memory ran out.
pub fn allocated<T>(rt: &impl Eprint, attempt: Result<T, AllocError>) -> Result<T, Ending> {
    match attempt {
        Ok(made) => Ok(made),
        Err(AllocError) => Err(no_memory(rt)),
    }
}

/// Reports that this failed, and why. Then it says what to do, if a right or room is missing.
pub fn failed_for(rt: &impl Eprint, what: &str, reason: &io::Error) -> Ending {
    let remedy = remedy_of(reason);
    failed(rt, format_args!("{what}: {reason}{remedy}"))
}

/// Reports that this failed, and why. Then it says what to do: how to get the right or the room
/// that is missing, or else this remedy.
pub fn failed_or(rt: &impl Eprint, what: &str, reason: &io::Error, remedy: &str) -> Ending {
    let known = remedy_of(reason);
    let remedy = if known.is_empty() { remedy } else { known };
    failed(rt, format_args!("{what}: {reason}{remedy}"))
}

/// Reports that reading, writing or locking a file or a folder failed, with its name, these words
/// and the reason. Then it says what to do, if a right or room is missing.
pub fn failed_at(rt: &impl Eprint, path: &str, words: &str, reason: &io::Error) -> Ending {
    say_why(rt, path, words, reason);
    Ending::Failed
}

/// Reports the same as [`failed_at`], and then what to do, in a line of its own, unless the first
/// line says that.
pub fn failed_with(
    rt: &impl Eprint,
    path: &str,
    words: &str,
    reason: &io::Error,
    remedy: &str,
) -> Ending {
    say_why(rt, path, words, reason);
    if remedy_of(reason).is_empty() {
        say(rt, remedy);
    }
    Ending::Failed
}

/// Reports that the output could not be written, and why, and returns `Failed`. It reports nothing
/// if nobody reads the output any more, as with `head`.
pub fn unwritten(rt: &impl Eprint, error: &io::Error) -> Ending {
    if error.kind() == ErrorKind::BrokenPipe {
        return Ending::Failed;
    }
    failed_for(rt, "the output could not be written", error)
}

/// Returns the result of writing. Ends with `Failed`, and reports why, where that failed.
pub fn written<T>(rt: &impl Eprint, attempt: io::Result<T>) -> Result<T, Ending> {
    match attempt {
        Ok(done) => Ok(done),
        Err(error) => Err(unwritten(rt, &error)),
    }
}

/// Reports that the input could not be read, why, and what to do.
pub fn unread(rt: &impl Eprint, error: &io::Error) -> Ending {
    failed_or(rt, NO_INPUT, error, OTHER_INPUT)
}

/// Reports why the arguments are refused, and returns `WrongArguments`.
pub fn wrong<D: Display + Drop>(rt: &impl Eprint, message: D) -> Ending {
    say(rt, message);
    Ending::WrongArguments
}

/// Reports why a file or a folder is refused, with its name and these words.
pub fn wrong_at(rt: &impl Eprint, path: &str, words: &str) -> Ending {
    say_of(rt, path, words);
    Ending::WrongArguments
}

/// Reports that a folder can't be used or created, with its name, these words, which say what to
/// do, and the reason.
pub fn wrong_for(rt: &impl Eprint, path: &str, words: &str, reason: &io::Error) -> Ending {
    let shown = Printable(path);
    wrong(rt, format_args!("{shown}{words}: {reason}"))
}
