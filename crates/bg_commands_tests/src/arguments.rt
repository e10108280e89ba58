//! What the words of each command ask for.
mod requests;

use crate::checks::{check, check_said};
use crate::command_lines::check_refused;
use crate::lasting::{lasting, lasting_text};
use bg_options::{Request, RequestFault, command_line};
use bg_system::NameFault;
use clap::ArgMatches;
use clap::error::ErrorKind;
use requests::is_asked;
use std::alloc::Global;
use std::process::Abort;

/// The words of commands, without the program's name, and with a bar between two of them.
const WORDS: [&str; 36] = [
    "judge",
    "check|--quiet|a|-|b",
    "check|--files-from|-|--recursive|--format|tsv",
    "import",
    "import|--rules|2",
    "export",
    "show|a",
    "show|--transcript|a|b",
    "page|--title|A & B|--numbering|X",
    "page",
    "picture|--numbering|X",
    "script|--length|99|--rules|2|--watchers|253",
    "sim|--seed|18446744073709551615|--length|3|--watchers|2|--steps|9",
    "loop|--seed|0|--length|1|--rules|2|--rounds|1000000|--dir|d",
    "new|--length|5|--port|65280|--dir|d",
    "referee|--dir|d",
    "play|--player|X|--match|m|--dir|d",
    "act|--player|O|--match|m|--dir|d|--seconds|7|--entry|3|move|8-5",
    "auto|--player|O|--match|m|--dir|d",
    "watch|--match|m|--board|b|--transcript|t|--page|p|--go-on",
    "recover|--match|m|--keys|k|--x|x|--o|o|--dir|d|t|-",
    "keys|--dir|d",
    "list|a|b",
    "list|--format|json|t",
    "referee|--quiet|--dir|d",
    "watch|--match|m|--quiet|--plain",
    "play|--player|O|--match|m|--dir|d|--columns|60|--forced",
    "new|--name-o|Otto|--length|5|--port|1024|--dir|d|--name-x|Anna \u{d6}",
    "page|--match|m",
    "import|--out|d|--force|a|b",
    "import|--headers|h",
    "export|--x|Anna|--o|Otto|--date|1|--event|2|--place|3|--out|d|a",
    "recover|--match|m|--x| x|--o|o|--dir|d",
    "page|--name-o|Otto|--name-x|Anna",
    "board|--once|--out|p|a|b",
    "dice|--secret|s",
];

/// What the words of a command line, with the program's name, were parsed to; nothing where they are
/// no such words. It is large, so it lies in a box.
fn matches_of<'a>(alloc: Global, words: &'a [&'a str]) -> Option<Box<ArgMatches<'a>>> {
    let line = command_line(alloc, words.get(1).copied()).ok()?;
    let matches = line.try_get_matches_from(words).ok()?;
    Box::new(alloc, matches).ok()
}

/// Why such words are refused, if they are.
fn fault_of(alloc: Global, words: &[&str]) -> Option<RequestFault> {
    let matches = matches_of(alloc, words)?;
    Request::read(&matches).err()
}

/// Such words, with a bar between two of them, are refused for this.
fn check_fault(rt: &(impl AllocGlobal + Abort), words: &str, fault: RequestFault) {
    let found = fault_of(rt.alloc(), line_of(rt, words));
    check(rt, found == Some(fault), words);
}

/// The words of a command line, with the program's name.
fn line_of<'a>(rt: &(impl AllocGlobal + Abort), words: &'a str) -> &'a [&'a str] {
    let line = lasting(rt, Vec::new(rt.alloc()));
    line.push("bg_relay").expect(rt, "memory");
    for word in words.split('|') {
        line.push(word).expect(rt, "memory");
    }
    line.as_slice()
}

/// Whether the words of this row ask for what they should.
fn asks(alloc: Global, row: usize, words: &[&str]) -> bool {
    match matches_of(alloc, words) {
        Some(matches) => Request::read(&matches).is_ok_and(|request| is_asked(row, &request)),
        None => false,
    }
}

#[test]
fn words_of_each_command(rt: HostRuntime) {
    check_words(&rt);
}

/// Each row of words asks for what it should.
fn check_words(rt: &(impl AllocGlobal + Abort)) {
    for (row, words) in WORDS.iter().enumerate() {
        check(rt, asks(rt.alloc(), row, line_of(rt, words)), words);
    }
}

/// Each command line is refused for its fault.
fn check_faults(rt: &(impl AllocGlobal + Abort), rows: &[(&str, RequestFault)]) {
    for (words, fault) in rows {
        check_fault(rt, words, *fault);
    }
}

/// Words that name a file to a command.
const MISPLACED: [(&str, RequestFault); 5] = [
    ("judge|file", RequestFault::MisplacedFile("judge")),
    ("import|file", RequestFault::MisplacedFile("import")),
    ("export|file", RequestFault::MisplacedFile("export")),
    ("page|file", RequestFault::MisplacedFile("page")),
    ("picture|file", RequestFault::MisplacedFile("picture")),
];

/// A file that is named to a command which reads the standard input is said where it belongs.
#[test]
fn misplaced_files(rt: HostRuntime) {
    check_faults(&rt, &MISPLACED);
}

/// Words of batches, and what is at fault in each.
const BATCHES: [(&str, RequestFault); 3] = [
    ("import|--out|d", RequestFault::NoFiles),
    ("export|--out|d", RequestFault::NoFiles),
    ("import|--out|d|--headers|h|a", RequestFault::HeadersOfMany),
];

/// Options for files and a folder that don't fit are said.
#[test]
fn batches_that_are_refused(rt: HostRuntime) {
    check_faults(&rt, &BATCHES);
}

/// Words that give an empty header.
const HEADERS: [(&str, RequestFault); 5] = [
    ("export|--x=", RequestFault::Name("x", NameFault::Length)),
    ("export|--o=", RequestFault::Name("o", NameFault::Length)),
    (
        "export|--date=",
        RequestFault::Name("date", NameFault::Length),
    ),
    (
        "export|--event=",
        RequestFault::Name("event", NameFault::Length),
    ),
    (
        "export|--place=",
        RequestFault::Name("place", NameFault::Length),
    ),
];

/// A text above a match is as clean as a name.
#[test]
fn headers_that_are_refused(rt: HostRuntime) {
    check_faults(&rt, &HEADERS);
}

/// The words of a fault.
fn said_of<'a>(rt: &(impl AllocGlobal + Abort), fault: RequestFault) -> &'a str {
    let said = format!(in rt.alloc(); "{fault}");
    lasting_text(said.expect(rt, "memory"))
}

/// Options for names, words that give none, why, and what is said then.
const NAMES: &[(&str, &str, NameFault, &str)] = &[
    (
        "name-x",
        "new|--length|1|--port|4000|--dir|d|--name-x=",
        NameFault::Length,
        "--name-x is refused: a name has 1 to 64 bytes of UTF-8",
    ),
    (
        "name-o",
        "new|--length|1|--port|4000|--dir|d|--name-o= A",
        NameFault::Blank,
        "--name-o is refused: a name neither begins nor ends with a blank",
    ),
    (
        "name-x",
        "new|--length|1|--port|4000|--dir|d|--name-x=A\u{202e}",
        NameFault::Character,
        "--name-x is refused: a name has no control characters, and none that change the direction of a text",
    ),
];

/// A name that is none is said, with its option.
#[test]
fn names_that_are_refused(rt: HostRuntime) {
    check_names(&rt);
}

/// Each name has its fault, and the words for it.
fn check_names(rt: &(impl AllocGlobal + Abort)) {
    for (option, words, why, wanted) in NAMES {
        let fault = RequestFault::Name(*option, *why);
        check_fault(rt, words, fault);
        let said = said_of(rt, fault);
        check_said(rt, said == *wanted, words, said);
    }
}

/// A list of files or one of them has to be named.
#[test]
fn nothing_to_check(rt: HostRuntime) {
    let missing = ErrorKind::MissingRequiredArgument;
    check_refused(&rt, "check", &["bg_relay", "check"], missing, true);
}
