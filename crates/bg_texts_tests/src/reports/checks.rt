//! What is said of files that were judged.
use super::told;
use crate::checks::{check_row, check_words};
use bg_reports::check_text;
use bg_text::Verdict;
use std::alloc::Global;
use std::process::Abort;

/// This is said of a file on a screen of so many columns, if there is one, and the verdict stands
/// behind it.
fn check_said(rt: &impl Abort, alloc: Global, bytes: &[u8], columns: Option<usize>, wanted: &str) {
    let said = check_text(alloc, "a/file", bytes, columns);
    check_words(rt, wanted, told(alloc, said), wanted);
}

/// This is said of files where there is no screen.
fn check_files(rt: &impl Abort, alloc: Global, rows: &[(&[u8], &str)]) {
    for &(bytes, wanted) in rows {
        check_said(rt, alloc, bytes, None, wanted);
    }
}

/// This is said of a file on screens of so many columns.
fn check_screens(rt: &impl Abort, alloc: Global, bytes: &[u8], rows: &[(Option<usize>, &str)]) {
    for &(columns, wanted) in rows {
        check_said(rt, alloc, bytes, columns, wanted);
    }
}

/// Whatever the screen, and without one.
static OF_A_TURN: [(Option<usize>, &str); 3] = [
    (None, "a/file: ok 2, not over\nFine(2)"),
    (Some(80), "a/file: ok 2, not over\nFine(2)"),
    (Some(0), "a/file: ok 2, not over\nFine(2)"),
];

static OF_NO_ENTRY: [(Option<usize>, &str); 3] = [
    (None, "a/file: ok 0, not over\nFine(0)"),
    (Some(80), "a/file: ok 0, not over\nFine(0)"),
    (Some(0), "a/file: ok 0, not over\nFine(0)"),
];

#[test]
fn files_that_are_good(rt: HostRuntime) {
    let turn = b"length 1\nopen 3 1\nX move 8-5 6-5";
    check_screens(&rt, rt.alloc(), turn, &OF_A_TURN);
    check_screens(&rt, rt.alloc(), b"length 99 rules 2\n", &OF_NO_ENTRY);
}

/// The winner stands first, with his points before those of the other player. Only a match file is
/// cut.
static RESULTS: [(&[u8], &str); 7] = [
    (
        b"length 1\nopen 3 1\nX resign normal\nO accept\n",
        "a/file: ok 3, O wins 1-0\nFine(3)",
    ),
    (
        b"length 2\nopen 1 3\nO resign normal\nX accept\nopen 3 1\nX resign gammon\nO accept\n",
        "a/file: ok 6, O wins 2-1\nFine(6)",
    ),
    (
        b"length 2\nopen 1 3\nO resign backgammon\nX accept\n",
        "a/file: ok 3, X wins 3-0\nFine(3)",
    ),
    (
        b"length 2\nopen 1 3\nO resign normal\nX accept\n",
        "a/file: ok 3, not over\nFine(3)",
    ),
    (
        b" 2 point match\n Game 1\n A : 0 B : 0\n 1) 31: 8/5 6/5 Doubles\n Drops Wins 1 point\n",
        "a/file: ok 4, not over\nFine(4)",
    ),
    (
        b" 2 point match\n Game 1\n A : 0 B : 0\n 1) 31: 8/5 6/5 Doubles\n Drops Wins 1 point\n Game 2\n",
        "a/file: ok 4, cut within a game\nFine(4)",
    ),
    (
        b" 1 point match\n Game 1\n A : 0 B : 0\n 1) 31: 8/5 6/5\n                 42:\n Wins 1 point\n",
        "a/file: ok 5, X wins 1-0\nFine(5)",
    ),
];

#[test]
fn files_of_matches_that_end_and_that_go_on(rt: HostRuntime) {
    check_files(&rt, rt.alloc(), &RESULTS);
}

/// The line is named, and shown.
static REFUSED: [(&[u8], &str); 7] = [
    (
        b"length 1\nopen 3 1\nX move 8-5\n",
        "a/file: refused at line 3: more can be played: X move 8-5\nRefused(3)",
    ),
    (
        b"length 1\r\nopen 3 1\r\n",
        "a/file: refused at line 1: not a length line: length 1\\r\nRefused(1)",
    ),
    (
        b"length 100\n",
        "a/file: refused at line 1: length out of range: length 100\nRefused(1)",
    ),
    (
        b"length 1\nopen 3 3",
        "a/file: refused at line 2: equal opening: open 3 3\nRefused(2)",
    ),
    (
        b"length 1\nopen 3 1\nO roll 3 1\nrubbish\n",
        "a/file: refused at line 3: wrong player: O roll 3 1\nRefused(3)",
    ),
    (
        b"\x00\x1b[2J\xff\t\\\x7f\n",
        "a/file: refused at line 1: not a length line: \\x00\\x1b[2J\\xff\\t\\\\\\x7f\nRefused(1)",
    ),
    (
        b"length 1\nX \xc3\x86r\xc3\xb8 \xe6\x97\xa5",
        "a/file: refused at line 2: not a line: X \\xc3\\x86r\\xc3\\xb8 \\xe6\\x97\\xa5\nRefused(2)",
    ),
];

#[test]
fn files_that_are_refused(rt: HostRuntime) {
    check_files(&rt, rt.alloc(), &REFUSED);
}

static NOTHING_SEEN: [(&[u8], &str); 3] = [
    (
        b"length 1\n\nopen 3 1\n",
        "a/file: refused at line 2: not a line\nRefused(2)",
    ),
    (
        b"\n",
        "a/file: refused at line 1: not a length line\nRefused(1)",
    ),
    (
        b"",
        "a/file: refused at line 1: not a length line\nRefused(1)",
    ),
];

#[test]
fn refused_lines_of_which_nothing_is_seen(rt: HostRuntime) {
    check_files(&rt, rt.alloc(), &NOTHING_SEEN);
}

/// A match file of another program is one where its first line that tells something is a length,
/// and is judged by what it imports to; any other file is judged as a transcript.
static OTHER_KINDS: [(&[u8], &str); 5] = [
    (
        b"; [Site \"here\"]\n\n 3 point match\n",
        "a/file: ok 0, not over\nFine(0)",
    ),
    (
        b" 1 point match\n\n Game 1\n A : 0 B : 0\n 1) 31: 8/5 6/5\n",
        "a/file: ok 2, cut within a game\nFine(2)",
    ),
    (
        b" 1 point match\n\n Game 1\n A : 0 B : 0\n 1) 31: 8/5 6/4\n",
        "a/file: refused at line 5: no legal turn has this movement:  1) 31: 8/5 6/4\nRefused(5)",
    ),
    (
        b"; nothing\n 0 point match\n",
        "a/file: refused at line 2: a money game:  0 point match\nRefused(2)",
    ),
    (
        b"; [Site \"here\"]\n\n Game 1\n",
        "a/file: refused at line 1: not a length line: ; [Site \"here\"]\nRefused(1)",
    ),
];

#[test]
fn files_of_other_kinds(rt: HostRuntime) {
    check_files(&rt, rt.alloc(), &OTHER_KINDS);
}

static CUT: [(Option<usize>, &str); 8] = [
    (
        Some(100),
        "a/file: refused at line 2: not a line: open 3 1 and more\nRefused(2)",
    ),
    (
        Some(56),
        "a/file: refused at line 2: not a line: open 3 1 and more\nRefused(2)",
    ),
    (
        Some(55),
        "a/file: refused at line 2: not a line: open 3 1 and ...\nRefused(2)",
    ),
    (
        Some(43),
        "a/file: refused at line 2: not a line: o...\nRefused(2)",
    ),
    (
        Some(42),
        "a/file: refused at line 2: not a line: ...\nRefused(2)",
    ),
    (
        Some(41),
        "a/file: refused at line 2: not a line\nRefused(2)",
    ),
    (
        Some(39),
        "a/file: refused at line 2: not a line\nRefused(2)",
    ),
    (Some(0), "a/file: refused at line 2: not a line\nRefused(2)"),
];

/// The line is cut where the screen ends, and says so.
#[test]
fn lines_are_cut(rt: HostRuntime) {
    check_screens(&rt, rt.alloc(), b"length 1\nopen 3 1 and more", &CUT);
}

/// Whether an endless line is cut. The name, the verdict, and 1000 columns with what stands before
/// them are shown; an escape takes four.
fn is_cut(alloc: Global, bytes: &[u8]) -> bool {
    let front = b"a/file: refused at line 1: not a length line: \\x00\\x00\\x00";
    match check_text(alloc, "a/file", bytes, None) {
        Ok((text, verdict)) => {
            verdict == Verdict::Refused(1)
                && text.len() == 44 + 1000 + 1
                && text.starts_with(front)
                && text.ends_with(b"\\x00\\x0...\n")
        }
        Err(_) => false,
    }
}

/// A line without an end is cut where there is no screen too.
#[test]
fn endless_lines_are_cut(rt: HostRuntime) {
    check_row(&rt, "it is cut", is_cut(rt.alloc(), &[0; 100_000]));
}
