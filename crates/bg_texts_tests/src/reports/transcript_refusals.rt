//! What is said of transcripts that give no record, by the fault that was met: the same as of files
//! that are checked.
use super::told;
use crate::checks::{check_row, check_words};
use bg_match::EntryFault;
use bg_reports::{check_text, said_of_transcript_fault};
use bg_text::{LineFault, MAX_INPUT, TranscriptFault, read_transcript};
use std::alloc::{AllocError, Global};
use std::process::Abort;

/// What is said of a fault on a screen of so many columns, if there is one, and the verdict.
fn said(
    alloc: Global,
    bytes: &[u8],
    fault: TranscriptFault,
    columns: Option<usize>,
) -> Result<String, AllocError> {
    let said = said_of_transcript_fault(alloc, "a", bytes, fault, columns);
    told(alloc, said)
}

/// The same is said of the fault as of the transcript where that is checked, with this verdict.
fn check_same(
    rt: &impl Abort,
    alloc: Global,
    bytes: &[u8],
    fault: TranscriptFault,
    columns: Option<usize>,
    verdict: &str,
) {
    let said = said(alloc, bytes, fault, columns).expect(rt, "memory");
    let checked = told(alloc, check_text(alloc, "a", bytes, columns));
    check_words(rt, verdict, checked, said.as_str());
    check_row(rt, verdict, said.ends_with(verdict));
}

/// Screens of some widths, and none.
const COLUMNS: [Option<usize>; 5] = [None, Some(0), Some(30), Some(45), Some(200)];

/// A transcript gives no record, and this is said of its fault, with the verdict behind it. It is
/// checked likewise.
fn check_as_checked(rt: &impl Abort, alloc: Global, bytes: &[u8], wanted: &str) {
    let fault = read_transcript(alloc, 1, bytes).err().expect(rt, wanted);
    check_words(rt, wanted, said(alloc, bytes, fault, None), wanted);
    let (_, verdict) = wanted.rsplit_once('\n').expect(rt, wanted);
    for columns in &COLUMNS {
        check_same(rt, alloc, bytes, fault, *columns, verdict);
    }
}

fn check_rows(rt: &impl Abort, alloc: Global, rows: &[(&str, &str)]) {
    for &(text, wanted) in rows {
        check_as_checked(rt, alloc, text.as_bytes(), wanted);
    }
}

static FIRST_LINES: [(&str, &str); 4] = [
    ("", "a: refused at line 1: not a length line\nRefused(1)"),
    (
        "\nlength 1\n",
        "a: refused at line 1: not a length line\nRefused(1)",
    ),
    (
        "length 100\nopen 3 1\n",
        "a: refused at line 1: length out of range: length 100\nRefused(1)",
    ),
    (
        "length 1\x1b[2J",
        "a: refused at line 1: not a length line: length 1\\x1b[2J\nRefused(1)",
    ),
];

#[test]
fn transcripts_whose_first_line_is_refused(rt: HostRuntime) {
    check_rows(&rt, rt.alloc(), &FIRST_LINES);
}

static ENTRIES: [(&str, &str); 5] = [
    (
        "length 1\nopen 7 1\n",
        "a: refused at line 2: bad number: open 7 1\nRefused(2)",
    ),
    (
        "length 1\nopen 3 3\nX roll 2 1\n",
        "a: refused at line 2: equal opening: open 3 3\nRefused(2)",
    ),
    (
        "length 1\nopen 3 1\nO move 8-5 6-5\n",
        "a: refused at line 3: wrong player: O move 8-5 6-5\nRefused(3)",
    ),
    (
        "length 1\nopen 3 1\nX move 8-4\nO roll 6 5\nO move 24-13\n",
        "a: refused at line 3: step 1 illegal: X move 8-4\nRefused(3)",
    ),
    (
        "length 1\nopen 3 1\nX move 8-5 6-5\nO double\nX take\n",
        "a: refused at line 4: no double: crawford: O double\nRefused(4)",
    ),
];

#[test]
fn transcripts_whose_entry_is_refused(rt: HostRuntime) {
    check_rows(&rt, rt.alloc(), &ENTRIES);
}

/// The last line lacks its line feed, or its end.
static LAST_LINES: [(&str, &str); 2] = [
    (
        "length 1\nopen 3 1\nX move 8-5",
        "a: refused at line 3: more can be played: X move 8-5\nRefused(3)",
    ),
    (
        "length 1\nopen 3 1\nX move 8-5 6-5\nO rol",
        "a: refused at line 4: not a line: O rol\nRefused(4)",
    ),
];

#[test]
fn transcripts_whose_last_line_is_not_finished(rt: HostRuntime) {
    check_rows(&rt, rt.alloc(), &LAST_LINES);
}

/// What is too long has a verdict and no line.
#[test]
fn transcripts_that_are_too_long(rt: HostRuntime) {
    let bytes = vec![in rt.alloc(); b'X'; MAX_INPUT + 1].expect(&rt, "memory");
    let wanted = "a: refused: input too long\nTooLong";
    check_as_checked(&rt, rt.alloc(), &bytes, wanted);
}

/// Want of memory has no verdict.
#[test]
fn want_of_memory_for_a_transcript(rt: HostRuntime) {
    let said = said(rt.alloc(), b"length 1\n", TranscriptFault::Memory, None);
    check_row(&rt, "no verdict", said.is_err());
}

/// The line and the reason are the fault's, and are not looked for in the bytes.
#[test]
fn the_fault_says_the_line_and_the_reason(rt: HostRuntime) {
    let why = LineFault::Entry(EntryFault::MatchOver);
    let fault = TranscriptFault::Refused { line: 2, why };
    let wanted = "a: refused at line 2: match over: open 3 1\nRefused(2)";
    let said = said(rt.alloc(), b"length 1\nopen 3 1\n", fault, None);
    check_words(&rt, wanted, said, wanted);
}
