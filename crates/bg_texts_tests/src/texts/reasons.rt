//! The words of refusals and of faults.
use crate::checks::{check_printed, check_row, check_told};
use bg_match::{EntryFault, NoDouble};
use bg_streams::{EngineFault, StreamFault};
use bg_text::{LineFault, TextFault, TranscriptFault, reason_text};
use bg_turns::TurnFault;
use std::alloc::Global;
use std::process::Abort;

static REFUSALS: [(EntryFault, &str); 12] = [
    (EntryFault::RecordFull, "record full"),
    (EntryFault::MatchOver, "match over"),
    (EntryFault::WrongPhase, "wrong phase"),
    (EntryFault::EqualOpening, "equal opening"),
    (EntryFault::Memory, "out of memory"),
    (
        EntryFault::Turn(TurnFault::StepIllegal(0)),
        "step 1 illegal",
    ),
    (
        EntryFault::Turn(TurnFault::StepIllegal(3)),
        "step 4 illegal",
    ),
    (
        EntryFault::Turn(TurnFault::MoreCanBePlayed),
        "more can be played",
    ),
    (
        EntryFault::Turn(TurnFault::LargerMustBePlayed),
        "larger die must be played",
    ),
    (
        EntryFault::NoDouble(NoDouble::Crawford),
        "no double: crawford",
    ),
    (
        EntryFault::NoDouble(NoDouble::NotOwner),
        "no double: not owner",
    ),
    (EntryFault::NoDouble(NoDouble::AtCap), "no double: at cap"),
];

#[test]
fn refusals_in_words(rt: HostRuntime) {
    for (fault, words) in &REFUSALS {
        check_told(&rt, words, reason_text(fault).as_str(), words);
    }
}

static OF_LINES: [(TextFault, &str); 3] = [
    (TextFault::NotALine, "not a line"),
    (TextFault::BadNumber, "bad number"),
    (TextFault::TooManySteps, "too many steps"),
];

#[test]
fn refusals_of_lines_in_words(rt: HostRuntime) {
    for &(fault, words) in &OF_LINES {
        check_told(&rt, words, fault.reason(), words);
        check_printed(&rt, rt.alloc(), &fault, words);
    }
}

#[test]
fn faults_are_printed(rt: HostRuntime) {
    let alloc = rt.alloc();
    check_printed(&rt, alloc, &StreamFault, "the device failed");
    let read = "the input could not be read";
    check_printed(&rt, alloc, &EngineFault::Read, read);
    let write = "the output could not be written";
    check_printed(&rt, alloc, &EngineFault::Write, write);
    check_printed(&rt, alloc, &EngineFault::Memory, "out of memory");
}

static OF_TRANSCRIPTS: [(LineFault, &str); 6] = [
    (LineFault::NotALengthLine, "not a length line"),
    (LineFault::LengthOutOfRange, "length out of range"),
    (LineFault::Text(TextFault::BadNumber), "bad number"),
    (LineFault::WrongPlayer, "wrong player"),
    (
        LineFault::Entry(EntryFault::Turn(TurnFault::StepIllegal(1))),
        "step 2 illegal",
    ),
    (LineFault::Entry(EntryFault::RecordFull), "record full"),
];

/// Behind which words those of a fault stand, where its line is told.
const BEHIND: &str = "refused at line 12: ";

/// A fault has these words, and behind its line too.
fn check_line_fault(rt: &impl Abort, alloc: Global, why: LineFault, words: &str) {
    check_printed(rt, alloc, &why, words);
    let refused = TranscriptFault::Refused { line: 12, why };
    let printed = format!(in alloc; "{refused}").expect(rt, "memory");
    check_row(rt, words, printed.strip_prefix(BEHIND) == Some(words));
}

#[test]
fn faults_of_transcripts_are_printed(rt: HostRuntime) {
    for &(why, words) in &OF_TRANSCRIPTS {
        check_line_fault(&rt, rt.alloc(), why, words);
    }
    let long = "refused: input too long";
    check_printed(&rt, rt.alloc(), &TranscriptFault::TooLong, long);
    let memory = "out of memory";
    check_printed(&rt, rt.alloc(), &TranscriptFault::Memory, memory);
}
