//! Records of matches, and their transcripts.
use crate::checks::check_row;
use bg_match::{Entry, Record};
use bg_text::{TranscriptFault, parse_entry, read_transcript, transcript_text};
use std::alloc::Global;
use std::process::Abort;

/// The record of a transcript, as that of a match of this number, also where memory is refused
/// once.
pub(crate) fn read(rt: &impl Abort, alloc: Global, number: u64, transcript: &[u8]) -> Record {
    match read_transcript(alloc, number, transcript) {
        Err(TranscriptFault::Memory) => read_transcript(alloc, number, transcript),
        read => read,
    }
    .expect(rt, "a good transcript")
}

/// The record of a transcript, also where memory is refused once.
pub(crate) fn record_of(rt: &impl Abort, alloc: Global, transcript: &str) -> Record {
    read(rt, alloc, 1, transcript.as_bytes())
}

/// Whether an entry is appended, also where memory for it is refused once.
pub(crate) fn is_pushed(record: &mut Record, entry: &Entry) -> bool {
    record.push(entry.copy()).is_ok() || record.push(entry.copy()).is_ok()
}

/// Appends the entries of some lines.
pub(crate) fn push_lines(rt: &impl Abort, record: &mut Record, lines: &str) {
    for line in lines.lines() {
        let (_, entry) = parse_entry(line.as_bytes()).expect(rt, line);
        check_row(rt, line, is_pushed(record, &entry));
    }
}

/// The transcript of a record, also where memory is refused once.
pub(crate) fn written(rt: &impl Abort, alloc: Global, record: &Record) -> Vec<u8> {
    match transcript_text(alloc, record) {
        Err(_) => transcript_text(alloc, record),
        text => text,
    }
    .expect(rt, "memory")
}
