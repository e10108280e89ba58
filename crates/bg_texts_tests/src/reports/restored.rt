//! The transcripts of what two saved files restore.
use super::saved_files::{BY_SECOND_RULES, EARLIER_OPENING, OPENING, REFEREE, REFEREE_OF_OLD};
use crate::checks::{check_row, text_of};
use bg_reports::restored_transcript;
use std::alloc::Global;

/// Whether two files restore this transcript; none where it is empty.
fn restore(alloc: Global, zero: &[u8], one: &[u8], wanted: &str) -> bool {
    match restored_transcript(alloc, zero, one) {
        Ok(Some(transcript)) => !wanted.is_empty() && text_of(&transcript) == wanted,
        Ok(None) => wanted.is_empty(),
        Err(_) => false,
    }
}

const AFTER_ONE: &str = "length 1\nopen 3 1\n";

const AFTER_TWO: &str = "length 1\nopen 3 1\nX move 8-5 6-5\n";

const BY_OTHER_RULES: &str = "length 1 rules 2\nopen 3 1\nX move 8-5 6-5\n";

/// Two files, what they are, and the transcript that they restore; none where it is empty.
type Row = (&'static str, &'static [u8], &'static [u8], &'static str);

/// Of two saves of one number that of file 0 counts.
static RESTORED: [Row; 9] = [
    ("file 0 alone", &REFEREE, b"", AFTER_TWO),
    ("file 1 alone, of old", b"BGS0", &REFEREE_OF_OLD, AFTER_TWO),
    ("no file", b"", b"", ""),
    ("no saved files", b"BGS2", b"rubbish", ""),
    ("file 1 is newer", &REFEREE, &OPENING, AFTER_ONE),
    ("file 0 is newer", &OPENING, &REFEREE, AFTER_ONE),
    ("other rules", &BY_SECOND_RULES, b"", BY_OTHER_RULES),
    (
        "one number, file 0 has two",
        &REFEREE,
        &EARLIER_OPENING,
        AFTER_TWO,
    ),
    (
        "one number, file 0 has one",
        &EARLIER_OPENING,
        &REFEREE,
        AFTER_ONE,
    ),
];

#[test]
fn transcripts_of_saved_files(rt: HostRuntime) {
    for (row, zero, one, wanted) in &RESTORED {
        check_row(&rt, row, restore(rt.alloc(), zero, one, wanted));
    }
}
