//! What is read of match files.
use crate::checks::{check_told, text_of};
use crate::records::written;
use bg_mat::{Imported, export_mat, import_mat};
use bg_match::{Record, Rules};
use std::alloc::Global;
use std::process::Abort;

/// The lines before the first row of a match to one point.
pub(crate) const ONE_POINT: &str = " 1 point match\n\n Game 1\n A : 0   B : 0\n";

/// The lines before the first row of a match to three points.
pub(crate) const THREE_POINTS: &str = " 3 point match\n\n Game 1\n A : 0   B : 0\n";

/// What is read of a match file, as match number 7.
pub(crate) fn read(rt: &impl Abort, alloc: Global, text: &str) -> Imported {
    import_mat(alloc, 7, Rules::One, text.as_bytes()).expect(rt, "a good match file")
}

/// Rows behind these lines.
pub(crate) fn behind(rt: &impl Abort, alloc: Global, head: &str, rows: &str) -> String {
    format!(in alloc; "{head}{rows}").expect(rt, "memory")
}

/// What is read of these lines and the rows behind them.
pub(crate) fn read_rows(rt: &impl Abort, alloc: Global, head: &str, rows: &str) -> Imported {
    read(rt, alloc, behind(rt, alloc, head, rows).as_str())
}

/// What is read again of what is written of a record.
pub(crate) fn read_back(rt: &impl Abort, alloc: Global, record: &Record) -> Imported {
    let written = export_mat(alloc, record).expect(rt, "memory");
    read(rt, alloc, text_of(&written))
}

/// A record has this transcript.
pub(crate) fn check_transcript(rt: &impl Abort, alloc: Global, record: &Record, wanted: &str) {
    let written = written(rt, alloc, record);
    check_told(rt, wanted, text_of(&written), wanted);
}

/// What is read of rows of a match to one point has this transcript.
pub(crate) fn check_one_point(rt: &impl Abort, alloc: Global, rows: &str, transcript: &str) {
    let imported = read_rows(rt, alloc, ONE_POINT, rows);
    check_transcript(rt, alloc, &imported.record, transcript);
}

/// Entries stand in these lines.
pub(crate) fn check_lines(rt: &impl Abort, imported: &Imported, wanted: &[u32]) {
    let lines = imported.lines.as_slice();
    assert!(rt; lines == wanted, "the lines are {lines:?}");
}

/// Whether two records have the same entries.
pub(crate) fn is_same(read: &Record, wanted: &Record) -> bool {
    for number in 1..=wanted.len() {
        if read.entry(number) != wanted.entry(number) {
            return false;
        }
    }
    read.len() == wanted.len()
}
