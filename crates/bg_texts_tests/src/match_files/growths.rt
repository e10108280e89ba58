//! Refused growths.
use super::records::{check_lines, is_same};
use crate::checks::check_last;
use bg_mat::{ImportFault, Imported, export_mat, import_mat};
use bg_match::{Record, Rules};
use std::alloc::{AllocError, Global};
use std::process::Abort;

const MATCH: &[u8] = b" 1 point match\n Game 1\n X : 0 O : 0\n  1) 64: 24/14\n      Wins 1 point\n";

/// What is read of a match file, also where memory is refused once.
fn read(rt: &impl Abort, alloc: Global, text: &[u8]) -> Imported {
    match import_mat(alloc, 1, Rules::One, text) {
        Err(ImportFault::Memory) => import_mat(alloc, 1, Rules::One, text),
        read => read,
    }
    .expect(rt, "a good match file")
}

/// Where memory is refused the same call then succeeds. No run of the tests refuses any, but
/// `tools/checks/refuse_growths` refuses each growth in turn.
#[test]
fn refused_growths_of_imports(rt: HostRuntime) {
    let imported = read(&rt, rt.alloc(), MATCH);
    check_lines(&rt, &imported, &[4, 4, 5, 5]);
    check_last(&rt, rt.alloc(), "4 entries", imported.record.len() == 4);
}

/// What is written of a record, also where memory is refused once.
fn export(rt: &impl Abort, alloc: Global, record: &Record) -> Vec<u8> {
    match export_mat(alloc, record) {
        Err(AllocError) => export_mat(alloc, record),
        written => written,
    }
    .expect(rt, "memory")
}

/// Whether what is written of a record is read back.
fn is_read_back(rt: &impl Abort, alloc: Global, record: &Record) -> bool {
    let again = read(rt, alloc, &export(rt, alloc, record));
    is_same(&again.record, record)
}

/// The same, of exports.
#[test]
fn refused_growths_of_exports(rt: HostRuntime) {
    let imported = read(&rt, rt.alloc(), MATCH);
    let holds = is_read_back(&rt, rt.alloc(), &imported.record);
    check_last(&rt, rt.alloc(), "read back", holds);
}
