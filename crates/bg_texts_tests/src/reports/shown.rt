//! What is shown of the two saved files of a party.
use super::saved_files::{
    AFTER_THE_MOVE, AFTER_THE_OPENING, BAD_FIELD, BY_SECOND_RULES, ILLEGAL_ENTRY, LONGER, OPENING,
    REFEREE, REFEREE_OF_OLD, SEAT, check_shown,
};
use crate::checks::check_row;
use bg_reports::show_text;
use std::alloc::Global;
use std::process::Abort;

/// Two files, the lines that are shown of them, and the board. Where there is no board none of them
/// loads.
type Row = (&'static [u8], &'static [u8], &'static str, &'static str);

fn check_rows(rt: &impl Abort, alloc: Global, rows: &[Row]) {
    for (zero, one, lines, board) in rows {
        let shown = show_text(alloc, zero, one);
        check_shown(rt, alloc, shown, lines, board, !board.is_empty());
    }
}

static LOADING: [Row; 4] = [
    (
        &REFEREE,
        b"",
        "file 0: party 0 match 1 length 1 save 2 entries 2\nfile 1: short\n",
        AFTER_THE_MOVE,
    ),
    (
        &SEAT,
        b"BGS0",
        "file 0: party 1 match 1 length 1 save 1 entries 1 claim 2\nfile 1: bad magic\n",
        AFTER_THE_OPENING,
    ),
    (
        &REFEREE,
        &OPENING,
        "file 0: party 0 match 1 length 1 save 2 entries 2\n\
        file 1: party 0 match 1 length 1 save 3 entries 1\n",
        AFTER_THE_OPENING,
    ),
    (
        &REFEREE,
        &REFEREE_OF_OLD,
        "file 0: party 0 match 1 length 1 save 2 entries 2\n\
        file 1: party 0 match 1 length 1 save 2 entries 2\n",
        AFTER_THE_MOVE,
    ),
];

#[test]
fn files_that_load(rt: HostRuntime) {
    check_rows(&rt, rt.alloc(), &LOADING);
}

/// An entry and a field that may not be, and files without text.
static NOT_LOADING: [Row; 4] = [
    (b"", b"B", "file 0: short\nfile 1: short\n", ""),
    (b"B", b"B", "file 0: short\nfile 1: short\n", ""),
    (
        &ILLEGAL_ENTRY,
        &BAD_FIELD,
        "file 0: illegal entry 1\nfile 1: bad field at 13\n",
        "",
    ),
    // One of these loads.
    (
        &LONGER,
        &SEAT,
        "file 0: extra bytes\nfile 1: party 1 match 1 length 1 save 1 entries 1 claim 2\n",
        AFTER_THE_OPENING,
    ),
];

#[test]
fn files_that_do_not_load(rt: HostRuntime) {
    check_rows(&rt, rt.alloc(), &NOT_LOADING);
}

const SHOWN: &str =
    "file 0: party 0 match 1 length 1 rules 2 save 2 entries 2\nfile 1: short\nlength 1 rules 2 game 1 ";

/// Whether a file loads, and this is shown of it.
fn is_shown(alloc: Global, file: &[u8]) -> bool {
    match show_text(alloc, file, b"") {
        Ok((text, loads)) => loads && text.starts_with(SHOWN.as_bytes()),
        Err(_) => false,
    }
}

#[test]
fn rules_are_shown(rt: HostRuntime) {
    check_row(&rt, SHOWN, is_shown(rt.alloc(), &BY_SECOND_RULES));
}
