//! What is shown of the saved files of a folder.
use super::saved_files::{
    AFTER_THE_MOVE, AFTER_THE_OPENING, OF_O, OF_X, OPENING, OTHER_LENGTH, OTHER_NUMBER,
    OTHER_OPENING, OTHER_RULES, OTHER_TURN, REFEREE, SEAT, check_shown,
};
use bg_reports::{SlotBytes, folder_text, party_text};
use std::alloc::{AllocError, Global};
use std::process::Abort;

/// The files of a party.
pub(super) fn slots(alloc: Global, zero: &[u8], one: &[u8]) -> Result<SlotBytes, AllocError> {
    Ok(SlotBytes {
        zero: Vec::from_slice(alloc, zero)?,
        one: Vec::from_slice(alloc, one)?,
    })
}

/// A file, as it lies in a folder.
type File = &'static [u8];

/// Files of the referee, of X and of O, two of each, the lines that are shown of them, and the
/// board. Where there is no board none of them loads.
type Row = (&'static [File; 6], &'static str, &'static str);

/// What is shown of the files of a row.
fn shown_of(alloc: Global, files: &[File; 6]) -> Result<(Vec<u8>, bool), AllocError> {
    let referee = slots(alloc, files[0], files[1])?;
    let x = slots(alloc, files[2], files[3])?;
    let o = slots(alloc, files[4], files[5])?;
    folder_text(alloc, &referee, &x, &o)
}

fn check_folders(rt: &impl Abort, alloc: Global, rows: &[Row]) {
    for (files, lines, board) in rows {
        let shown = shown_of(alloc, files);
        check_shown(rt, alloc, shown, lines, board, !board.is_empty());
    }
}

const SEAT_BEHIND_THE_REFEREE: &str = "party-0.0: party 0 match 1 length 1 save 2 entries 2
party-0.1: empty
party-1.0: empty
party-1.1: party 1 match 1 length 1 save 1 entries 1 claim 2
party-2.0: bad magic
party-2.1: empty
party 0: 2 entries
party 1: 1 entries, 1 behind party 0
party 2: no save
";

const REFEREE_BEHIND_A_SEAT: &str = "party-0.0: empty
party-0.1: party 0 match 1 length 1 save 3 entries 1
party-1.0: party 1 match 1 length 1 save 2 entries 2
party-1.1: empty
party-2.0: party 2 match 1 length 1 save 2 entries 2
party-2.1: short
party 0: 1 entries, 1 behind party 1
party 1: 2 entries
party 2: 2 entries
";

/// The newer of the two files of a party counts.
const NEWER_FILES_COUNT: &str = "party-0.0: party 0 match 1 length 1 save 2 entries 2
party-0.1: party 0 match 1 length 1 save 3 entries 1
party-1.0: empty
party-1.1: party 1 match 1 length 1 save 1 entries 1 claim 2
party-2.0: empty
party-2.1: empty
party 0: 1 entries
party 1: 1 entries
party 2: no save
";

const NOTHING_LOADS: &str = "party-0.0: short
party-0.1: empty
party-1.0: empty
party-1.1: empty
party-2.0: bad magic
party-2.1: empty
party 0: no save
party 1: no save
party 2: no save
";

static BEHIND_OTHERS: [Row; 4] = [
    (
        &[&REFEREE, b"", b"", &SEAT, b"BGS0", b""],
        SEAT_BEHIND_THE_REFEREE,
        AFTER_THE_MOVE,
    ),
    (
        &[b"", &OPENING, &OF_X, b"", &OF_O, b"B"],
        REFEREE_BEHIND_A_SEAT,
        AFTER_THE_MOVE,
    ),
    (
        &[&REFEREE, &OPENING, b"", &SEAT, b"", b""],
        NEWER_FILES_COUNT,
        AFTER_THE_OPENING,
    ),
    (&[b"B", b"", b"", b"", b"BGS0", b""], NOTHING_LOADS, ""),
];

#[test]
fn parties_behind_others(rt: HostRuntime) {
    check_folders(&rt, rt.alloc(), &BEHIND_OTHERS);
}

/// A party, its two files in a folder with no others, the lines that are shown of them, the board,
/// and whether one of them loads.
type OneRow = (u8, &'static [File; 2], &'static str, &'static str, bool);

fn check_party(rt: &impl Abort, alloc: Global, row: &OneRow) {
    let (party, files, lines, board, loads) = row;
    let files = slots(alloc, files[0], files[1]).expect(rt, "memory");
    check_shown(
        rt,
        alloc,
        party_text(alloc, *party, &files),
        lines,
        board,
        *loads,
    );
}

static ALONE: [OneRow; 4] = [
    (
        0,
        &[&REFEREE, &OPENING],
        "party-0.0: party 0 match 1 length 1 save 2 entries 2
party-0.1: party 0 match 1 length 1 save 3 entries 1
party 0: 1 entries
",
        AFTER_THE_OPENING,
        true,
    ),
    (
        1,
        &[b"BGS0", &SEAT],
        "party-1.0: bad magic
party-1.1: party 1 match 1 length 1 save 1 entries 1 claim 2
party 1: 1 entries
",
        AFTER_THE_OPENING,
        true,
    ),
    (
        2,
        &[b"", &SEAT],
        "party-2.0: empty
party-2.1: party 1 match 1 length 1 save 1 entries 1 claim 2
party 2: no save
",
        "",
        true,
    ),
    (
        0,
        &[b"", b""],
        "party-0.0: empty
party-0.1: empty
party 0: no save
",
        "",
        false,
    ),
];

#[test]
fn parties_alone(rt: HostRuntime) {
    for row in &ALONE {
        check_party(&rt, rt.alloc(), row);
    }
}

/// Seats whose entries are others than the referee's: the dice of the opening, and the turn behind
/// it.
const ENTRIES_THAT_DIFFER: &str = "party-0.0: party 0 match 1 length 1 save 2 entries 2
party-0.1: empty
party-1.0: party 1 match 1 length 1 save 2 entries 2
party-1.1: empty
party-2.0: empty
party-2.1: party 2 match 1 length 1 save 3 entries 1
party 0: 2 entries
party 1: 2 entries, entry 2 is another than that of party 0
party 2: 1 entries, entry 1 is another than that of party 0
";

/// Another number and other rules are other matches.
const OTHER_NUMBER_AND_RULES: &str = "party-0.0: party 0 match 1 length 1 save 2 entries 2
party-0.1: empty
party-1.0: party 1 match 2 length 1 save 2 entries 2
party-1.1: empty
party-2.0: party 2 match 1 length 1 rules 2 save 2 entries 2
party-2.1: empty
party 0: 2 entries
party 1: 2 entries of another match than party 0
party 2: 2 entries of another match than party 0
";

/// Another length is another match; a save of another party is none of its own.
const OTHER_LENGTH_AND_PARTY: &str = "party-0.0: party 1 match 1 length 1 save 2 entries 2
party-0.1: empty
party-1.0: party 1 match 1 length 3 save 2 entries 2
party-1.1: empty
party-2.0: party 2 match 1 length 1 save 2 entries 2
party-2.1: empty
party 0: no save
party 1: 2 entries
party 2: 2 entries of another match than party 1
";

const BOARD_OF_LENGTH_3: &str = "length 3 game 1 score 0-0 cube 1 middle
  13  14  15  16  17  18  19  20  21  22  23  24
  X5   .   .   .  O3   .  O5   .   .   .   .  X2
  O5   .   .   .  X2   .  X4  X2   .   .   .  O2
  12  11  10   9   8   7   6   5   4   3   2   1
bar X 0 O 0 off X 0 O 0
O to roll
";

/// Another turn and another opening, another number and other rules, and another length.
static DIFFERENT: [Row; 3] = [
    (
        &[&REFEREE, b"", &OTHER_TURN, b"", b"", &OTHER_OPENING],
        ENTRIES_THAT_DIFFER,
        AFTER_THE_MOVE,
    ),
    (
        &[&REFEREE, b"", &OTHER_NUMBER, b"", &OTHER_RULES, b""],
        OTHER_NUMBER_AND_RULES,
        AFTER_THE_MOVE,
    ),
    (
        &[&OF_X, b"", &OTHER_LENGTH, b"", &OF_O, b""],
        OTHER_LENGTH_AND_PARTY,
        BOARD_OF_LENGTH_3,
    ),
];

#[test]
fn saves_that_differ(rt: HostRuntime) {
    check_folders(&rt, rt.alloc(), &DIFFERENT);
}
