//! What two slots restore: worked slots, torn texts, and which of two counts.
use crate::bytes::saves::OLD_REFEREE_SAVE;
use crate::checks::{check_number, check_row};
use bg_match::{Number, Rules};
use bg_wire::{RestoreRefusal, restore};
use std::alloc::Global;
use std::process::Abort;

/// The referee's save 3 of match 1, of length 1, which holds the opening 3 1.
const THIRD: [u8; 27] = [
    0x42, 0x47, 0x53, 0x32, 0, 0, 0, 0, 0, 0, 0, 0, 0x01, 0x01, 0x01, 0, 0, 0, 0x03, 0, 0, 0, 0,
    0x01, 0x01, 0x03, 0x01,
];

/// Its save 4, with the turn 8-5 6-5 after it.
const FOURTH: [u8; 33] = [
    0x42, 0x47, 0x53, 0x32, 0, 0, 0, 0, 0, 0, 0, 0, 0x01, 0x01, 0x01, 0, 0, 0, 0x04, 0, 0, 0, 0,
    0x02, 0x01, 0x03, 0x01, 0x06, 0x02, 0x08, 0x05, 0x06, 0x05,
];

/// A save 3 that holds both entries.
const OTHER_THIRD: [u8; 33] = [
    0x42, 0x47, 0x53, 0x32, 0, 0, 0, 0, 0, 0, 0, 0, 0x01, 0x01, 0x01, 0, 0, 0, 0x03, 0, 0, 0, 0,
    0x02, 0x01, 0x03, 0x01, 0x06, 0x02, 0x08, 0x05, 0x06, 0x05,
];

/// Its save 2 in the first layout, which holds both entries too.
const OLD_SECOND: [u8; 30] = OLD_REFEREE_SAVE;

/// Save 3 without its last byte.
const TORN_THIRD: [u8; 26] = [
    0x42, 0x47, 0x53, 0x32, 0, 0, 0, 0, 0, 0, 0, 0, 0x01, 0x01, 0x01, 0, 0, 0, 0x03, 0, 0, 0, 0,
    0x01, 0x01, 0x03,
];

/// Save 4 without its last byte.
const TORN_FOURTH: [u8; 32] = [
    0x42, 0x47, 0x53, 0x32, 0, 0, 0, 0, 0, 0, 0, 0, 0x01, 0x01, 0x01, 0, 0, 0, 0x04, 0, 0, 0, 0,
    0x02, 0x01, 0x03, 0x01, 0x06, 0x02, 0x08, 0x05, 0x06,
];

/// Save 4 of match 2.
const OF_MATCH_2: [u8; 33] = [
    0x42, 0x47, 0x53, 0x32, 0, 0, 0, 0, 0, 0, 0, 0, 0x02, 0x01, 0x01, 0, 0, 0, 0x04, 0, 0, 0, 0,
    0x02, 0x01, 0x03, 0x01, 0x06, 0x02, 0x08, 0x05, 0x06, 0x05,
];

/// The save of the first layout as save 3, and as save 5.
const OLD_THIRD: [u8; 30] = [
    0x42, 0x47, 0x53, 0x31, 0, 0, 0, 0, 0, 0, 0, 0, 0x01, 0x01, 0, 0, 0, 0x03, 0, 0, 0x02, 0x01,
    0x03, 0x01, 0x06, 0x02, 0x08, 0x05, 0x06, 0x05,
];

const OLD_FIFTH: [u8; 30] = [
    0x42, 0x47, 0x53, 0x31, 0, 0, 0, 0, 0, 0, 0, 0, 0x01, 0x01, 0, 0, 0, 0x05, 0, 0, 0x02, 0x01,
    0x03, 0x01, 0x06, 0x02, 0x08, 0x05, 0x06, 0x05,
];

/// What the referee of match 1 restores of two slots: the numbers of the save and of its entries, if
/// there is one.
type Restored = Result<Option<(u32, Number)>, RestoreRefusal>;

fn restored(alloc: Global, slot0: &[u8], slot1: &[u8]) -> Restored {
    match restore(alloc, slot0, slot1, 0, 1, 1, Rules::One)? {
        Some(saved) => Ok(Some((saved.save, saved.log.len()))),
        None => Ok(None),
    }
}

/// Every cut of the newer text, the empty one included, leaves the older one; the whole of it
/// counts.
#[test]
fn cut_texts(rt: HostRuntime) {
    for cut in 0..FOURTH.len() {
        let first = restored(rt.alloc(), &FOURTH[..cut], &THIRD);
        check_number(&rt, "slot 0, cut at", cut, first == Ok(Some((3, 1))));
        let second = restored(rt.alloc(), &THIRD, &FOURTH[..cut]);
        check_number(&rt, "slot 1, cut at", cut, second == Ok(Some((3, 1))));
    }
    check_rows(&rt, rt.alloc(), &WHOLE);
}

/// Two slots, and what is restored of them.
type Row = (&'static [u8], &'static [u8], Restored);

fn check_rows(rt: &impl Abort, alloc: Global, rows: &[Row]) {
    for (i, (slot0, slot1, expected)) in rows.iter().enumerate() {
        check_number(rt, "row", i, restored(alloc, slot0, slot1) == *expected);
    }
}

static WHOLE: [Row; 2] = [
    (&FOURTH, &THIRD, Ok(Some((4, 2)))),
    (&THIRD, &FOURTH, Ok(Some((4, 2)))),
];

/// Where neither slot has a saved text, slot 0 decides: nothing was ever saved, or what was is
/// damaged.
static NO_TEXTS: [Row; 9] = [
    (b"", b"", Ok(None)),
    (b"", &TORN_THIRD, Ok(None)),
    (b"", b"*", Ok(None)),
    (b"*", b"*", Err(RestoreRefusal::Damaged)),
    (b"*", b"", Err(RestoreRefusal::Damaged)),
    // The first byte of a saved text, alone.
    (b"B", b"B", Err(RestoreRefusal::Damaged)),
    (b"B", b"", Err(RestoreRefusal::Damaged)),
    (b"", b"B", Ok(None)),
    (&TORN_THIRD, &TORN_FOURTH, Err(RestoreRefusal::Damaged)),
];

#[test]
fn no_texts(rt: HostRuntime) {
    check_rows(&rt, rt.alloc(), &NO_TEXTS);
}

/// Of two saves with one number the one in slot 0 counts, and the number counts before the length
/// of the text.
static EQUAL_SAVES: [Row; 4] = [
    (&THIRD, &OTHER_THIRD, Ok(Some((3, 1)))),
    (&OTHER_THIRD, &THIRD, Ok(Some((3, 2)))),
    (b"", &THIRD, Ok(Some((3, 1)))),
    (&THIRD, b"", Ok(Some((3, 1)))),
];

#[test]
fn equal_saves(rt: HostRuntime) {
    check_rows(&rt, rt.alloc(), &EQUAL_SAVES);
}

/// A text of the first layout is restored, and the number of its save decides against one of the
/// second.
static OLD_TEXTS: [Row; 7] = [
    (&OLD_SECOND, b"", Ok(Some((2, 2)))),
    (&OLD_SECOND, &THIRD, Ok(Some((3, 1)))),
    (&THIRD, &OLD_SECOND, Ok(Some((3, 1)))),
    (&OLD_FIFTH, &THIRD, Ok(Some((5, 2)))),
    (&THIRD, &OLD_FIFTH, Ok(Some((5, 2)))),
    // Of equal numbers the one in slot 0 counts, in whichever layout.
    (&OLD_THIRD, &THIRD, Ok(Some((3, 2)))),
    (&THIRD, &OLD_THIRD, Ok(Some((3, 1)))),
];

#[test]
fn old_texts(rt: HostRuntime) {
    check_rows(&rt, rt.alloc(), &OLD_TEXTS);
}

/// Every cut of a text of the first layout leaves the other one.
#[test]
fn cut_old_texts(rt: HostRuntime) {
    for cut in 0..OLD_FIFTH.len() {
        let found = restored(rt.alloc(), &OLD_FIFTH[..cut], &THIRD);
        check_number(&rt, "cut at", cut, found == Ok(Some((3, 1))));
    }
}

/// The refusal of a party of a match, of slots that have save 4 and save 3.
fn refusal(alloc: Global, party: u8, id: u64, length: u8, rules: Rules) -> Option<RestoreRefusal> {
    restore(alloc, &FOURTH, &THIRD, party, id, length, rules).err()
}

/// The text that counts is then compared with the party and its match; the older one does not help.
#[test]
fn other_matches(rt: HostRuntime) {
    let (alloc, wrong) = (rt.alloc(), Some(RestoreRefusal::WrongMatch));
    check_row(
        &rt,
        "its own match",
        refusal(alloc, 0, 1, 1, Rules::One).is_none(),
    );
    check_row(&rt, "party", refusal(alloc, 1, 1, 1, Rules::One) == wrong);
    check_row(&rt, "number", refusal(alloc, 0, 2, 1, Rules::One) == wrong);
    check_row(&rt, "length", refusal(alloc, 0, 1, 3, Rules::One) == wrong);
    check_row(&rt, "rules", refusal(alloc, 0, 1, 1, Rules::Two) == wrong);
    let other = restored(alloc, &OF_MATCH_2, &THIRD);
    check_row(&rt, "match 2", other == Err(RestoreRefusal::WrongMatch));
}

/// Where memory is refused the same call then succeeds. No run of the tests refuses any, but
/// `tools/checks/refuse_growths` refuses each growth in turn.
#[test]
fn refused_growths_of_slots(rt: HostRuntime) {
    let found = match restored(rt.alloc(), &FOURTH, &THIRD) {
        Err(RestoreRefusal::Memory) => restored(rt.alloc(), &FOURTH, &THIRD),
        found => found,
    };
    check_row(&rt, "save 4", found == Ok(Some((4, 2))));
}
