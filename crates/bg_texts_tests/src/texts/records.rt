//! The match of these tests, as a text and as a record, its picture, and a record that is full.
use crate::checks::check_row;
use crate::records::{is_pushed, push_lines, written};
use bg_board::Die;
use bg_match::{Entry, Level, MOST_ENTRIES, Record, Rules};
use std::alloc::Global;
use std::process::Abort;

pub(crate) const MATCH: &str = "length 1\nopen 3 1\nX move 8-5 6-5\n";

/// The picture of MATCH, and its verdict.
pub(crate) const TEXT_OF_MATCH: &str = "\
length 1 game 1 score 0-0 cube 1 middle crawford
  13  14  15  16  17  18  19  20  21  22  23  24
  X5   .   .   .  O3   .  O5   .   .   .   .  X2
  O5   .   .   .  X2   .  X4  X2   .   .   .  O2
  12  11  10   9   8   7   6   5   4   3   2   1
bar X 0 O 0 off X 0 O 0
O to roll
ok 2
";

/// The record of MATCH, also where memory for an entry is refused once.
pub(crate) fn record(rt: &impl Abort, alloc: Global) -> Record {
    let mut record = Record::new(alloc, 1, 1, Rules::One).expect(rt, "a record");
    push_lines(rt, &mut record, "open 3 1\nX move 8-5 6-5\n");
    record
}

pub(crate) const MATCH_7: &str =
    "match 7 of length 1 by the first rules, with 2 entries and their transcript";

/// Whether a record is that of MATCH, as match number 7.
pub(crate) fn is_match(rt: &impl Abort, alloc: Global, read: &Record) -> bool {
    (read.id(), read.len(), read.length()) == (7, 2, 1)
        && read.rules() == Rules::One
        && written(rt, alloc, read).as_slice() == MATCH.as_bytes()
}

/// Whether an entry and its answer are appended again and again, and then that entry.
fn are_pushed(record: &mut Record, offer: &Entry, answer: &Entry) -> bool {
    for _ in 0..499_999 {
        if !is_pushed(record, offer) || !is_pushed(record, answer) {
            return false;
        }
    }
    is_pushed(record, offer)
}

/// Whether a record is filled: with an opening, offers and their replies, and an offer.
fn is_filled(record: &mut Record) -> bool {
    let offer = Entry::Resigned(Level::Backgammon);
    is_pushed(record, &Entry::Opening(Die::Three, Die::One))
        && are_pushed(record, &offer, &Entry::Rejected)
        && record.len() == MOST_ENTRIES
}

/// A record that is full.
pub(crate) fn full_record(rt: &impl Abort, alloc: Global, rules: Rules) -> Record {
    let mut record = Record::new(alloc, 1, 99, rules).expect(rt, "a record");
    check_row(rt, "a full record", is_filled(&mut record));
    record
}
