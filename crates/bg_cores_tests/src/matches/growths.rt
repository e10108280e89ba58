//! Long records, and refused growths.
use super::lines::entry;
use super::plays::{begun, has_len};
use super::{is_copied, is_refused};
use crate::checks::{check_line, check_row};
use bg_board::{Die, Player};
use bg_match::{
    Entry, EntryFault, ExtendFault, Level, MOST_ENTRIES, Number, Record, Rules, Standing,
};
use std::process::Abort;

fn push(record: &mut Record, entry: &Entry) -> bool {
    record.push(entry.copy()).is_ok()
}

/// Whether an entry and its answer are appended again and again, until there is room for one more,
/// and then that too.
fn push_all(record: &mut Record, offer: &Entry, answer: &Entry) -> bool {
    for _ in 0..499_999 {
        if !push(record, offer) || !push(record, answer) {
            return false;
        }
    }
    push(record, offer)
}

/// Whether a record is filled: after the opening X offers to resign again and again, until there is
/// no room for more.
fn is_filled(record: &mut Record) -> bool {
    push(record, &Entry::Opening(Die::Three, Die::One))
        && push_all(record, &Entry::Resigned(Level::Normal), &Entry::Rejected)
}

/// Whether a copy has all entries and the standing of a full record.
fn is_full_copy(record: &Record, copy: &Record) -> bool {
    for number in 1..=MOST_ENTRIES {
        if !is_copied(record, copy, number) {
            return false;
        }
    }
    has_len(copy, MOST_ENTRIES) && copy.standing() == record.standing()
}

fn is_copied_whole(record: &Record) -> bool {
    match record.copy() {
        Ok(copy) => is_full_copy(record, &copy),
        Err(_) => false,
    }
}

/// Whether a full record takes no entry more, be it pushed or in a list, and still an empty list.
fn takes_no_more(record: &mut Record) -> bool {
    is_refused(record, &Entry::Rejected, EntryFault::RecordFull)
        && record.extend(&[Entry::Rejected]) == Err(ExtendFault::Illegal(MOST_ENTRIES + 1))
        && record.extend(&[]) == Ok(())
}

fn check_full(rt: &impl Abort, record: &mut Record) {
    check_row(rt, "filled", is_filled(record));
    check_row(rt, "full", has_len(record, MOST_ENTRIES));
    check_row(rt, "takes no more", takes_no_more(record));
    check_row(rt, "copied", is_copied_whole(record));
}

#[test]
fn longest_record(rt: HostRuntime) {
    check_full(&rt, &mut begun(&rt, 1, Rules::One));
}

/// Where a record stands, and who made the entry of this number.
fn state_at(record: &Record, number: Number) -> (Standing, Option<Player>) {
    (record.standing(), record.by(number))
}

/// Whether a record of so many entries is as it was.
fn is_kept(record: &Record, len: Number, before: &(Standing, Option<Player>)) -> bool {
    has_len(record, len) && state_at(record, len) == *before
}

/// Whether an entry is appended to a record of so many, again where memory is refused: then nothing
/// has changed.
fn is_pushed(record: &mut Record, entry: &Entry, pushed: Number) -> bool {
    let before = state_at(record, pushed);
    push(record, entry) || is_kept(record, pushed, &before) && push(record, entry)
}

/// Appends the entry of a line to a record of so many.
fn push_line(rt: &impl Abort, record: &mut Record, line: &str, pushed: Number) {
    let is_pushed = is_pushed(record, &entry(rt, line), pushed);
    check_line(rt, "pushed", line, is_pushed);
    check_line(
        rt,
        "counted",
        line,
        has_len(record, pushed.saturating_add(1)),
    );
}

/// Appends twenty entries.
fn grow(rt: &impl Abort, record: &mut Record) {
    push_line(rt, record, "open 3 1", 0);
    for pushed in 1..20 {
        let line = if pushed % 2 == 1 {
            "resign normal"
        } else {
            "reject"
        };
        push_line(rt, record, line, pushed);
    }
}

fn is_offer(record: &Record, number: Number) -> bool {
    record.entry(number) == Some(&Entry::Resigned(Level::Normal))
}

/// Whether room is made in a record of twenty entries, again where memory is refused: then nothing
/// has changed.
fn is_reserved(record: &mut Record) -> bool {
    let before = state_at(record, 20);
    if record.reserve(100).is_ok() {
        return true;
    }
    is_kept(record, 20, &before) && is_offer(record, 20) && record.reserve(100).is_ok()
}

/// Whether a list is appended to a record of twenty entries, again where memory is refused: then
/// nothing has changed.
fn is_extended(record: &mut Record, list: &[Entry]) -> bool {
    let before = state_at(record, 20);
    let is_extended = match record.extend(list) {
        Ok(()) => true,
        Err(why) => {
            why == ExtendFault::Memory
                && is_kept(record, 20, &before)
                && record.extend(list).is_ok()
        }
    };
    is_extended && has_len(record, 22)
}

/// A copy of a record, made again where memory is refused.
fn copied(rt: &impl Abort, record: &Record) -> Record {
    match record.copy() {
        Ok(copy) => copy,
        Err(_) => record.copy().expect(rt, "memory"),
    }
}

/// Whether a copy of a record of twenty entries is as it is, and is extended.
fn is_good_copy(record: &Record, copy: &mut Record) -> bool {
    let list = [Entry::Rejected, Entry::Resigned(Level::Gammon)];
    is_kept(copy, 20, &state_at(record, 20)) && is_extended(copy, &list)
}

fn has_good_copy(rt: &impl Abort, record: &Record) -> bool {
    is_good_copy(record, &mut copied(rt, record))
}

fn check_growths(rt: &impl Abort, record: &mut Record) {
    grow(rt, record);
    check_row(rt, "reserved", is_reserved(record));
    check_row(rt, "copied", has_good_copy(rt, record));
}

/// Where memory is refused nothing has changed, and the same call then succeeds. No run of the
/// tests refuses any, but `tools/checks/refuse_growths` refuses each growth in turn.
#[test]
fn refused_growths(rt: HostRuntime) {
    check_growths(&rt, &mut begun(&rt, 1, Rules::One));
}
