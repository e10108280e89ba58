//! Worked matches. The numbers are those of the rules, worked out by hand.
mod applied;
mod extended;
mod games;
mod growths;
pub(crate) mod lines;
mod passes;
mod plays;
mod records;
mod sections;
mod standings;
mod texts;
mod wins;

use bg_match::{Entry, EntryFault, Number, Record};

/// Whether an entry is refused for this reason, as it is checked and as it is pushed.
fn is_refused(record: &mut Record, entry: &Entry, why: EntryFault) -> bool {
    record.check(entry) == Err(why) && record.push(entry.copy()) == Err(why)
}

/// Whether a copy has the same entry of this number, made by the same seat.
fn is_copied(record: &Record, copy: &Record, number: Number) -> bool {
    copy.entry(number) == record.entry(number) && copy.by(number) == record.by(number)
}
