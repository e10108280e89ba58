//! The last entries in the state of a match.
ghost use Rattle.std.specs.Prelude.{◌+◌, ◌≤◌, OnOk, length};
ghost use Rattle.bg_match.specs.Match.{IsLegalRecord};
ghost use Rattle.bg_states.specs.LastLines.{AddsLine, AddsLines};
ghost use Rattle.bg_states.specs.StateTexts.{AddsLast};

use crate::lists::put_comma;
use bg_match::{Number, Record};
use bg_text::{entry_text, put_text};
use std::alloc::AllocError;

/// The largest number of entries that the list `last` has.
const LAST: Number = 12;

/// Adds the lines of the last twelve entries, or of all entries if there are fewer, the oldest
/// first.
pub(crate) fn put_last(out: &mut Vec<u8>, log: &Record) -> Result<(), AllocError>
    ensures { OnOk result (AddsLast log.now out.old.items out.new.items) }
{
    put_text(out, ",\"last\":[")?;
    let count = log.len();
    let told = count.min(LAST);
    put_lines(out, log, count - told + 1, told, true)?;
    put_text(out, "]")?;
    Ok(())
}

/// Adds the lines of `count` entries, starting with the entry of this number, with commas between
/// them.
///
/// `first` says whether the first of these lines is also the first of the list, which no comma
/// precedes.
fn put_lines(
    out: &mut Vec<u8>,
    log: &Record,
    number: Number,
    count: Number,
    first: bool,
) -> Result<(), AllocError>
    requires first { 1 ≤ number }
    requires last { number + count ≤ length log.now.entries + 1 }
    requires legal { IsLegalRecord log.now.terms log.now.entries }
    ensures { OnOk result (AddsLines log.now number count first out.old.items out.new.items) }
{
    if count == 0 {
        return Ok(());
    }
    put_comma(out, first)?;
    put_line(out, log, number)?;
    put_lines(out, log, number + 1, count - 1, false)?;
    Ok(())
}

/// Adds the line of the entry of this number, in quotes.
fn put_line(out: &mut Vec<u8>, log: &Record, number: Number) -> Result<(), AllocError>
    requires first { 1 ≤ number }
    requires last { number ≤ length log.now.entries }
    requires legal { IsLegalRecord log.now.terms log.now.entries }
    ensures { OnOk result (AddsLine log.now number out.old.items out.new.items) }
{
    let entry = log.entry(number).unwrap();
    put_text(out, "\"")?;
    put_text(out, entry_text(log.by(number), entry).as_str())?;
    put_text(out, "\"")?;
    Ok(())
}
