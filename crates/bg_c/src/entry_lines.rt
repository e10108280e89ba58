//! The lines of entries.
ghost use Rattle.std.specs.Prelude.{◌≤◌, IfOk, OnOk, length};
ghost use Rattle.bg_match.specs.Match.{IsLegalRecord};
ghost use Rattle.bg_text.specs.Judge.Reading.{AddsLineOf};
ghost use Rattle.bg_c.specs.EntryLines.{HasLines};

use bg_match::{Number, Record};
use bg_text::{entry_text, put_text};
use std::alloc::{AllocError, Global};

/// Adds the line of an entry.
pub(crate) fn put_line(out: &mut Vec<u8>, log: &Record, number: Number) -> Result<(), AllocError>
    requires first { 1 ≤ number }
    requires last { number ≤ length log.now.entries }
    requires legal { IsLegalRecord log.now.terms log.now.entries }
    ensures { OnOk result (AddsLineOf log.now number out.old.items out.new.items) }
{
    let entry = log.entry(number).unwrap();
    put_text(out, entry_text(log.by(number), entry).as_str())?;
    put_text(out, "\n")
}

/// Returns the lines of entries as a transcript has them, at most so many behind those that are
/// skipped.
///
/// # Errors
/// `AllocError` where memory runs out.
pub(crate) fn lines_text(
    alloc: Global,
    log: &Record,
    skipped: Number,
    count: Number,
) -> Result<Vec<u8>, AllocError>
    ensures { IfOk result (λ text. HasLines log.now skipped count text.items) }
{
    let mut text = Vec::new(alloc);
    let lines = log.len().saturating_sub(skipped).min(count);
    for line in 0..lines {
        put_line(&mut text, log, skipped + line + 1)?;
    }
    Ok(text)
}
