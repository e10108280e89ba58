//! The transcript of a record.
ghost use Rattle.std.specs.Prelude.{◌≡◌, ◌≤◌, ◌++◌, length, IfOk, OnOk};
ghost use Rattle.bg_match.specs.Match.{IsLegalRecord};
ghost use Rattle.bg_text.specs.Boards.BoardText.{line_text};
ghost use Rattle.bg_text.specs.Judge.Reading.{AddsLineOf};
ghost use Rattle.bg_text.specs.Boards.Transcript.{IsTranscript, length_line};

use crate::entries::writing::put_entry;
use crate::printing::put_text;
use crate::terms_texts::put_terms;
use arrayvec::ArrayString;
use bg_match::{Number, Record};
use std::alloc::{AllocError, Global};

/// Returns the transcript of a record: its length line, and a line for each entry (docs/FORMATS.md,
/// "Transcripts").
///
/// # Errors
/// AllocError where memory runs out.
pub fn transcript_text(alloc: Global, log: &Record) -> Result<Vec<u8>, AllocError>
    ensures { IfOk result (λ text. IsTranscript log.now.terms log.now.entries text.items) }
{
    let mut text = Vec::new(alloc);
    put_length(&mut text, log)?;
    for written in 0..log.len() {
        put_line(&mut text, log, written + 1)?;
    }
    Ok(text)
}

/// Appends the length line.
fn put_length(out: &mut Vec<u8>, log: &Record) -> Result<(), AllocError>
    ensures { OnOk result (out.new.items ≡ out.old.items ++ line_text (length_line log.now.terms)) }
{
    put_terms(out, log.length(), log.rules())?;
    put_text(out, "\n")
}

/// Appends the line of an entry.
fn put_line(out: &mut Vec<u8>, log: &Record, number: Number) -> Result<(), AllocError>
    requires first { 1 ≤ number }
    requires last { number ≤ length log.now.entries }
    requires legal { IsLegalRecord log.now.terms log.now.entries }
    ensures { OnOk result (AddsLineOf log.now number out.old.items out.new.items) }
{
    let entry = log.entry(number).unwrap();
    let mut line = ArrayString::new();
    put_entry(&mut line, log.by(number), entry);
    line.push_str("\n");
    put_text(out, line.as_str())
}
