//! The row of a file that was judged, for programs.
ghost use Rattle.std.specs.Prelude.{◌≡◌, ◌++◌, Some, IfOk, OnOk};
ghost use Rattle.bg_reports.specs.Check.{import_verdict, transcript_verdict};
ghost use Rattle.bg_reports.specs.Rows.{AreMatchFileFields, AreTranscriptFields};
ghost use Rattle.bg_reports.specs.Rows.{IsCheckRow, IsMatchFileRow, IsTranscriptRow, kind_row, line_of};
ghost use Rattle.bg_reports.specs.Rows.{import_fault_fields, line_field, refused_fields, too_long_fields, transcript_fault_fields};
ghost use Rattle.bg_text.specs.declared.judging.verdicts.Verdict.TheVariants.{Refused, TooLong};

pub(crate) mod fields;
mod matches;

use crate::checking::is_read_as_match_file;
use crate::checking::lines::{MOST_SHOWN, refused_line};
use crate::escapes::harmless;
use crate::rows::fields::RowForm;
use crate::rows::matches::match_row;
use bg_mat::{ImportFault, import_mat};
use bg_match::Rules;
use bg_text::{TranscriptFault, Verdict, read_transcript};
use std::alloc::{AllocError, Global};

/// The number of a match that is checked, which no file gives.
const NO_NUMBER: u64 = 0;

/// Returns the fields of a file with this name and these bytes from `file` to `points`, and its
/// verdict (docs/FORMATS.md, "Checking files"). Rows with tabs have the name as it is, so it may
/// have neither tab nor line feed there.
///
/// # Errors
/// `AllocError` where memory runs out.
pub fn check_row(
    alloc: Global,
    form: RowForm,
    name: &str,
    bytes: &[u8],
) -> Result<(Vec<u8>, Verdict), AllocError>
    ensures { IfOk result (λ told. IsCheckRow form name.now bytes.now told.0.items told.1) }
{
    if is_read_as_match_file(name, bytes) {
        row_of_match_file(alloc, form, name, bytes)
    } else {
        row_of_transcript(alloc, form, name, bytes)
    }
}

/// Returns the row of a transcript, and its verdict.
fn row_of_transcript(
    alloc: Global,
    form: RowForm,
    name: &str,
    bytes: &[u8],
) -> Result<(Vec<u8>, Verdict), AllocError>
    ensures { IfOk result (λ told. IsTranscriptRow form name.now bytes.now told.0.items told.1) }
{
    let (fields, verdict) = transcript_fields(alloc, form, bytes)?;
    let row = begun(alloc, form, name, "transcript", &fields)?;
    Ok((row, verdict))
}

/// Returns what is told of a transcript, and its verdict.
fn transcript_fields(
    alloc: Global,
    form: RowForm,
    bytes: &[u8],
) -> Result<(Vec<u8>, Verdict), AllocError>
    ensures { IfOk result (λ told. AreTranscriptFields form bytes.now told.0.items told.1) }
{
    match read_transcript(alloc, NO_NUMBER, bytes) {
        Ok(record) => {
            let fields = match_row(alloc, form, &record, false)?;
            Ok((fields, Verdict::Fine(record.len())))
        }
        Err(fault) => transcript_fault_row(alloc, form, fault, bytes),
    }
}

/// Returns what is told of a transcript with this fault, and its verdict.
fn transcript_fault_row(
    alloc: Global,
    form: RowForm,
    fault: TranscriptFault,
    bytes: &[u8],
) -> Result<(Vec<u8>, Verdict), AllocError>
    ensures { IfOk result (λ told. (told.0.items ≡ transcript_fault_fields form fault bytes.now)
        × (transcript_verdict fault ≡ Some told.1)) }
{
    match fault {
        TranscriptFault::Refused { line, why } => {
            refused_row(alloc, form, line, why.reason().as_str(), bytes)
        }
        TranscriptFault::TooLong => too_long_row(alloc, form),
        TranscriptFault::Memory => Err(AllocError),
    }
}

/// Returns the row of a match file of another program, and its verdict.
fn row_of_match_file(
    alloc: Global,
    form: RowForm,
    name: &str,
    bytes: &[u8],
) -> Result<(Vec<u8>, Verdict), AllocError>
    ensures { IfOk result (λ told. IsMatchFileRow form name.now bytes.now told.0.items told.1) }
{
    let (fields, verdict) = match_file_fields(alloc, form, bytes)?;
    let row = begun(alloc, form, name, "match file", &fields)?;
    Ok((row, verdict))
}

/// Returns what is told of a match file, and its verdict.
fn match_file_fields(
    alloc: Global,
    form: RowForm,
    bytes: &[u8],
) -> Result<(Vec<u8>, Verdict), AllocError>
    ensures { IfOk result (λ told. AreMatchFileFields form bytes.now told.0.items told.1) }
{
    match import_mat(alloc, NO_NUMBER, Rules::One, bytes) {
        Ok(imported) => {
            let fields = match_row(alloc, form, &imported.record, imported.within_game)?;
            Ok((fields, Verdict::Fine(imported.record.len())))
        }
        Err(fault) => import_fault_row(alloc, form, fault, bytes),
    }
}

/// Returns what is told of a match file with this fault, and its verdict.
fn import_fault_row(
    alloc: Global,
    form: RowForm,
    fault: ImportFault,
    bytes: &[u8],
) -> Result<(Vec<u8>, Verdict), AllocError>
    ensures { IfOk result (λ told. (told.0.items ≡ import_fault_fields form fault bytes.now)
        × (import_verdict fault ≡ Some told.1)) }
{
    match fault {
        ImportFault::Refused { line, why } => {
            let reason = format!(in alloc; "{why}")?;
            refused_row(alloc, form, line, reason.as_str(), bytes)
        }
        ImportFault::TooLong => too_long_row(alloc, form),
        ImportFault::Memory => Err(AllocError),
    }
}

/// Returns a row with the name of the file, its kind, and these fields.
fn begun(
    alloc: Global,
    form: RowForm,
    name: &str,
    kind: &str,
    fields: &[u8],
) -> Result<Vec<u8>, AllocError>
    ensures { IfOk result (λ row. row.items ≡ kind_row form name.now kind.now fields.now) }
{
    let mut row = Vec::new(alloc);
    form.put_file(alloc, &mut row, name)?;
    form.put_words(alloc, &mut row, "kind", kind)?;
    row.extend_from_slice(fields)?;
    Ok(row)
}

/// Returns what is told of a file whose line of this number, from 1, is refused for this reason:
/// both, and the text of the line. Returns the verdict too.
fn refused_row(
    alloc: Global,
    form: RowForm,
    number: u32,
    reason: &str,
    bytes: &[u8],
) -> Result<(Vec<u8>, Verdict), AllocError>
    ensures { IfOk result (λ told. (told.0.items ≡ refused_fields form number reason.now (line_of bytes.now number))
        × (told.1 ≡ Refused number)) }
{
    let verdict = Verdict::Refused(number);
    let mut row = Vec::new(alloc);
    form.put_words(alloc, &mut row, "verdict", "refused")?;
    form.put_count(&mut row, "line", number.into())?;
    form.put_words(alloc, &mut row, "reason", reason)?;
    put_line(alloc, form, &mut row, refused_line(bytes, verdict))?;
    form.put_unknown(&mut row, "\t\t\t\t\t\t\t\t\t\t\t\t")?;
    Ok((row, verdict))
}

/// Appends the text of a line that is refused.
fn put_line(alloc: Global, form: RowForm, out: &mut Vec<u8>, line: &[u8]) -> Result<(), AllocError>
    ensures { OnOk result (out.new.items ≡ out.old.items ++ line_field form line.now) }
{
    let shown = harmless(alloc, line, MOST_SHOWN)?;
    // It is ASCII, and so always UTF-8.
    let Ok(text) = str::from_utf8(&shown) else {
        return Err(AllocError);
    };
    form.put_words(alloc, out, "text", text)
}

/// Returns what is told of a file that is too long, and the verdict.
fn too_long_row(alloc: Global, form: RowForm) -> Result<(Vec<u8>, Verdict), AllocError>
    ensures { IfOk result (λ told. (told.0.items ≡ too_long_fields form) × (told.1 ≡ TooLong)) }
{
    let mut row = Vec::new(alloc);
    form.put_words(alloc, &mut row, "verdict", "refused")?;
    form.put_unknown(&mut row, "\t")?;
    form.put_words(alloc, &mut row, "reason", "input too long")?;
    form.put_unknown(&mut row, "\t\t\t\t\t\t\t\t\t\t\t\t\t")?;
    Ok((row, Verdict::TooLong))
}
