//! The report on a file that was judged.
ghost use Rattle.std.specs.Prelude.{◌≡◌, ◌↔◌, Some, IsTrue, IfOk};
ghost use Rattle.bg_text.specs.Judge.Transcripts.{transcript_fault_words};
ghost use Rattle.bg_mat.specs.FaultWords.{import_fault_words};
ghost use Rattle.bg_reports.specs.Check.{IsCheckText, IsImportFaultText, IsMatchFileText, IsMatchFileVerdict};
ghost use Rattle.bg_reports.specs.Check.{ImportFaultsAreSaid, TranscriptFaultsAreSaid};
ghost use Rattle.bg_reports.specs.Check.{IsTranscriptFaultText, IsTranscriptText, IsTranscriptVerdict};
ghost use Rattle.bg_reports.specs.Check.{IsReadAsMatchFile, is_named_match_file as named_match_file};
ghost use Rattle.bg_reports.specs.Check.{import_verdict, transcript_verdict};

pub(crate) mod lines;
mod results;
pub(crate) mod tallies;

use crate::checking::lines::said;
use crate::checking::results::words_of_match;
use bg_mat::{ImportFault, import_mat, is_match_file};
use bg_match::Rules;
use bg_text::{TranscriptFault, Verdict, read_transcript};
use std::alloc::{AllocError, Global};

/// The number of a match that is checked, which no file gives.
const NO_NUMBER: u64 = 0;

/// Returns the report on a file with this name, and its verdict. The report can't break a terminal,
/// and fits a screen of this number of columns, if there is one (docs/FORMATS.md,
/// "Checking files"). It has the verdict, and the line that is refused. A match file of another
/// program is told from a transcript by its contents, or else by the end of its name.
///
/// # Errors
/// `AllocError` where memory runs out.
pub fn check_text(
    alloc: Global,
    name: &str,
    bytes: &[u8],
    columns: Option<usize>,
) -> Result<(Vec<u8>, Verdict), AllocError>
    ensures { IfOk result (λ checked. IsCheckText name.now bytes.now columns checked.0.items checked.1) }
{
    if is_read_as_match_file(name, bytes) {
        said_of_match_file(alloc, name, bytes, columns)
    } else {
        said_of_transcript(alloc, name, bytes, columns)
    }
}

/// Returns whether a file with this name and these bytes is read as a match file of another
/// program. It is one where its first line that tells something is the length of a match. Where no
/// file begins so, the name of one that doesn't begin as a transcript decides.
pub fn is_read_as_match_file(name: &str, bytes: &[u8]) -> bool
    ensures { IsTrue result ↔ IsReadAsMatchFile name.now bytes.now }
{
    is_match_file(bytes) || is_named_match_file(name, bytes)
}

/// Returns whether a name is that of a match file, and the file doesn't begin as a transcript.
fn is_named_match_file(name: &str, bytes: &[u8]) -> bool
    ensures { result ≡ named_match_file name.now bytes.now }
{
    name.as_bytes().ends_with(b".mat") && !bytes.starts_with(b"length ")
}

/// Returns the report on a transcript, and its verdict.
fn said_of_transcript(
    alloc: Global,
    name: &str,
    bytes: &[u8],
    columns: Option<usize>,
) -> Result<(Vec<u8>, Verdict), AllocError>
    ensures { IfOk result (λ checked. IsTranscriptText name.now bytes.now columns checked.0.items checked.1) }
{
    let (words, verdict) = verdict_on_transcript(alloc, bytes)?;
    said(alloc, name, &words, bytes, verdict, columns)
}

/// Returns the verdict on a transcript, in words and as a value.
fn verdict_on_transcript(alloc: Global, bytes: &[u8]) -> Result<(Vec<u8>, Verdict), AllocError>
    ensures { IfOk result (λ told. IsTranscriptVerdict bytes.now told.0.items told.1) }
{
    match read_transcript(alloc, NO_NUMBER, bytes) {
        Ok(record) => {
            let words = words_of_match(alloc, &record, false)?;
            Ok((words, Verdict::Fine(record.len())))
        }
        Err(fault) => verdict_of_transcript_fault(alloc, fault),
    }
}

/// Returns the report on a match file of another program, and its verdict.
fn said_of_match_file(
    alloc: Global,
    name: &str,
    bytes: &[u8],
    columns: Option<usize>,
) -> Result<(Vec<u8>, Verdict), AllocError>
    ensures { IfOk result (λ checked. IsMatchFileText name.now bytes.now columns checked.0.items checked.1) }
{
    let (words, verdict) = verdict_on_match_file(alloc, bytes)?;
    said(alloc, name, &words, bytes, verdict, columns)
}

/// Returns the verdict on a match file, in words and as a value. The file is read under the first
/// rules, as no file names its own.
fn verdict_on_match_file(alloc: Global, bytes: &[u8]) -> Result<(Vec<u8>, Verdict), AllocError>
    ensures { IfOk result (λ told. IsMatchFileVerdict bytes.now told.0.items told.1) }
{
    match import_mat(alloc, NO_NUMBER, Rules::One, bytes) {
        Ok(imported) => {
            let words = words_of_match(alloc, &imported.record, imported.within_game)?;
            Ok((words, Verdict::Fine(imported.record.len())))
        }
        Err(fault) => verdict_of_import_fault(alloc, fault),
    }
}

/// Returns the report on a match file with this name and these bytes, which gives no record because
/// of this fault, and its verdict. It is what [`check_text`] gives where that is the fault under
/// the first rules.
///
/// # Errors
/// `AllocError` where memory runs out, also where that is the fault.
pub fn said_of_import_fault(
    alloc: Global,
    name: &str,
    bytes: &[u8],
    fault: ImportFault,
    columns: Option<usize>,
) -> Result<(Vec<u8>, Verdict), AllocError>
    ensures { IfOk result (λ told. IsImportFaultText name.now bytes.now fault columns told.0.items told.1) }
{
    let (words, verdict) = verdict_of_import_fault(alloc, fault)?;
    said(alloc, name, &words, bytes, verdict, columns)
}

/// Returns the report on a transcript with this name and these bytes, which gives no record because
/// of this fault, and its verdict. It is what [`check_text`] gives where that is the fault.
///
/// # Errors
/// `AllocError` where memory runs out, also where that is the fault.
pub fn said_of_transcript_fault(
    alloc: Global,
    name: &str,
    bytes: &[u8],
    fault: TranscriptFault,
    columns: Option<usize>,
) -> Result<(Vec<u8>, Verdict), AllocError>
    ensures { IfOk result (λ told. IsTranscriptFaultText name.now bytes.now fault columns told.0.items told.1) }
{
    let (words, verdict) = verdict_of_transcript_fault(alloc, fault)?;
    said(alloc, name, &words, bytes, verdict, columns)
}

/// States that the report by the fault for which a transcript is refused is one on the transcript.
pub fn transcript_faults_are_said()
    ensures { TranscriptFaultsAreSaid }
{}

/// States that the report by the fault for which a match file is refused is one on the match file.
pub fn import_faults_are_said()
    ensures { ImportFaultsAreSaid }
{}

/// Returns the verdict on a transcript that gives no record because of this fault, in words and as
/// a value.
fn verdict_of_transcript_fault(
    alloc: Global,
    fault: TranscriptFault,
) -> Result<(Vec<u8>, Verdict), AllocError>
    ensures { IfOk result (λ told. (told.0.items ≡ transcript_fault_words fault)
        × (transcript_verdict fault ≡ Some told.1)) }
{
    let verdict = match fault {
        TranscriptFault::Refused { line, .. } => Verdict::Refused(line),
        TranscriptFault::TooLong => Verdict::TooLong,
        TranscriptFault::Memory => return Err(AllocError),
    };
    let words = format!(in alloc; "{fault}")?;
    Ok((words.into_bytes(), verdict))
}

/// Returns the verdict on a match file that gives no record because of this fault, in words and as
/// a value.
fn verdict_of_import_fault(
    alloc: Global,
    fault: ImportFault,
) -> Result<(Vec<u8>, Verdict), AllocError>
    ensures { IfOk result (λ told. (told.0.items ≡ import_fault_words fault)
        × (import_verdict fault ≡ Some told.1)) }
{
    let verdict = match fault {
        ImportFault::Refused { line, .. } => Verdict::Refused(line),
        ImportFault::TooLong => Verdict::TooLong,
        ImportFault::Memory => return Err(AllocError),
    };
    let words = format!(in alloc; "{fault}")?;
    Ok((words.into_bytes(), verdict))
}
