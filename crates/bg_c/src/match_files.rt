//! The calls that read and write match files of other programs.
ghost use Rattle.std.specs.Prelude.{◌≡◌};
ghost use Rattle.bg_mat.specs.Files.{Exports};
ghost use Rattle.bg_c.specs.MatchFiles.{GivesImport, ImportsFile, MakesImport, MakesOfTranscript, verdict_after};
ghost use Rattle.bg_c.specs.Sets.{Writes};
ghost use Rattle.bg_c.specs.Status.{status_code};

use crate::judge::VerdictFields;
use crate::rooms::{give, put};
use crate::statuses::Status;
use crate::terms::rules_numbered;
use crate::transcripts::record;
use bg_mat::{ImportFault, export_mat, import_mat};
use bg_match::{Number, Rules};
use bg_text::{Verdict, transcript_text};
use std::alloc::Global;

/// The number of a match that is imported, which no file gives.
const NO_NUMBER: u64 = 0;

impl From<ImportFault> for Status {
    ghost use Rattle.bg_c.specs.MatchFiles.{import_status};

    ghost from_gives = { λ why status. status ≡ import_status why };

    fn from(why: ImportFault) -> Status {
        match why {
            ImportFault::Refused { .. } | ImportFault::TooLong => Status::Refused,
            ImportFault::Memory => Status::Memory,
        }
    }
}

/// Returns the transcript of the match that a file tells under these rules, and the number of its
/// entries.
fn import(alloc: Global, rules: Rules, file: &[u8]) -> Result<(Vec<u8>, Number), ImportFault>
    ensures { MakesImport rules file.now result }
{
    let imported = import_mat(alloc, NO_NUMBER, rules, file)?;
    match transcript_text(alloc, &imported.record) {
        Ok(text) => Ok((text, imported.record.len())),
        Err(_) => Err(ImportFault::Memory),
    }
}

/// Returns the verdict on a match file that gives no match; where there was no memory, the one that
/// was there before.
fn verdict_after(why: ImportFault, before: VerdictFields) -> VerdictFields
    ensures { result ≡ verdict_after why before }
{
    match why {
        ImportFault::Refused { line, .. } => VerdictFields::of(Verdict::Refused(line)),
        ImportFault::TooLong => VerdictFields::of(Verdict::TooLong),
        ImportFault::Memory => before,
    }
}

/// Puts the transcript that was made into the room, and sets the verdict.
fn give_import(
    made: Result<(Vec<u8>, Number), ImportFault>,
    verdict: &mut VerdictFields,
    out: &mut [u8],
    needed: &mut usize,
) -> Status
    ensures { GivesImport made verdict.old out.old needed.old (status_code result) verdict.new out.new needed.new }
{
    match made {
        Ok((text, entries)) => {
            *verdict = VerdictFields::of(Verdict::Fine(entries));
            put(&text, out, needed)
        }
        Err(why) => {
            *verdict = verdict_after(why, *verdict);
            Status::from(why)
        }
    }
}

/// Writes the transcript of the match that a match file tells under these rules, 1 or 2. `verdict`
/// is set where the result is BG_OK, BG_NO_ROOM or BG_REFUSED: it has the number of the entries, or
/// that of the line of the file that is refused.
///
/// Returns BG_BAD_ARGUMENT where there are no such rules; BG_REFUSED where the file gives no match,
/// or has more than 41943040 bytes; or BG_MEMORY.
#[unsafe(no_mangle)]
pub extern "C" fn bg_mat_import(
    alloc: Global,
    rules: u32,
    file: &[u8],
    verdict: &mut VerdictFields,
    out: &mut [u8],
    needed: &mut usize,
) -> u32
    ensures { ImportsFile rules file.now verdict.old out.old needed.old result verdict.new out.new needed.new }
{
    let Some(rules) = rules_numbered(rules) else {
        return Status::BadArgument.code();
    };
    give_import(import(alloc, rules, file), verdict, out, needed).code()
}

/// Returns the match file of a transcript.
fn export(alloc: Global, transcript: &[u8]) -> Result<Vec<u8>, Status>
    ensures { MakesOfTranscript Exports transcript.now result }
{
    let log = record(alloc, transcript)?;
    Ok(export_mat(alloc, &log)?)
}

/// Writes the match file of a transcript, with X in the left column. Returns BG_REFUSED where
/// [`bg_judge`](crate::judge::bg_judge) does not find it fine.
#[unsafe(no_mangle)]
pub extern "C" fn bg_mat_export(
    alloc: Global,
    transcript: &[u8],
    out: &mut [u8],
    needed: &mut usize,
) -> u32
    ensures { Writes (MakesOfTranscript Exports transcript.now) out.old needed.old result out.new needed.new }
{
    give(export(alloc, transcript), out, needed).code()
}
