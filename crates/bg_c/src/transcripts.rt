//! The calls that read transcripts.
ghost use Rattle.std.specs.Prelude.{◌≡◌, IfErr, IfOk};
ghost use Rattle.bg_text.specs.Judge.Transcripts.{ReadsTranscript};
ghost use Rattle.bg_c.specs.Sets.{Writes};
ghost use Rattle.bg_c.specs.Transcripts.{IsNotFine, MakesBoardAfter, MakesTurnsAfter};

use crate::rooms::give;
use crate::statuses::Status;
use crate::turns::turns_text;
use bg_match::Record;
use bg_text::{TranscriptFault, board_text, read_transcript};
use std::alloc::Global;

impl From<TranscriptFault> for Status {
    ghost use Rattle.bg_c.specs.Transcripts.{transcript_status};

    ghost from_gives = { λ why status. status ≡ transcript_status why };

    fn from(why: TranscriptFault) -> Status {
        match why {
            TranscriptFault::Refused { .. } | TranscriptFault::TooLong => Status::Refused,
            TranscriptFault::Memory => Status::Memory,
        }
    }
}

/// Returns the record of a transcript.
pub(crate) fn record(alloc: Global, transcript: &[u8]) -> Result<Record, Status>
    ensures read { IfOk result (ReadsTranscript 0 transcript.now) }
    ensures refused { IfErr result (IsNotFine transcript.now) }
{
    Ok(read_transcript(alloc, 0, transcript)?)
}

/// Returns the board after a transcript.
fn board(alloc: Global, transcript: &[u8]) -> Result<Vec<u8>, Status>
    ensures { MakesBoardAfter transcript.now result }
{
    let log = record(alloc, transcript)?;
    Ok(board_text(alloc, &log.standing())?)
}

/// Returns the legal turns of the player to move after a transcript.
fn turns(alloc: Global, transcript: &[u8]) -> Result<Vec<u8>, Status>
    ensures { MakesTurnsAfter transcript.now result }
{
    let log = record(alloc, transcript)?;
    match turns_text(alloc, &log.standing())? {
        Some(text) => Ok(text),
        None => Err(Status::NotToMove),
    }
}

/// Writes the board after a transcript. Returns BG_REFUSED where
/// [`bg_judge`](crate::judge::bg_judge) does not find it fine.
#[unsafe(no_mangle)]
pub extern "C" fn bg_transcript_board(
    alloc: Global,
    transcript: &[u8],
    out: &mut [u8],
    needed: &mut usize,
) -> u32
    ensures { Writes (MakesBoardAfter transcript.now) out.old needed.old result out.new needed.new }
{
    give(board(alloc, transcript), out, needed).code()
}

/// Writes each legal turn after a transcript, one to a line, such as `move 8-5 6-5`, the greatest
/// first. Returns BG_REFUSED where [`bg_judge`](crate::judge::bg_judge) does not find it fine;
/// BG_NOT_TO_MOVE where no player is to move.
#[unsafe(no_mangle)]
pub extern "C" fn bg_transcript_turns(
    alloc: Global,
    transcript: &[u8],
    out: &mut [u8],
    needed: &mut usize,
) -> u32
    ensures { Writes (MakesTurnsAfter transcript.now) out.old needed.old result out.new needed.new }
{
    give(turns(alloc, transcript), out, needed).code()
}
