//! The calls that name the position after a transcript as other programs do.
ghost use Rattle.bg_c.specs.Ids.{IsMatchIdOf, IsPositionIdOf, MakesXgid};
ghost use Rattle.bg_c.specs.MatchFiles.{MakesOfTranscript};
ghost use Rattle.bg_c.specs.Sets.{Writes};

use crate::rooms::give;
use crate::statuses::Status;
use crate::transcripts::record;
use bg_ids::{MatchId, PositionId, Xgid};
use std::alloc::Global;

/// Returns the Position ID after a transcript.
fn position_id(alloc: Global, transcript: &[u8]) -> Result<Vec<u8>, Status>
    ensures { MakesOfTranscript IsPositionIdOf transcript.now result }
{
    let log = record(alloc, transcript)?;
    let id = PositionId::of(&log.standing());
    Ok(Vec::from_slice(alloc, id.as_str().as_bytes())?)
}

/// Writes the Position ID of GNU Backgammon of the board after a transcript, 14 characters without
/// a line feed. Returns BG_REFUSED where [`bg_judge`](crate::judge::bg_judge) does not find the
/// transcript fine.
#[unsafe(no_mangle)]
pub extern "C" fn bg_position_id(
    alloc: Global,
    transcript: &[u8],
    out: &mut [u8],
    needed: &mut usize,
) -> u32
    ensures { Writes (MakesOfTranscript IsPositionIdOf transcript.now) out.old needed.old result out.new needed.new }
{
    give(position_id(alloc, transcript), out, needed).code()
}

/// Returns the Match ID after a transcript.
fn match_id(alloc: Global, transcript: &[u8]) -> Result<Vec<u8>, Status>
    ensures { MakesOfTranscript IsMatchIdOf transcript.now result }
{
    let log = record(alloc, transcript)?;
    let id = MatchId::of(&log.standing());
    Ok(Vec::from_slice(alloc, id.as_str().as_bytes())?)
}

/// Writes the Match ID of GNU Backgammon after a transcript, all but the board, 12 characters
/// without a line feed. Returns BG_REFUSED where [`bg_judge`](crate::judge::bg_judge) does not find
/// the transcript fine.
#[unsafe(no_mangle)]
pub extern "C" fn bg_match_id(
    alloc: Global,
    transcript: &[u8],
    out: &mut [u8],
    needed: &mut usize,
) -> u32
    ensures { Writes (MakesOfTranscript IsMatchIdOf transcript.now) out.old needed.old result out.new needed.new }
{
    give(match_id(alloc, transcript), out, needed).code()
}

/// Returns the XGID after a transcript.
fn xgid(alloc: Global, transcript: &[u8]) -> Result<Vec<u8>, Status>
    ensures { MakesXgid transcript.now result }
{
    let log = record(alloc, transcript)?;
    match Xgid::of(&log.standing()) {
        Ok(id) => Ok(Vec::from_slice(alloc, id.as_str().as_bytes())?),
        Err(_) => Err(Status::NoXgid),
    }
}

/// Writes the XGID of eXtreme Gammon after a transcript, 47 to 55 characters without a line feed.
/// Returns BG_REFUSED where [`bg_judge`](crate::judge::bg_judge) does not find the transcript fine;
/// BG_NO_XGID before a game, while an offer to resign is answered, and after the match.
#[unsafe(no_mangle)]
pub extern "C" fn bg_xgid(
    alloc: Global,
    transcript: &[u8],
    out: &mut [u8],
    needed: &mut usize,
) -> u32
    ensures { Writes (MakesXgid transcript.now) out.old needed.old result out.new needed.new }
{
    give(xgid(alloc, transcript), out, needed).code()
}
