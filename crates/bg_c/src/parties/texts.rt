//! The texts of a party's record.
ghost use Rattle.std.specs.Prelude.{◌≡◌, None, Some};
ghost use Rattle.bg_c.specs.Handle.{Held};
ghost use Rattle.bg_c.specs.PartyTexts.{MakesBoard, MakesEntries, MakesTranscript, MakesTurns};
ghost use Rattle.bg_c.specs.Sets.{Writes};
ghost use Rattle.bg_c.specs.Status.{status_code};
ghost use Rattle.bg_c.specs.declared.statuses.Status.TheVariants.{NotOpen};

use crate::entry_lines::lines_text;
use crate::handle::Handle;
use crate::rooms::give;
use crate::statuses::Status;
use crate::turns::turns_text;
use bg_parties::Party;
use bg_text::{board_text, transcript_text};
use std::alloc::Global;

/// Returns the board of a party's record.
fn board(alloc: Global, party: &Party) -> Result<Vec<u8>, Status>
    ensures { MakesBoard party.now result }
{
    Ok(board_text(alloc, &party.held().standing())?)
}

/// Returns the transcript of a party's record.
fn transcript(alloc: Global, party: &Party) -> Result<Vec<u8>, Status>
    ensures { MakesTranscript party.now result }
{
    Ok(transcript_text(alloc, party.held())?)
}

/// Returns the lines of at most `count` entries of a party's record, from a number on.
fn entries(alloc: Global, party: &Party, from: u32, count: u32) -> Result<Vec<u8>, Status>
    ensures { MakesEntries party.now from count result }
{
    let Some(skipped) = from.checked_sub(1) else {
        return Err(Status::BadArgument);
    };
    Ok(lines_text(alloc, party.held(), skipped, count)?)
}

/// Returns the legal turns of the player to move by a party's record.
fn turns(alloc: Global, party: &Party) -> Result<Vec<u8>, Status>
    ensures { MakesTurns party.now result }
{
    match turns_text(alloc, &party.held().standing())? {
        Some(text) => Ok(text),
        None => Err(Status::NotToMove),
    }
}

/// Writes the board of a party's record.
#[unsafe(no_mangle)]
pub extern "C" fn bg_proved_party_board(
    alloc: Global,
    handle: &mut Handle,
    out: &mut [u8],
    needed: &mut usize,
) -> u32
    ensures same { handle.new.value ≡ handle.old.value }
    ensures closed { handle.old.value ≡ None → (result ≡ status_code NotOpen) × (out.new ≡ out.old)
        × (needed.new ≡ needed.old) }
    ensures board { (party : Held) → handle.old.value ≡ Some party
        → Writes (MakesBoard party) out.old needed.old result out.new needed.new }
{
    let Some(party) = handle.take(alloc) else {
        return Status::NotOpen.code();
    };
    let made = board(alloc, &party);
    handle.put(party);
    give(made, out, needed).code()
}

/// Writes the transcript of a party's record.
#[unsafe(no_mangle)]
pub extern "C" fn bg_proved_party_transcript(
    alloc: Global,
    handle: &mut Handle,
    out: &mut [u8],
    needed: &mut usize,
) -> u32
    ensures same { handle.new.value ≡ handle.old.value }
    ensures closed { handle.old.value ≡ None → (result ≡ status_code NotOpen) × (out.new ≡ out.old)
        × (needed.new ≡ needed.old) }
    ensures transcript { (party : Held) → handle.old.value ≡ Some party
        → Writes (MakesTranscript party) out.old needed.old result out.new needed.new }
{
    let Some(party) = handle.take(alloc) else {
        return Status::NotOpen.code();
    };
    let made = transcript(alloc, &party);
    handle.put(party);
    give(made, out, needed).code()
}

/// Writes the lines of at most `count` entries of a party's record, from the number `from` on, as
/// its transcript has them below the line of the terms. Where it holds none of these, the text has
/// no bytes. Returns BG_BAD_ARGUMENT where `from` is 0, as entries are numbered from 1.
#[unsafe(no_mangle)]
pub extern "C" fn bg_proved_party_entries_text(
    alloc: Global,
    handle: &mut Handle,
    from: u32,
    count: u32,
    out: &mut [u8],
    needed: &mut usize,
) -> u32
    ensures same { handle.new.value ≡ handle.old.value }
    ensures closed { handle.old.value ≡ None → (result ≡ status_code NotOpen) × (out.new ≡ out.old)
        × (needed.new ≡ needed.old) }
    ensures entries { (party : Held) → handle.old.value ≡ Some party
        → Writes (MakesEntries party from count) out.old needed.old result out.new needed.new }
{
    let Some(party) = handle.take(alloc) else {
        return Status::NotOpen.code();
    };
    let made = entries(alloc, &party, from, count);
    handle.put(party);
    give(made, out, needed).code()
}

/// Writes each legal turn of the player to move by a party's record, one to a line, such as
/// `move 8-5 6-5`, the greatest first. Returns BG_NOT_TO_MOVE where no player is to move.
#[unsafe(no_mangle)]
pub extern "C" fn bg_proved_party_turns(
    alloc: Global,
    handle: &mut Handle,
    out: &mut [u8],
    needed: &mut usize,
) -> u32
    ensures same { handle.new.value ≡ handle.old.value }
    ensures closed { handle.old.value ≡ None → (result ≡ status_code NotOpen) × (out.new ≡ out.old)
        × (needed.new ≡ needed.old) }
    ensures turns { (party : Held) → handle.old.value ≡ Some party
        → Writes (MakesTurns party) out.old needed.old result out.new needed.new }
{
    let Some(party) = handle.take(alloc) else {
        return Status::NotOpen.code();
    };
    let made = turns(alloc, &party);
    handle.put(party);
    give(made, out, needed).code()
}
