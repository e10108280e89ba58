//! The openings of parties: for a new match, and to go on with what is saved.
ghost use Rattle.std.specs.Prelude.{Result};
ghost use Rattle.bg_c.specs.Handle.{Held};
ghost use Rattle.bg_c.specs.Openings.{BeginsHandle, BeginsMatch, IsBegun, IsFresh, IsOpened, IsResumed, Places};
ghost use Rattle.bg_c.specs.Openings.{ResumesHandle};
ghost use Rattle.bg_c.specs.declared.slots.SavedFields.{SavedFields as Fields};
ghost use Rattle.bg_c.specs.declared.statuses.Status.{Status as AStatus};

use crate::handle::Handle;
use crate::slots::{SavedFields, read};
use crate::statuses::Status;
use crate::terms::terms_numbered;
use bg_match::Terms;
use bg_parties::Party;
use bg_wire::LAST_WATCHER;
use std::alloc::Global;

/// Opens a party of a match of these terms, as its slots restore it.
fn open(
    alloc: Global,
    number: u8,
    id: u64,
    terms: Terms,
    slot0: &[u8],
    slot1: &[u8],
) -> Result<Party, Status>
    ensures { IsOpened slot0.now slot1.now number id terms result }
{
    Ok(Party::open(alloc, number, id, terms, slot0, slot1)?)
}

/// Opens a party of a match of these terms, as empty slots restore it: afresh.
fn open_fresh(alloc: Global, number: u8, id: u64, terms: Terms) -> Result<Party, Status>
    ensures { IsFresh number id terms result }
{
    open(alloc, number, id, terms, b"", b"")
}

/// Puts a party into the handle, where there is a place for it.
fn place(alloc: Global, handle: &mut Handle, party: Party) -> Status
    ensures { Places party handle.old.value result handle.new.value }
{
    let Ok(party) = Box::new(alloc, party) else {
        return Status::Memory;
    };
    handle.put(party);
    Status::Ok
}

/// Opens a party of a new match of these terms, where both slots are empty.
fn begin_match(
    alloc: Global,
    number: u8,
    id: u64,
    terms: Terms,
    slot0: &[u8],
    slot1: &[u8],
) -> Result<Party, Status>
    ensures { BeginsMatch slot0.now slot1.now number id terms result }
{
    if !slot0.is_empty() || !slot1.is_empty() {
        return Err(Status::NotEmpty);
    }
    open_fresh(alloc, number, id, terms)
}

/// Opens a party of a new match, where there is such a party of such a match.
fn begin(
    alloc: Global,
    number: u32,
    id: u64,
    length: u32,
    rules: u32,
    slot0: &[u8],
    slot1: &[u8],
) -> Result<Party, Status>
    ensures { IsBegun slot0.now slot1.now number id length rules result }
{
    let Some(terms) = terms_numbered(length, rules) else {
        return Err(Status::BadArgument);
    };
    if number > u32::from(LAST_WATCHER) {
        return Err(Status::BadArgument);
    }
    begin_match(alloc, number as u8, id, terms, slot0, slot1)
}

/// Opens a party of a new match: number 0 is the referee, 1 and 2 are the seats of X and of O, 3 to
/// 255 watch. Both slots must be empty, so that no match is begun over a save. The party that the
/// handle had is dropped. Where the result is not BG_OK the handle is as before.
///
/// Returns BG_BAD_ARGUMENT where there is no such party, no such length of a match (1 to 99) or no
/// such rules (1 or 2). Then BG_NOT_EMPTY where a slot is not empty. Last, BG_MEMORY.
#[unsafe(no_mangle)]
pub extern "C" fn bg_proved_party_begin(
    alloc: Global,
    handle: &mut Handle,
    number: u32,
    id: u64,
    match_length: u32,
    rules: u32,
    slot0: &[u8],
    slot1: &[u8],
) -> u32
    ensures { (made : Result Held AStatus) × IsBegun slot0.now slot1.now number id match_length rules made
        × BeginsHandle made handle.old.value result handle.new.value }
{
    match begin(alloc, number, id, match_length, rules, slot0, slot1) {
        Ok(party) => place(alloc, handle, party).code(),
        Err(why) => why.code(),
    }
}

/// Opens a party that goes on with what its slots restore, and returns the parts of its save too.
fn resume(
    alloc: Global,
    number: u32,
    id: u64,
    length: u32,
    rules: u32,
    slot0: &[u8],
    slot1: &[u8],
) -> Result<(Party, SavedFields), Status>
    ensures { IsResumed slot0.now slot1.now number id length rules result }
{
    let saved = read(alloc, number, id, length, rules, slot0, slot1)?;
    if saved.found == 0 {
        return Err(Status::NothingSaved);
    }
    let Some(terms) = terms_numbered(length, rules) else {
        return Err(Status::BadArgument);
    };
    let party = open(alloc, number as u8, id, terms, slot0, slot1)?;
    Ok((party, saved))
}

/// Opens the referee (party 0) or a seat (1 X, 2 O) that goes on with what its slots restore, and
/// sets `saved` to the parts of its save. The party that the handle had is dropped. Where the
/// result is not BG_OK, the handle and `saved` are as before.
///
/// Returns BG_BAD_ARGUMENT, BG_DAMAGED or BG_WRONG_MATCH as
/// [`bg_slots_read`](crate::slots::bg_slots_read) does. Returns BG_NOTHING_SAVED where the slots
/// restore nothing, and BG_MEMORY where there was no memory.
#[unsafe(no_mangle)]
pub extern "C" fn bg_proved_party_resume(
    alloc: Global,
    handle: &mut Handle,
    number: u32,
    id: u64,
    match_length: u32,
    rules: u32,
    slot0: &[u8],
    slot1: &[u8],
    saved: &mut SavedFields,
) -> u32
    ensures { (made : Result (Held × Fields) AStatus)
        × IsResumed slot0.now slot1.now number id match_length rules made
        × ResumesHandle made (handle.old.value, saved.old) result (handle.new.value, saved.new) }
{
    let (party, fields) = match resume(alloc, number, id, match_length, rules, slot0, slot1) {
        Ok(made) => made,
        Err(why) => return why.code(),
    };
    let Status::Ok = place(alloc, handle, party) else {
        return Status::Memory.code();
    };
    *saved = fields;
    Status::Ok.code()
}
