//! The saved state that the slots of a party restore, and where its text stands.
ghost use Rattle.std.specs.Prelude.{◌≡◌, ◌<◌, IfErr, IfOk, Result};
ghost use Rattle.bg_wire.specs.Entries.Codes.{first_watcher};
ghost use Rattle.bg_wire.specs.Saved.SavedText.{HasEntries};
ghost use Rattle.bg_c.specs.Sets.{Sets};
ghost use Rattle.bg_c.specs.Slots.{Locates, ReadsOfMatch, ReadsSlots, TellsSave, misplaced_in_one, misplaced_in_zero};
ghost use Rattle.bg_c.specs.Slots.{newer_slot, nothing_saved, saved_fields};
ghost use Rattle.bg_c.specs.declared.slots.SavedFields.{SavedFields as Fields};
ghost use Rattle.bg_c.specs.declared.statuses.Status.{Status as AStatus};
ghost use Rattle.bg_c.specs.declared.statuses.Status.TheVariants.{Memory};

use crate::rooms::set;
use crate::saved_texts::claim_number;
use crate::statuses::Status;
use crate::terms::terms_numbered;
use bg_match::Terms;
use bg_wire::{FIRST_WATCHER, LoadFault, Saved, load, restore};
use std::alloc::Global;

/// The saved state that slots restore, `bg_saved` of the header.
#[repr(C)]
#[derive(Clone, Copy)]
pub struct SavedFields {
    /// 1 where something is saved; 0 where nothing is, and then the rest is 0 too.
    pub found: u32,
    /// The slot that its text stands in.
    pub slot: u32,
    /// The number of the save, from 1.
    pub save: u32,
    /// The number of its entries.
    pub entries: u32,
    /// The number of the last claim; 0 where there is none.
    pub claim: u32,
    /// The texts that do not stand in the slot of their save: 1 that of slot 0, 2 that of slot 1, 3
    /// both.
    pub misplaced: u32,
    /// 0.
    pub reserved: [u32; 2],
}

impl SavedFields {
    /// Returns the parts where nothing is saved.
    fn none() -> SavedFields
        ensures { result ≡ nothing_saved }
    {
        SavedFields {
            found: 0,
            slot: 0,
            save: 0,
            entries: 0,
            claim: 0,
            misplaced: 0,
            reserved: [0; 2],
        }
    }

    /// Returns the parts of what is saved, by the saves whose texts both slots have.
    fn of(saved: &Saved, first: Option<u32>, second: Option<u32>) -> SavedFields
        ensures { result ≡ saved_fields saved.now first second }
    {
        SavedFields {
            found: 1,
            slot: newer_slot(first, second),
            save: saved.save,
            entries: saved.log.len(),
            claim: claim_number(&saved.claim),
            misplaced: misplaced_in_zero(first) + misplaced_in_one(second),
            reserved: [0; 2],
        }
    }
}

/// Returns the slot of the newer of two saves, and slot 0 where they are equal.
fn newer_slot(first: Option<u32>, second: Option<u32>) -> u32
    ensures { result ≡ newer_slot first second }
{
    match (first, second) {
        (None, _) => 1,
        (Some(_), None) => 0,
        (Some(first), Some(second)) => u32::from(first < second),
    }
}

/// Returns 1 where slot 0 has the text of a save that goes to the other slot, else 0.
fn misplaced_in_zero(save: Option<u32>) -> u32
    ensures value { result ≡ misplaced_in_zero save }
    ensures few { result < 2 }
{
    match save {
        Some(save) if save % 2 != 0 => 1,
        _ => 0,
    }
}

/// Returns 2 where slot 1 has the text of a save that goes to the other slot, else 0.
fn misplaced_in_one(save: Option<u32>) -> u32
    ensures value { result ≡ misplaced_in_one save }
    ensures few { result < 3 }
{
    match save {
        Some(save) if save % 2 == 0 => 2,
        _ => 0,
    }
}

/// Returns the number of the save whose text a slot has, if it has one.
fn save_in(alloc: Global, slot: &[u8]) -> Result<Option<u32>, Status>
    ensures tells { IfOk result (TellsSave slot.now) }
    ensures memory { IfErr result (λ why. (why ≡ Memory) × HasEntries slot.now) }
{
    match load(alloc, slot) {
        Ok(saved) => Ok(Some(saved.save)),
        Err(LoadFault::Memory) => Err(Status::Memory),
        Err(_) => Ok(None),
    }
}

/// Finds the slots in which the saved texts stand.
fn located(alloc: Global, saved: &Saved, slot0: &[u8], slot1: &[u8]) -> Result<SavedFields, Status>
    ensures { Locates slot0.now slot1.now saved.now result }
{
    let first = save_in(alloc, slot0)?;
    let second = save_in(alloc, slot1)?;
    Ok(SavedFields::of(saved, first, second))
}

/// Reads what the slots of a party restore, in a match of these terms.
fn read_in_match(
    alloc: Global,
    party: u8,
    id: u64,
    terms: Terms,
    slot0: &[u8],
    slot1: &[u8],
) -> Result<SavedFields, Status>
    ensures { ReadsOfMatch slot0.now slot1.now party id terms result }
{
    match restore(alloc, slot0, slot1, party, id, terms.length, terms.rules) {
        Ok(Some(saved)) => located(alloc, &saved, slot0, slot1),
        Ok(None) => Ok(SavedFields::none()),
        Err(why) => Err(Status::from(why)),
    }
}

/// Reads what the slots of a party restore, where there is such a party of such a match.
pub(crate) fn read(
    alloc: Global,
    party: u32,
    id: u64,
    length: u32,
    rules: u32,
    slot0: &[u8],
    slot1: &[u8],
) -> Result<SavedFields, Status>
    ensures reads { ReadsSlots slot0.now slot1.now party id length rules result }
    ensures few { IfOk result (λ fields. party < first_watcher) }
{
    let Some(terms) = terms_numbered(length, rules) else {
        return Err(Status::BadArgument);
    };
    if party >= u32::from(FIRST_WATCHER) {
        return Err(Status::BadArgument);
    }
    read_in_match(alloc, party as u8, id, terms, slot0, slot1)
}

/// Reads what the two slots of the referee (party 0) or of a seat (1 X, 2 O) restore. A slot that
/// was never written is empty. `saved` is set where the result is BG_OK.
///
/// Returns BG_BAD_ARGUMENT where there is no such party, no such length of a match (1 to 99) or no
/// such rules (1 or 2). Returns BG_DAMAGED, BG_WRONG_MATCH or BG_MEMORY with what [`restore`]
/// refuses.
#[unsafe(no_mangle)]
pub extern "C" fn bg_slots_read(
    alloc: Global,
    party: u32,
    id: u64,
    match_length: u32,
    rules: u32,
    slot0: &[u8],
    slot1: &[u8],
    saved: &mut SavedFields,
) -> u32
    ensures { (made : Result Fields AStatus) × ReadsSlots slot0.now slot1.now party id match_length rules made
        × Sets made saved.old result saved.new }
{
    let made = read(alloc, party, id, match_length, rules, slot0, slot1);
    set(made, saved)
}
