//! The contents of a folder's saved files, and the progress of its parties.
ghost use Rattle.std.specs.Prelude.{◌≡◌, ◌++◌, ◌||◌, ℕ, List, is_ok, IfOk, OnOk};
ghost use Rattle.std.specs.Option.{option_copied};
ghost use Rattle.bg_wire.specs.Saved.Restoring.{newer, parts_in};
ghost use Rattle.bg_reports.specs.Folder.{AreHeldIn, IsFolderText, IsPartyText, further as further_of, own};
ghost use Rattle.bg_reports.specs.Show.{IsBoardOf, held_of, loaded_of};

pub(crate) mod comparing;
mod lines;
pub(crate) mod restored;

use crate::folders::lines::{put_party, put_slots};
use crate::folders::restored::newer_of;
use crate::showing::{Held, hold, put_board_of};
use bg_wire::{REFEREE, SEAT_OF_O, SEAT_OF_X, Saved};
use std::alloc::{AllocError, Global};

/// The bytes of the two files of a party.
#[derive(Drop)]
pub struct SlotBytes {
    /// The file of the even saves.
    pub zero: Vec<u8>,
    /// The file of the odd saves.
    pub one: Vec<u8>,
}

/// The contents of the two files of a party.
#[derive(Drop)]
pub(crate) struct HeldSlots {
    pub(crate) zero: Held,
    pub(crate) one: Held,
}

/// Returns the report on the six saved files of a folder, and whether a file loads
/// (docs/FORMATS.md, "Showing saved files"). It has a line for each file, and one for each party
/// with how far it is behind the one that holds most. The board of that one follows.
///
/// # Errors
/// `AllocError` where memory runs out.
pub fn folder_text(
    alloc: Global,
    referee: &SlotBytes,
    x: &SlotBytes,
    o: &SlotBytes,
) -> Result<(Vec<u8>, bool), AllocError>
    ensures { IfOk result (λ shown. IsFolderText referee.now.zero.items referee.now.one.items x.now.zero.items
        x.now.one.items o.now.zero.items o.now.one.items shown.0.items shown.1) }
{
    let held0 = hold_slots(alloc, referee)?;
    let held1 = hold_slots(alloc, x)?;
    let held2 = hold_slots(alloc, o)?;
    told_folder(alloc, referee, x, o, &held0, &held1, &held2)
}

/// Returns the report on the six saved files of a folder, with these contents, and whether one
/// loads.
fn told_folder(
    alloc: Global,
    referee: &SlotBytes,
    x: &SlotBytes,
    o: &SlotBytes,
    held0: &HeldSlots,
    held1: &HeldSlots,
    held2: &HeldSlots,
) -> Result<(Vec<u8>, bool), AllocError>
    requires of_referee { AreHeldIn referee.now.zero.items referee.now.one.items (held_of held0.now.zero)
        (held_of held0.now.one) (loaded_of held0.now.zero) (loaded_of held0.now.one) }
    requires of_x { AreHeldIn x.now.zero.items x.now.one.items (held_of held1.now.zero) (held_of held1.now.one)
        (loaded_of held1.now.zero) (loaded_of held1.now.one) }
    requires of_o { AreHeldIn o.now.zero.items o.now.one.items (held_of held2.now.zero) (held_of held2.now.one)
        (loaded_of held2.now.zero) (loaded_of held2.now.one) }
    ensures { IfOk result (λ shown. IsFolderText referee.now.zero.items referee.now.one.items x.now.zero.items
        x.now.one.items o.now.zero.items o.now.one.items shown.0.items shown.1) }
{
    let mut text = Vec::new(alloc);
    put_slots(&mut text, REFEREE, referee, held0)?;
    put_slots(&mut text, SEAT_OF_X, x, held1)?;
    put_slots(&mut text, SEAT_OF_O, o, held2)?;
    let saved0 = held0.own_save(REFEREE);
    let saved1 = held1.own_save(SEAT_OF_X);
    let saved2 = held2.own_save(SEAT_OF_O);
    let leader = further(further(saved0, saved1), saved2);
    put_party(&mut text, REFEREE, saved0, leader)?;
    put_party(&mut text, SEAT_OF_X, saved1, leader)?;
    put_party(&mut text, SEAT_OF_O, saved2, leader)?;
    put_leader(alloc, &mut text, leader)?;
    Ok((text, one_loads(held0, held1, held2)))
}

/// Returns the report on the two files of a party alone, and whether one loads (docs/FORMATS.md,
/// "Showing saved files"). It has a line for each file, one with the number of entries that they
/// hold, and the board of what they restore.
///
/// # Errors
/// `AllocError` where memory runs out.
pub fn party_text(
    alloc: Global,
    party: u8,
    slots: &SlotBytes,
) -> Result<(Vec<u8>, bool), AllocError>
    ensures { IfOk result (λ shown. IsPartyText party slots.now.zero.items slots.now.one.items
        shown.0.items shown.1) }
{
    let held = hold_slots(alloc, slots)?;
    let mut text = Vec::new(alloc);
    put_slots(&mut text, party, slots, &held)?;
    let saved = held.own_save(party);
    put_party(&mut text, party, saved, None)?;
    put_leader(alloc, &mut text, saved)?;
    Ok((text, held.loads()))
}

/// Returns whether one of the files loads.
fn one_loads(held0: &HeldSlots, held1: &HeldSlots, held2: &HeldSlots) -> bool
    ensures { result ≡ is_ok (held_of held0.now.zero) || is_ok (held_of held0.now.one) || is_ok (held_of held1.now.zero)
        || is_ok (held_of held1.now.one) || is_ok (held_of held2.now.zero) || is_ok (held_of held2.now.one) }
{
    held0.loads() || held1.loads() || held2.loads()
}

/// Appends the board of the party that holds most, if there is one.
fn put_leader(alloc: Global, out: &mut Vec<u8>, leader: Option<&Saved>) -> Result<(), AllocError>
    ensures { OnOk result ((board : List ℕ) × IsBoardOf (parts_in (option_copied leader.entry)) board
        × (out.new.items ≡ out.old.items ++ board)) }
{
    match leader {
        Some(leader) => put_board_of(alloc, out, leader),
        None => Ok(()),
    }
}

/// Reads the contents of the two files of a party.
fn hold_slots(alloc: Global, slots: &SlotBytes) -> Result<HeldSlots, AllocError>
    ensures { IfOk result (λ held. AreHeldIn slots.now.zero.items slots.now.one.items
        (held_of held.zero) (held_of held.one) (loaded_of held.zero) (loaded_of held.one)) }
{
    Ok(HeldSlots {
        zero: hold(alloc, &slots.zero)?,
        one: hold(alloc, &slots.one)?,
    })
}

impl HeldSlots {
    /// Returns whether one of the files loads.
    fn loads(&self) -> bool
        ensures { result ≡ is_ok (held_of self.now.zero) || is_ok (held_of self.now.one) }
    {
        self.zero.is_ok() || self.one.is_ok()
    }

    /// Returns what the files restore, if it is a save of this party.
    fn own_save(&self, party: u8) -> Option<&Saved>
        ensures { parts_in (option_copied result) ≡ own party
            (newer (loaded_of self.now.zero) (loaded_of self.now.one)) }
    {
        match newer_of(&self.zero, &self.one) {
            Some(saved) if saved.party == party => Some(saved),
            _ => None,
        }
    }
}

/// Returns the save with more entries, and the first one where they have as many.
fn further<'a>(a: Option<&'a Saved>, b: Option<&'a Saved>) -> Option<&'a Saved>
    ensures { parts_in (option_copied result)
        ≡ further_of (parts_in (option_copied a.entry)) (parts_in (option_copied b.entry)) }
{
    match (a, b) {
        (Some(one), Some(other)) if one.log.len() < other.log.len() => b,
        (Some(_), _) => a,
        (None, _) => b,
    }
}
