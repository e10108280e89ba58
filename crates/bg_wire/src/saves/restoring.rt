//! The state that the two slots of a party restore.
ghost use Rattle.std.specs.Prelude.{◌≡◌, ◌↔◌, IsTrue, IfOk};
ghost use Rattle.bg_match.specs.Terms.{terms_of};
ghost use Rattle.bg_wire.specs.Saved.SavedText.{SavedParts, IsSavedText, parts_of};
ghost use Rattle.bg_wire.specs.Saved.Restoring.{Restores, IsSavedBy, IsSavableIn};
ghost use Rattle.bg_wire.specs.Saved.SlotReading.{ReadsSlot, ReadsFirst, ReadsSlots};

use crate::saves::layouts::split_front;
use crate::{LoadFault, RestoreRefusal, Saved, load};
use bg_match::Rules;
use std::alloc::Global;

/// Returns the saved state with which a party of a match restarts, by the bytes of its two slots.
/// Of the saved texts among them it is the one whose save has the greater number, and that of slot
/// 0 where they are equal. `None` where neither slot has a saved text and slot 0 is empty
/// (docs/FORMATS.md, "Saved files"). It loads the text whose front tells the greater number, and
/// the other one only where that is no saved text.
///
/// # Errors
/// `Damaged` where neither slot has a saved text and slot 0 is not empty. `WrongMatch` where the
/// party, the id, the length or the rules of the chosen text are others. `Memory` where there is
/// none for the entries of a text, in place of any other answer.
pub fn restore(
    alloc: Global,
    slot0: &[u8],
    slot1: &[u8],
    party: u8,
    id: u64,
    length: u8,
    rules: Rules,
) -> Result<Option<Saved>, RestoreRefusal>
    ensures restores { Restores slot0.now slot1.now party id (terms_of length rules) result }
    ensures savable { IfOk result IsSavableIn }
{
    if slot0.is_empty() && slot1.is_empty() {
        return Ok(None);
    }
    match read_newer(alloc, slot0, slot1)? {
        Some(saved) if is_saved_by(&saved, party, id, length, rules) => Ok(Some(saved)),
        Some(_) => Err(RestoreRefusal::WrongMatch),
        None if slot0.is_empty() => Ok(None),
        None => Err(RestoreRefusal::Damaged),
    }
}

/// Returns the newer of the saved matches of both slots, or that of slot 0 where they are equally
/// new.
fn read_newer(alloc: Global, slot0: &[u8], slot1: &[u8]) -> Result<Option<Saved>, RestoreRefusal>
    ensures reads { ReadsSlots slot0.now slot1.now result }
    ensures savable { IfOk result IsSavableIn }
{
    if told_save(slot0) < told_save(slot1) {
        read_first(alloc, slot1, slot0)
    } else {
        read_first(alloc, slot0, slot1)
    }
}

/// Returns the number of the save that a slot's text tells in front of its entries, whether they
/// are legal or not. Returns 0 where the slot has no such front.
fn told_save(bytes: &[u8]) -> u32
    ensures { (p : SavedParts) → IsSavedText p bytes.now → result ≡ p.save }
{
    match split_front(bytes) {
        Ok((front, _)) => front.save,
        Err(_) => 0,
    }
}

/// Returns the saved match of the first of two slots, or that of the other one where the first has
/// none. So the entries of one slot alone are judged, unless the text that should be the newer one
/// is torn.
fn read_first(alloc: Global, first: &[u8], other: &[u8]) -> Result<Option<Saved>, RestoreRefusal>
    ensures reads { ReadsFirst first.now other.now result }
    ensures savable { IfOk result IsSavableIn }
{
    match read_slot(alloc, first)? {
        Some(saved) => Ok(Some(saved)),
        None => read_slot(alloc, other),
    }
}

/// Returns the saved match of a slot, if its bytes are a saved text.
fn read_slot(alloc: Global, bytes: &[u8]) -> Result<Option<Saved>, RestoreRefusal>
    ensures reads { ReadsSlot bytes.now result }
    ensures savable { IfOk result IsSavableIn }
{
    match load(alloc, bytes) {
        Ok(saved) => Ok(Some(saved)),
        Err(LoadFault::Memory) => Err(RestoreRefusal::Memory),
        Err(_) => Ok(None),
    }
}

/// Returns whether a saved match is this party's, of the match with this id and these terms.
fn is_saved_by(saved: &Saved, party: u8, id: u64, length: u8, rules: Rules) -> bool
    ensures { IsTrue result ↔ IsSavedBy party id (terms_of length rules) (parts_of saved.now) }
{
    saved.party == party
        && saved.log.id() == id
        && saved.log.length() == length
        && saved.log.rules() == rules
}
