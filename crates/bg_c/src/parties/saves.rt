//! The saves of parties.
ghost use Rattle.std.specs.Prelude.{◌≡◌, None, Some};
ghost use Rattle.bg_parties.specs.Calls.{after_save};
ghost use Rattle.bg_c.specs.Handle.{Held};
ghost use Rattle.bg_c.specs.PartyCalls.{HeldSaves, SaveAnswer, numbers_in_room, slot_code, text_of_save};
ghost use Rattle.bg_c.specs.Sets.{Gives};
ghost use Rattle.bg_c.specs.Status.{status_code};
ghost use Rattle.bg_c.specs.declared.statuses.Status.{Status as AStatus};
ghost use Rattle.bg_c.specs.declared.statuses.Status.TheVariants as status;

use crate::handle::Handle;
use crate::rooms::put;
use crate::statuses::Status;
use bg_parties::Party;
use bg_wire::Slot;
use std::alloc::Global;

/// Returns the number of a slot.
fn slot_code(slot: Slot) -> u32
    ensures { result ≡ slot_code slot }
{
    match slot {
        Slot::Zero => 0,
        Slot::One => 1,
    }
}

/// Begins the next save of a party where its text fits into the room, and sets the numbers of its
/// slot and of itself. Where the text does not fit, no save is under way.
fn begin_save(
    party: &mut Party,
    slot: &mut u32,
    save: &mut u32,
    room: &mut [u8],
    needed: &mut usize,
) -> Status
    ensures { (answer : SaveAnswer) × HeldSaves party.old room.old answer party.new
        × Gives (text_of_save answer) room.old needed.old result room.new needed.new
        × ((slot.new, save.new) ≡ numbers_in_room answer room.old (slot.old, save.old)) }
{
    let (next_slot, next_save, text) = match party.to_save() {
        Ok(next) => next,
        Err(why) => return Status::from(why),
    };
    let Status::Ok = put(&text, room, needed) else {
        party.abandon_save();
        return Status::NoRoom;
    };
    *slot = slot_code(next_slot);
    *save = next_save;
    Status::Ok
}

/// Begins the next save of a referee or a seat, and sets `slot` and `save`. Write the whole text to
/// slot `slot` (0 or 1), make sure that it is durable, and then call [`bg_proved_party_mark_saved`]
/// with `save`. A change of the record or the claim in between ends the save: begin again. Where
/// the result is BG_NO_ROOM no save is under way, and `slot` and `save` are as before.
///
/// Returns BG_WRONG_PARTY where the party is a watcher; else BG_SAVES_SPENT or BG_MEMORY with what
/// [`Party::to_save`] refuses.
#[unsafe(no_mangle)]
pub extern "C" fn bg_proved_party_to_save(
    alloc: Global,
    handle: &mut Handle,
    slot: &mut u32,
    save: &mut u32,
    out: &mut [u8],
    needed: &mut usize,
) -> u32
    ensures closed { handle.old.value ≡ None → (result ≡ status_code status.NotOpen) × (handle.new.value ≡ None)
        × (slot.new ≡ slot.old) × (save.new ≡ save.old) × (out.new ≡ out.old) × (needed.new ≡ needed.old) }
    ensures saves { (old : Held) → handle.old.value ≡ Some old → (answer : SaveAnswer) × (new : Held)
        × (of : AStatus) × HeldSaves old out.old answer new × (handle.new.value ≡ Some new)
        × Gives (text_of_save answer) out.old needed.old of out.new needed.new × (result ≡ status_code of)
        × ((slot.new, save.new) ≡ numbers_in_room answer out.old (slot.old, save.old)) }
{
    let Some(mut party) = handle.take(alloc) else {
        return Status::NotOpen.code();
    };
    let status = begin_save(&mut party, slot, save, out, needed);
    handle.put(party);
    status.code()
}

/// Marks the save of this number as written. Returns BG_WRONG_SAVE where it is not under way; a
/// watcher has none.
#[unsafe(no_mangle)]
pub extern "C" fn bg_proved_party_mark_saved(alloc: Global, handle: &mut Handle, save: u32) -> u32
    ensures closed { handle.old.value ≡ None → (result ≡ status_code status.NotOpen) × (handle.new.value ≡ None) }
    ensures marks { (old : Held) → handle.old.value ≡ Some old → old.under_way ≡ Some save
        → (new : Held) × (handle.new.value ≡ Some new) × (new.core ≡ after_save old.core save)
        × (new.under_way ≡ None) × (result ≡ status_code status.Ok) }
    ensures wrong { (old : Held) → handle.old.value ≡ Some old → (old.under_way ≡ Some save → ⊥)
        → (handle.new.value ≡ Some old) × (result ≡ status_code status.WrongSave) }
{
    let Some(mut party) = handle.take(alloc) else {
        return Status::NotOpen.code();
    };
    let marked = party.mark_saved(save);
    handle.put(party);
    match marked {
        Ok(()) => Status::Ok.code(),
        Err(_) => Status::WrongSave.code(),
    }
}
