//! Seats that go on from what they saved.
use super::seats::{Row, check_rows};
use bg_match::Rules;
use bg_party::{ChooseFault, Seat};
use bg_wire::{SEAT_OF_X, SaveRefusal, Slot, restore};
use std::alloc::Global;
use std::process::Abort;

/// The first save of the seat of X: the opening 3 1, and the claim of 8-5 6-5 as entry 2.
pub(crate) const FIRST_SAVE: [u8; 37] = [
    0x42, 0x47, 0x53, 0x32, 0x01, 0, 0, 0, 0, 0, 0, 0, 0x01, 0x01, 0x01, 0, 0, 0, 0x01, 0x01, 0, 0,
    0, 0x02, 0x06, 0x02, 0x08, 0x05, 0x06, 0x05, 0, 0, 0, 0x01, 0x01, 0x03, 0x01,
];

/// The same in the layout that is read, and no longer written.
pub(crate) const FIRST_SAVE_OF_OLD: [u8; 32] = [
    0x42, 0x47, 0x53, 0x31, 0x01, 0, 0, 0, 0, 0, 0, 0, 0x01, 0x01, 0, 0, 0, 0x01, 0x01, 0, 0x02,
    0x06, 0x02, 0x08, 0x05, 0x06, 0x05, 0, 0x01, 0x01, 0x03, 0x01,
];

/// The second save, with the text of the first but for its number.
const SECOND_SAVE: [u8; 37] = [
    0x42, 0x47, 0x53, 0x32, 0x01, 0, 0, 0, 0, 0, 0, 0, 0x01, 0x01, 0x01, 0, 0, 0, 0x02, 0x01, 0, 0,
    0, 0x02, 0x06, 0x02, 0x08, 0x05, 0x06, 0x05, 0, 0, 0, 0x01, 0x01, 0x03, 0x01,
];

/// The last save, likewise.
const LAST_SAVE: [u8; 37] = [
    0x42, 0x47, 0x53, 0x32, 0x01, 0, 0, 0, 0, 0, 0, 0, 0x01, 0x01, 0x01, 0xFF, 0xFF, 0xFF, 0xFF,
    0x01, 0, 0, 0, 0x02, 0x06, 0x02, 0x08, 0x05, 0x06, 0x05, 0, 0, 0, 0x01, 0x01, 0x03, 0x01,
];

/// Whether the next save has this slot, this number and this text.
pub(crate) fn is_save(
    seat: &Seat,
    slot: Slot,
    save: u32,
    text: &[u8],
) -> Result<bool, SaveRefusal> {
    let (next_slot, next_save, next_text) = seat.to_save()?;
    Ok((next_slot, next_save) == (slot, save) && next_text.as_slice() == text)
}

/// The seat of X that goes on from these bytes in slot 1, where they are a saved text of match 1.
fn resumed(alloc: Global, bytes: &[u8]) -> Option<Seat> {
    match restore(alloc, &[], bytes, SEAT_OF_X, 1, 1, Rules::One) {
        Ok(Some(saved)) => Some(Seat::resume(alloc, saved)),
        _ => None,
    }
}

/// The seat of X that goes on from these bytes gives what the rows say.
fn check_resumed(rt: &(impl AllocGlobal + Abort), bytes: &[u8], rows: &[Row]) {
    let mut seat = resumed(rt.alloc(), bytes).expect(rt, "a saved text");
    check_rows(rt, &mut seat, rows);
}

/// A seat that goes on from a text of the first save has its record and its claim, which it sends
/// and does not make again, and saves both in the layout that is written.
const FROM_THE_FIRST_SAVE: [Row; 5] = [
    Row::TheOpening,
    Row::NextSave(Slot::Zero, 2, &SECOND_SAVE),
    Row::TheClaim,
    Row::Claims,
    Row::Roll(Err(ChooseFault::AlreadyClaimed)),
];

/// A seat that goes on from the last save keeps all that it has, and saves no more.
const FROM_THE_LAST_SAVE: [Row; 3] = [
    Row::SizeOfSave(Err(SaveRefusal::SavesSpent)),
    Row::TheOpening,
    Row::TheClaim,
];

#[test]
fn resumes(rt: HostRuntime) {
    check_resumed(&rt, &FIRST_SAVE, &FROM_THE_FIRST_SAVE);
    check_resumed(&rt, &FIRST_SAVE_OF_OLD, &FROM_THE_FIRST_SAVE);
    check_resumed(&rt, &LAST_SAVE, &FROM_THE_LAST_SAVE);
}
