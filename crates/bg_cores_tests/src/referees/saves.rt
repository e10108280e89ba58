//! The texts of saves, and referees that go on from them.
use super::referees::after_the_move;
use super::rows::{Row, check_rows};
use crate::checks::check_row;
use bg_match::Rules;
use bg_referee::Referee;
use bg_wire::{REFEREE, SaveRefusal, Slot, restore};
use std::alloc::Global;

/// The referee's save 2 of match 1, of length 1: the opening 3 1, and 8-5 6-5.
const SECOND_SAVE: [u8; 33] = [
    0x42, 0x47, 0x53, 0x32, 0, 0, 0, 0, 0, 0, 0, 0, 0x01, 0x01, 0x01, 0, 0, 0, 0x02, 0, 0, 0, 0,
    0x02, 0x01, 0x03, 0x01, 0x06, 0x02, 0x08, 0x05, 0x06, 0x05,
];

/// The same in the layout that is read, and no longer written.
const SECOND_SAVE_OF_OLD: [u8; 30] = [
    0x42, 0x47, 0x53, 0x31, 0, 0, 0, 0, 0, 0, 0, 0, 0x01, 0x01, 0, 0, 0, 0x02, 0, 0, 0x02, 0x01,
    0x03, 0x01, 0x06, 0x02, 0x08, 0x05, 0x06, 0x05,
];

/// Whether the next save has this slot, this number and this text.
pub(crate) fn is_next_save(
    referee: &Referee,
    slot: Slot,
    save: u32,
    text: &[u8],
) -> Result<bool, SaveRefusal> {
    let (next_slot, next_save, next_text) = referee.to_save()?;
    Ok((next_slot, next_save) == (slot, save) && next_text.as_slice() == text)
}

/// The slot, the number and the length of the next save, also where the memory for it is refused
/// once.
pub(crate) fn size_of_save(referee: &Referee) -> Result<(Slot, u32, usize), SaveRefusal> {
    let (slot, save, text) = match referee.to_save() {
        Err(SaveRefusal::Memory) => referee.to_save()?,
        other => other?,
    };
    Ok((slot, save, text.len()))
}

const SAVES: [Row; 6] = [
    Row::NextSave(Slot::Zero, 2, &SECOND_SAVE),
    // It changes nothing, so it gives the same again.
    Row::NextSave(Slot::Zero, 2, &SECOND_SAVE),
    Row::Saved(1),
    Row::Save(Slot::Zero, 2),
    Row::Saved(2),
    Row::Save(Slot::One, 3),
];

#[test]
fn saves(rt: HostRuntime) {
    check_rows(&rt, after_the_move(&rt), &SAVES);
}

/// The referee that goes on from these bytes in slot 0, where they are a saved text of match 1.
fn resumed(alloc: Global, bytes: &[u8]) -> Option<Referee> {
    match restore(alloc, bytes, &[], REFEREE, 1, 1, Rules::One) {
        Ok(Some(saved)) => Some(Referee::resume(alloc, saved)),
        _ => None,
    }
}

/// Whether a referee that goes on from a text of the second save has saved all of it, and saves it
/// again as the third, in the layout that is written.
fn goes_on_from_the_second_save(alloc: Global, text: &[u8]) -> bool {
    let mut third = SECOND_SAVE;
    third[18] = 3;
    match resumed(alloc, text) {
        Some(referee) => {
            referee.saved() == 2
                && referee.held().len() == 2
                && is_next_save(&referee, Slot::One, 3, &third) == Ok(true)
        }
        None => false,
    }
}

/// Whether a referee that goes on from the last save keeps all that it has, and saves no more.
fn goes_on_from_the_last_save(alloc: Global) -> bool {
    let mut last = SECOND_SAVE;
    last[15..19].copy_from_slice(&[0xFF; 4]);
    match resumed(alloc, &last) {
        Some(referee) => {
            size_of_save(&referee) == Err(SaveRefusal::SavesSpent) && referee.held().len() == 2
        }
        None => false,
    }
}

#[test]
fn resumes(rt: HostRuntime) {
    let second = goes_on_from_the_second_save(rt.alloc(), &SECOND_SAVE);
    check_row(&rt, "the second save", second);
    let of_old = goes_on_from_the_second_save(rt.alloc(), &SECOND_SAVE_OF_OLD);
    check_row(&rt, "the second save of old", of_old);
    check_row(&rt, "the last save", goes_on_from_the_last_save(rt.alloc()));
}
