//! The contents of a referee's two saves, and their soundness.

use crate::list::examining::Soundness;
use bg_match::{Number, Record, Standing};
use bg_system::{MatchFile, SlotName};
use bg_wire::{FIRST_SAVE, LoadFault, REFEREE, RestoreRefusal, Saved, Slot, load, restore};
use std::alloc::{AllocError, Global};

/// The contents of a referee's saves.
#[derive(Drop)]
pub(crate) struct Held {
    pub(crate) standing: Option<Standing>,
    pub(crate) entries: Number,
    pub(crate) soundness: Soundness,
    /// The fault, where they are not sound.
    pub(crate) fault: String,
}

impl Held {
    /// Returns the result where nothing is known but a fault.
    pub(crate) fn faulty(soundness: Soundness, fault: String) -> Held {
        Held {
            standing: None,
            entries: 0,
            soundness,
            fault,
        }
    }

    /// Returns the contents of saves, which are sound where there is no fault.
    fn with(standing: Option<Standing>, entries: Number, fault: String) -> Held {
        Held {
            standing,
            entries,
            soundness: if fault.is_empty() {
                Soundness::Sound
            } else {
                Soundness::Unsound
            },
            fault,
        }
    }
}

/// Returns what these two saves hold of a match.
pub(crate) fn held_in(
    alloc: Global,
    table: &MatchFile,
    zero: &[u8],
    one: &[u8],
) -> Result<Held, AllocError> {
    let (length, rules) = (table.terms.length, table.terms.rules);
    match restore(alloc, zero, one, REFEREE, table.id, length, rules) {
        Ok(Some(saved)) => held_by(alloc, &saved, zero, one),
        Ok(None) => held_at_start(alloc, table, one),
        Err(RestoreRefusal::Damaged) => Ok(Held::with(None, 0, faults_of(alloc, zero, one)?)),
        Err(RestoreRefusal::WrongMatch) => {
            let fault = String::from_str(alloc, "the saves are of another match")?;
            Ok(Held::with(None, 0, fault))
        }
        Err(RestoreRefusal::Memory) => Err(AllocError),
    }
}

/// Returns what two saves hold, of which this one counts.
fn held_by(alloc: Global, saved: &Saved, zero: &[u8], one: &[u8]) -> Result<Held, AllocError> {
    let fault = fault_beside(alloc, saved, zero, one)?;
    Ok(Held::with(Some(saved.log.standing()), saved.log.len(), fault))
}

/// Returns what is held of a match of which nothing was saved, but for a fault of its first save.
fn held_at_start(alloc: Global, table: &MatchFile, one: &[u8]) -> Result<Held, AllocError> {
    let fault = if one.is_empty() {
        String::new(alloc)
    } else {
        fault_of(alloc, Slot::One, one)?
    };
    let standing = match Record::new(alloc, table.id, table.terms.length, table.terms.rules) {
        Ok(record) => Some(record.standing()),
        Err(_) => None,
    };
    Ok(Held::with(standing, 0, fault))
}

/// Returns what is wrong with two saves.
fn faults_of(alloc: Global, zero: &[u8], one: &[u8]) -> Result<String, AllocError> {
    let zero = fault_of(alloc, Slot::Zero, zero)?;
    let one = fault_of(alloc, Slot::One, one)?;
    format!(in alloc; "{zero}, {one}")
}

/// Returns what is wrong with the save beside the one that counts. It should be the one before, and
/// is the next one where writing that was cut short. Returns an empty text where nothing is wrong.
fn fault_beside(
    alloc: Global,
    saved: &Saved,
    zero: &[u8],
    one: &[u8],
) -> Result<String, AllocError> {
    let (slot, bytes) = if saved.save % 2 == 0 {
        (Slot::One, one)
    } else {
        (Slot::Zero, zero)
    };
    if saved.save == FIRST_SAVE && bytes.is_empty() {
        return Ok(String::new(alloc));
    }
    fault_of(alloc, slot, bytes)
}

/// Returns why the bytes of a slot don't encode a save, behind the slot's name; an empty text where
/// they do.
fn fault_of(alloc: Global, slot: Slot, bytes: &[u8]) -> Result<String, AllocError> {
    let name = SlotName {
        party: REFEREE,
        slot,
    };
    if bytes.is_empty() {
        return format!(in alloc; "{name} is damaged: empty");
    }
    match load(alloc, bytes) {
        Ok(_) => Ok(String::new(alloc)),
        Err(LoadFault::Memory) => Err(AllocError),
        Err(why) => format!(in alloc; "{name} is damaged: {why}"),
    }
}
