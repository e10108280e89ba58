//! The parts of a saved text by which a host finds the match it is of.
ghost use Rattle.std.specs.Prelude.{◌≡◌, Result};
ghost use Rattle.bg_party.specs.Claims.{claim_number};
ghost use Rattle.bg_wire.specs.Saved.SavedText.{parts_of};
ghost use Rattle.bg_c.specs.SavedTexts.{PeeksSave, peeked_fields};
ghost use Rattle.bg_c.specs.Sets.{Sets};
ghost use Rattle.bg_c.specs.declared.saved_texts.PeekedFields.{PeekedFields as Fields};
ghost use Rattle.bg_c.specs.declared.statuses.Status.{Status as AStatus};

use crate::packets::rules_code;
use crate::rooms::set;
use crate::statuses::Status;
use bg_match::{Action, Number};
use bg_wire::{LoadFault, Saved, load};
use std::alloc::Global;

/// The parts of a saved text, `bg_peeked` of the header.
#[repr(C)]
#[derive(Clone, Copy)]
pub struct PeekedFields {
    /// The number of the match.
    pub id: u64,
    /// The party: 0 the referee, 1 the seat of X, 2 the seat of O.
    pub party: u32,
    /// The length of the match.
    pub match_length: u32,
    /// The rules of the match: 1 or 2.
    pub rules: u32,
    /// The number of the save, from 1.
    pub save: u32,
    /// The number of its entries.
    pub entries: u32,
    /// The number of the last claim; 0 where there is none.
    pub claim: u32,
    /// 0.
    pub reserved: [u32; 4],
}

/// Returns the number of a claim, or 0 where there is none.
pub(crate) fn claim_number(claim: &Option<(Number, Action)>) -> u32
    ensures { result ≡ claim_number claim.now }
{
    match claim {
        Some((number, _)) => *number,
        None => 0,
    }
}

impl PeekedFields {
    /// Returns the parts of what is saved.
    fn of(saved: &Saved) -> PeekedFields
        ensures { result ≡ peeked_fields (parts_of saved.now) }
    {
        PeekedFields {
            id: saved.log.id(),
            party: u32::from(saved.party),
            match_length: u32::from(saved.log.length()),
            rules: rules_code(saved.log.rules()),
            save: saved.save,
            entries: saved.log.len(),
            claim: claim_number(&saved.claim),
            reserved: [0; 4],
        }
    }
}

/// Reads the parts of the save whose text the bytes are.
pub(crate) fn peek(alloc: Global, bytes: &[u8]) -> Result<PeekedFields, Status>
    ensures { PeeksSave bytes.now result }
{
    match load(alloc, bytes) {
        Ok(saved) => Ok(PeekedFields::of(&saved)),
        Err(LoadFault::Memory) => Err(Status::Memory),
        Err(_) => Err(Status::NotASave),
    }
}

/// Reads a saved text, to find the match that it is of. Returns BG_NOT_A_SAVE where the bytes are
/// no save, or BG_MEMORY; then `saved` is as before.
#[unsafe(no_mangle)]
pub extern "C" fn bg_saved_peek(alloc: Global, bytes: &[u8], saved: &mut PeekedFields) -> u32
    ensures { (made : Result Fields AStatus) × PeeksSave bytes.now made × Sets made saved.old result saved.new }
{
    let made = peek(alloc, bytes);
    set(made, saved)
}
