//! The lines of saved files, and of what a party holds.
ghost use Rattle.std.specs.Prelude.{◌≡◌, ◌++◌, ℕ, List, OnOk};
ghost use Rattle.std.specs.Fmt.{decimal};
ghost use Rattle.std.specs.Option.{option_copied};
ghost use Rattle.bg_text.specs.Boards.BoardText.{line_text};
ghost use Rattle.bg_wire.specs.Saved.Restoring.{parts_in};
ghost use Rattle.bg_wire.specs.Saved.SavedText.{parts_of};
ghost use Rattle.bg_reports.specs.Folder.{IsHolding, IsPartyLine, compared_words, slot_line as line_of_slot, slot_lines};
ghost use Rattle.bg_reports.specs.Show.{held_of};

use crate::folders::comparing::{Compared, compare};
use crate::folders::{HeldSlots, SlotBytes};
use crate::showing::{Held, put_held, put_numbered};
use bg_match::Number;
use bg_text::{put_number, put_text};
use bg_wire::Saved;
use std::alloc::AllocError;

/// Appends the lines of the two files of a party.
pub(super) fn put_slots(
    out: &mut Vec<u8>,
    party: u8,
    slots: &SlotBytes,
    held: &HeldSlots,
) -> Result<(), AllocError>
    ensures { OnOk result (out.new.items ≡ out.old.items ++ slot_lines party slots.now.zero.items slots.now.one.items
        (held_of held.now.zero) (held_of held.now.one)) }
{
    put_slot(out, party, 0, &slots.zero, &held.zero)?;
    put_slot(out, party, 1, &slots.one, &held.one)
}

/// Appends the line of a file.
fn put_slot(
    out: &mut Vec<u8>,
    party: u8,
    slot: u8,
    bytes: &[u8],
    held: &Held,
) -> Result<(), AllocError>
    ensures { OnOk result (out.new.items
        ≡ out.old.items ++ line_text (line_of_slot party slot bytes.now (held_of held.now))) }
{
    put_text(out, "party-")?;
    put_number(out, party.into())?;
    put_text(out, ".")?;
    put_number(out, slot.into())?;
    put_text(out, ": ")?;
    if bytes.is_empty() {
        put_text(out, "empty")?;
    } else {
        put_held(out, held)?;
    }
    put_text(out, "\n")
}

/// Appends the line of a party with this save of its own, compared with the party that holds most.
pub(super) fn put_party(
    out: &mut Vec<u8>,
    party: u8,
    saved: Option<&Saved>,
    leader: Option<&Saved>,
) -> Result<(), AllocError>
    ensures { OnOk result ((line : List ℕ)
        × IsPartyLine party (parts_in (option_copied saved.entry)) (parts_in (option_copied leader.entry)) line
        × (out.new.items ≡ out.old.items ++ line_text line)) }
{
    put_text(out, "party ")?;
    put_number(out, party.into())?;
    put_text(out, ": ")?;
    match saved {
        None => put_text(out, "no save")?,
        Some(saved) => put_entries(out, saved, leader)?,
    }
    put_text(out, "\n")
}

/// Appends the number of entries of a save, and how it compares with that of the party that holds
/// most.
fn put_entries(out: &mut Vec<u8>, saved: &Saved, leader: Option<&Saved>) -> Result<(), AllocError>
    ensures { OnOk result ((line : List ℕ) × IsHolding (parts_of saved.now) (parts_in (option_copied leader.entry)) line
        × (out.new.items ≡ out.old.items ++ line)) }
{
    put_number(out, saved.log.len().into())?;
    put_text(out, " entries")?;
    match leader {
        None => Ok(()),
        Some(leader) => put_compared(out, compare(saved, leader), leader.party),
    }
}

/// Appends how a match compares with that of another party.
fn put_compared(out: &mut Vec<u8>, compared: Compared, other: u8) -> Result<(), AllocError>
    ensures { OnOk result (out.new.items ≡ out.old.items ++ compared_words compared other) }
{
    match compared {
        Compared::OtherMatch => {
            put_numbered(out, " of another match than party ", Some(other.into()))
        }
        Compared::Differs(number) => {
            put_beside(
                out,
                ", entry ",
                number,
                " is another than that of party ",
                other,
            )
        }
        Compared::Behind(0) => Ok(()),
        Compared::Behind(entries) => put_beside(out, ", ", entries, " behind party ", other),
    }
}

/// Appends words with a number behind them, and words with a party behind them.
fn put_beside(
    out: &mut Vec<u8>,
    words: &str,
    number: Number,
    others: &str,
    party: u8,
) -> Result<(), AllocError>
    ensures { OnOk result (out.new.items
        ≡ out.old.items ++ words.now ++ decimal number ++ others.now ++ decimal party) }
{
    put_text(out, words)?;
    put_number(out, number.into())?;
    put_text(out, others)?;
    put_number(out, party.into())
}
