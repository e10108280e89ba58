//! The contents of two saved files of a party.
ghost use Rattle.std.specs.Prelude.{◌≡◌, ◌++◌, ℕ, List, Some, IfOk, OnOk};
ghost use Rattle.bg_text.specs.Boards.BoardText.{line_text};
ghost use Rattle.bg_wire.specs.FaultWords.{numbered};
ghost use Rattle.bg_wire.specs.Saved.Restoring.{LoadsAs, newer};
ghost use Rattle.bg_wire.specs.Saved.SavedText.{parts_of};
ghost use Rattle.bg_reports.specs.Show.{IsHeld, IsShowText, IsBoardOf, claim_part as part_of_claim, file_line, held_of};
ghost use Rattle.bg_reports.specs.Show.{held_part, loaded_of, match_part, save_part};

use bg_match::{Action, Number};
use bg_text::{board_text, put_number, put_terms, put_text};
use bg_wire::{LoadFault, Saved, load};
use std::alloc::{AllocError, Global};

/// The contents of a file: what was saved, or why its bytes don't encode a save.
pub(crate) type Held = Result<Saved, LoadFault>;

/// Returns the report on two saved files of a party, and whether one loads (docs/FORMATS.md,
/// "Showing saved files"). It has a line for each file, and the board of what the two restore.
///
/// # Errors
/// AllocError where memory runs out.
pub fn show_text(alloc: Global, file0: &[u8], file1: &[u8]) -> Result<(Vec<u8>, bool), AllocError>
    ensures { IfOk result (λ shown. IsShowText file0.now file1.now shown.0.items shown.1) }
{
    let zero = hold(alloc, file0)?;
    let one = hold(alloc, file1)?;
    let mut text = Vec::new(alloc);
    put_file(&mut text, 0, &zero)?;
    put_file(&mut text, 1, &one)?;
    put_board(alloc, &mut text, &zero, &one)?;
    Ok((text, zero.is_ok() || one.is_ok()))
}

/// Reads the contents of a file.
pub(crate) fn hold(alloc: Global, bytes: &[u8]) -> Result<Held, AllocError>
    ensures holds { IfOk result (λ held. IsHeld bytes.now (held_of held)) }
    ensures loads { IfOk result (λ held. LoadsAs bytes.now (loaded_of held)) }
{
    match load(alloc, bytes) {
        Err(LoadFault::Memory) => Err(AllocError),
        held => Ok(held),
    }
}

/// Appends the line of a file.
fn put_file(out: &mut Vec<u8>, file: u8, held: &Held) -> Result<(), AllocError>
    ensures { OnOk result (out.new.items ≡ out.old.items ++ line_text (file_line file (held_of held.now))) }
{
    put_text(out, "file ")?;
    put_number(out, file.into())?;
    put_text(out, ": ")?;
    put_held(out, held)?;
    put_text(out, "\n")?;
    Ok(())
}

/// Appends the description of a file.
pub(crate) fn put_held(out: &mut Vec<u8>, held: &Held) -> Result<(), AllocError>
    ensures { OnOk result (out.new.items ≡ out.old.items ++ held_part (held_of held.now)) }
{
    match held {
        Ok(saved) => {
            put_match(out, saved)?;
            put_save(out, saved)
        }
        Err(why) => {
            let (words, number) = why.words();
            put_numbered(out, words, number)
        }
    }
}

/// Appends the party of the save, and its match.
fn put_match(out: &mut Vec<u8>, saved: &Saved) -> Result<(), AllocError>
    ensures { OnOk result (out.new.items ≡ out.old.items ++ match_part (parts_of saved.now)) }
{
    put_text(out, "party ")?;
    put_number(out, saved.party.into())?;
    put_text(out, " match ")?;
    put_number(out, saved.log.id())?;
    put_text(out, " ")?;
    put_terms(out, saved.log.length(), saved.log.rules())
}

/// Appends the number of the save, and its contents.
fn put_save(out: &mut Vec<u8>, saved: &Saved) -> Result<(), AllocError>
    ensures { OnOk result (out.new.items ≡ out.old.items ++ save_part (parts_of saved.now)) }
{
    put_text(out, " save ")?;
    put_number(out, saved.save.into())?;
    put_text(out, " entries ")?;
    put_number(out, saved.log.len().into())?;
    put_claim(out, &saved.claim)
}

/// Appends the number of the claim, if one is kept.
fn put_claim(out: &mut Vec<u8>, claim: &Option<(Number, Action)>) -> Result<(), AllocError>
    ensures { OnOk result (out.new.items ≡ out.old.items ++ part_of_claim claim.now) }
{
    match claim {
        None => Ok(()),
        Some((number, _)) => {
            put_text(out, " claim ")?;
            put_number(out, (*number).into())
        }
    }
}

/// Appends some words, and the number behind them, if there is one.
pub(crate) fn put_numbered(
    out: &mut Vec<u8>,
    words: &str,
    number: Option<u64>,
) -> Result<(), AllocError>
    ensures { OnOk result (out.new.items ≡ out.old.items ++ numbered words.now number) }
{
    put_text(out, words)?;
    match number {
        None => Ok(()),
        Some(number) => put_number(out, number),
    }
}

/// Appends the board of the newer file that loads, if there is one.
fn put_board(alloc: Global, out: &mut Vec<u8>, zero: &Held, one: &Held) -> Result<(), AllocError>
    ensures { OnOk result ((board : List ℕ) × IsBoardOf (newer (loaded_of zero.now) (loaded_of one.now)) board
        × (out.new.items ≡ out.old.items ++ board)) }
{
    match (zero, one) {
        (Ok(zero), Ok(one)) if zero.save < one.save => put_board_of(alloc, out, one),
        (Ok(zero), _) => put_board_of(alloc, out, zero),
        (Err(_), Ok(one)) => put_board_of(alloc, out, one),
        (Err(_), Err(_)) => Ok(()),
    }
}

/// Appends the board of a saved match.
pub(crate) fn put_board_of(
    alloc: Global,
    out: &mut Vec<u8>,
    saved: &Saved,
) -> Result<(), AllocError>
    ensures { OnOk result ((board : List ℕ) × IsBoardOf (Some (parts_of saved.now)) board
        × (out.new.items ≡ out.old.items ++ board)) }
{
    let board = board_text(alloc, &saved.log.standing())?;
    out.extend_from_slice(&board)
}
