//! The records of the parties of a world at the end of a run.
ghost use Rattle.std.specs.Prelude.{◌≡◌, ◌++◌, List, ℕ, IfOk, OnOk, option_copied};
ghost use Rattle.bg_text.specs.Boards.BoardText.{line_text};
ghost use Rattle.bg_world.specs.Texts.FinalText.{IsBoardOf, IsFinalText, held_part, parties_text, party_line};
ghost use Rattle.bg_protocol.specs.Worlds.Views.{parties};
ghost use Rattle.bg_protocol.specs.Worlds.World.{view_of};

use crate::{Keeper, Link, World};
use bg_match::Record;
use bg_text::{board_text, put_number, put_text};
use bg_wire::REFEREE;
use std::alloc::{AllocError, Global};

/// Returns a line for each party of a world, in rising order, and the board of the referee's record
/// where the referee is up (docs/FORMATS.md, "Final text"). It asks the world's allocator for its
/// room.
///
/// # Errors
/// `AllocError` where memory runs out.
pub fn final_text<L: Link, K: Keeper>(world: &World<L, K>) -> Result<Vec<u8>, AllocError>
    ensures { IfOk result (λ text. IsFinalText (view_of L.Link K.Keeper world.now) text.items) }
{
    let mut text = Vec::new(world.allocator());
    put_parties(&mut text, world)?;
    put_board(world.allocator(), &mut text, world.held(REFEREE))?;
    Ok(text)
}

/// Adds a line for each party.
fn put_parties<L: Link, K: Keeper>(out: &mut Vec<u8>, world: &World<L, K>) -> Result<(), AllocError>
    ensures { OnOk result (out.new.items ≡ out.old.items ++ parties_text (view_of L.Link K.Keeper world.now)
        (parties (view_of L.Link K.Keeper world.now))) }
{
    for party in 0..world.parties() {
        put_party(out, party as u8, world.held(party as u8))?;
    }
    Ok(())
}

/// Adds the line of a party that holds this record, or is down.
fn put_party(out: &mut Vec<u8>, party: u8, held: Option<&Record>) -> Result<(), AllocError>
    ensures { OnOk result (out.new.items ≡ out.old.items ++ line_text (party_line party (option_copied held.entry))) }
{
    put_text(out, "party ")?;
    put_number(out, party.into())?;
    put_text(out, ": ")?;
    put_held(out, held)?;
    put_text(out, "\n")
}

/// Adds the number of entries that a party holds, or that it is down.
fn put_held(out: &mut Vec<u8>, held: Option<&Record>) -> Result<(), AllocError>
    ensures { OnOk result (out.new.items ≡ out.old.items ++ held_part (option_copied held.entry)) }
{
    match held {
        None => put_text(out, "down"),
        Some(log) => {
            put_number(out, log.len().into())?;
            put_text(out, " entries")
        }
    }
}

/// Adds the board of a record, where there is one.
fn put_board(alloc: Global, out: &mut Vec<u8>, held: Option<&Record>) -> Result<(), AllocError>
    ensures { OnOk result ((board : List ℕ) × IsBoardOf (option_copied held.entry) board
        × (out.new.items ≡ out.old.items ++ board)) }
{
    match held {
        None => Ok(()),
        Some(log) => {
            let board = board_text(alloc, &log.standing())?;
            out.extend_from_slice(&board)
        }
    }
}
