//! A cell of a row: what one player does.
ghost use Rattle.std.specs.Prelude.{◌≡◌, ◌↔◌, ℕ, List, IfErr, IfOk, IsTrue, MatchOption};
ghost use Rattle.bg_mat.specs.Rows.Cells.{AddsMovement, EndsMovement, HasDice, TellsCell, TellsPoints, TellsWin};
ghost use Rattle.bg_mat.specs.Rows.RowFaults.{HasTooMany, IsBeaver, IsBeaverWord, IsCellFault, IsTooLong};
ghost use Rattle.bg_mat.specs.declared.rows.cells.Win.{Win as WinOf};

use crate::MatFault;
use crate::movements::legs::{LegFault, Legs, add_word};
use crate::rows::dice::{skip_cannot_move, skip_unknown, split_dice};
use crate::rows::doubles::split_double;
use crate::rows::numbers::read_number;
use crate::rows::words::{is_either, is_points, skip_either, skip_word, split_word};
use arrayvec::ArrayVec;
use bg_turns::Dice;

/// What one player does.
#[derive(Debug, PartialEq, Eq, Drop)]
pub(crate) enum Cell {
    /// They roll these dice, and move.
    Turn(Dice, Legs),
    /// They roll these dice, and can't move.
    CannotMove(Dice),
    /// They roll these dice, and it is not known what they move.
    Unknown(Dice),
    /// They double. The number is the new value of the cube, where the file states it.
    Doubles(Option<u16>),
    /// They take the cube.
    Takes,
    /// They drop the double, and so the game.
    Drops,
    /// They win a number of points.
    Wins(Win),
}

/// A win.
#[derive(Clone, Copy, Debug, PartialEq, Eq)]
pub(crate) struct Win {
    pub(crate) points: u16,
    /// Whether the file states that the win ends the match. It may omit that.
    pub(crate) ends_match: bool,
}

/// Appends the legs of the movement that a text begins with, up to the first word that describes
/// none, and returns what follows.
fn split_movement<'a>(legs: &mut Legs, text: &'a [u8]) -> Result<&'a [u8], MatFault>
    ensures told { IfOk result (λ rest. AddsMovement text.now rest.now legs.old.items legs.new.items) }
    ensures all { IfOk result (λ rest. EndsMovement rest.now) }
    ensures fault { IfErr result (λ why. (why ≡ MatFault.TooManySteps) × HasTooMany text.now legs.old.items) }
{
    let Some((word, rest)) = split_word(text) else {
        return Ok(text);
    };
    match add_word(legs, word) {
        Ok(()) => split_movement(legs, rest),
        Err(LegFault::NotAMovement) => Ok(text),
        Err(LegFault::TooMany) => Err(MatFault::TooManySteps),
    }
}

/// Returns the points that a text begins with, and what follows.
fn split_points(text: &[u8]) -> Option<(u16, &[u8])>
    ensures { MatchOption result ((points : ℕ) (rest : List ℕ) → TellsPoints text.now points rest → ⊥)
        (λ found. TellsPoints text.now found.0 found.1.now) }
{
    let (number, rest) = split_word(text)?;
    let points = read_number(number)?;
    let (word, rest) = split_word(rest)?;
    if is_points(word) {
        Some((points, rest))
    } else {
        None
    }
}

/// Returns the win that a text begins with, and what follows.
fn split_win(text: &[u8]) -> Option<(Win, &[u8])>
    ensures { MatchOption result ((win : WinOf) (rest : List ℕ) → TellsWin text.now win rest → ⊥)
        (λ found. TellsWin text.now found.0 found.1.now) }
{
    let (points, rest) = split_points(skip_either(text, b"Win", b"Wins")?)?;
    let Some(end) = skip_word(rest, b"and") else {
        let ends_match = false;
        return Some((Win { points, ends_match }, rest));
    };
    let end = skip_word(skip_word(end, b"the")?, b"match")?;
    let ends_match = true;
    Some((Win { points, ends_match }, end))
}

/// Returns the dice that a text begins with and what the player moves, as one cell, and what
/// follows. `None` where the text begins with no dice.
fn split_turn(text: &[u8]) -> Result<Option<(Cell, &[u8])>, MatFault>
    ensures told { IfOk result (λ found. MatchOption found (HasDice text.now → ⊥)
        (λ parts. TellsCell text.now parts.0 parts.1.now)) }
    ensures fault { IfErr result (λ why. (why ≡ MatFault.TooManySteps) × IsTooLong text.now) }
{
    let Some((dice, text)) = split_dice(text) else {
        return Ok(None);
    };
    if let Some(rest) = skip_cannot_move(text) {
        return Ok(Some((Cell::CannotMove(dice), rest)));
    }
    if let Some(rest) = skip_unknown(text) {
        return Ok(Some((Cell::Unknown(dice), rest)));
    }
    let mut legs = ArrayVec::new();
    let rest = split_movement(&mut legs, text)?;
    let _legs = legs.as_slice();
    Ok(Some((Cell::Turn(dice, legs), rest)))
}

/// Returns whether a word is the double of a double, which the match rules don't have.
fn is_beaver(word: &[u8]) -> bool
    ensures { IsTrue result ↔ IsBeaverWord word.now }
{
    is_either(word, b"Beaver", b"Beavers") || is_either(word, b"Raccoon", b"Raccoons")
}

/// Returns whether a text begins with such a word.
fn begins_with_beaver(text: &[u8]) -> bool
    ensures { IsTrue result ↔ IsBeaver text.now }
{
    match split_word(text) {
        Some((word, _)) => is_beaver(word),
        None => false,
    }
}

/// Returns the cell that a text begins with, and what follows it.
pub(crate) fn split_cell(text: &[u8]) -> Result<(Cell, &[u8]), MatFault>
    ensures told { IfOk result (λ parts. TellsCell text.now parts.0 parts.1.now) }
    ensures fault { IfErr result (IsCellFault text.now) }
{
    if let Some(parts) = split_turn(text)? {
        return Ok(parts);
    }
    if let Some((shows, rest)) = split_double(text) {
        return Ok((Cell::Doubles(shows), rest));
    }
    if let Some((win, rest)) = split_win(text) {
        return Ok((Cell::Wins(win), rest));
    }
    if let Some(rest) = skip_either(text, b"Take", b"Takes") {
        return Ok((Cell::Takes, rest));
    }
    if let Some(rest) = skip_either(text, b"Drop", b"Drops") {
        return Ok((Cell::Drops, rest));
    }
    if begins_with_beaver(text) {
        return Err(MatFault::Beaver);
    }
    Err(MatFault::NotALine)
}
