//! A record written as a match file.
ghost use Rattle.std.specs.Prelude.{◌≡◌, ◌≤◌, ◌++◌, ◌∷◌, length, IfOk, OnOk, MatchOption, List};
ghost use Rattle.bg_mat.specs.Files.{Exports};
ghost use Rattle.bg_mat.specs.Rows.RowTexts.{Both, Alone, WritesRow, grouped, length_text, lines_text};
ghost use Rattle.bg_mat.specs.Rows.RowTexts.{next_row as next_row_number, share_row as cells_share_row};
ghost use Rattle.bg_mat.specs.declared.tellings.Telling.{Telling as Told};

use crate::rows::cells::Cell;
use crate::rows::row_texts::{put_alone, put_both, put_game};
use crate::tellings::Telling;
use crate::tellings::retelling::tellings_of;
use bg_board::Player;
use bg_match::Record;
use bg_text::{put_number, put_text};
use std::alloc::{AllocError, Global};

/// Returns the match file of a record (docs/FORMATS.md, "Match files of other programs"). X has the
/// left column, and each step is written separately. The file omits offers to resign that were not
/// accepted, the number of the match and its rules. The rows of a game are numbered from 1; those
/// after 9999 have no number.
///
/// # Errors
/// `AllocError` where memory runs out.
pub fn export_mat(alloc: Global, log: &Record) -> Result<Vec<u8>, AllocError>
    ensures { IfOk result (λ text. Exports log.now text.items) }
{
    let tellings = tellings_of(alloc, log)?;
    let mut out = Vec::new(alloc);
    put_length(&mut out, log.length())?;
    put_tellings(&mut out, tellings.as_slice())?;
    Ok(out)
}

/// Appends the line with the length of the match.
fn put_length(out: &mut Vec<u8>, length: u8) -> Result<(), AllocError>
    ensures { OnOk result (out.new.items ≡ out.old.items ++ length_text length) }
{
    put_text(out, " ")?;
    put_number(out, length.into())?;
    put_text(out, " point match\n")
}

/// Returns whether a cell of X shares its row with the cell of O after it. A win shares a row only
/// with a drop.
fn share_row(left: &Cell, right: &Cell) -> bool
    ensures { result ≡ cells_share_row left.now right.now }
{
    match (left, right) {
        (Cell::Drops, _) => true,
        (Cell::Wins(_), _) | (_, Cell::Wins(_)) => false,
        _ => true,
    }
}

/// Returns the cell of O that stands in the row of a cell of X: the next one, where these share it.
fn partner<'a>(player: Player, cell: &Cell, next: &'a [Telling]) -> Option<&'a Cell>
    ensures { MatchOption result
        (grouped (Telling.Does player cell.now ∷ next.now) ≡ Alone player cell.now ∷ grouped next.now)
        (λ right. (more : List Told) × (next.now ≡ Telling.Does Player.O right.now ∷ more)
        × (grouped (Telling.Does player cell.now ∷ next.now) ≡ Both cell.now right.now ∷ grouped more)) }
{
    match (player, next.first()) {
        (Player::X, Some(Telling::Does(Player::O, right))) if share_row(cell, right) => Some(right),
        _ => None,
    }
}

/// Returns the number of the next row. All rows after 9999 have the same.
fn next_row(row: u16) -> u16
    ensures { result ≡ next_row_number row }
{
    if row < 10000 { row + 1 } else { row }
}

/// Appends a row that begins with what a player does, and returns the rest.
fn put_row<'a>(
    out: &mut Vec<u8>,
    row: u16,
    player: Player,
    cell: &Cell,
    next: &'a [Telling],
) -> Result<&'a [Telling], AllocError>
    ensures { IfOk result
        (λ rest. WritesRow row (Telling.Does player cell.now ∷ next.now) rest.now out.old.items out.new.items
        × (length rest.now ≤ length next.now)) }
{
    match partner(player, cell, next) {
        Some(right) => {
            put_both(out, row, cell, right)?;
            Ok(&next[1..])
        }
        None => {
            put_alone(out, row, player, cell)?;
            Ok(next)
        }
    }
}

/// Appends the games and their rows.
fn put_tellings(out: &mut Vec<u8>, tellings: &[Telling]) -> Result<(), AllocError>
    ensures { OnOk result (out.new.items ≡ out.old.items ++ lines_text 1 (grouped tellings.now)) }
{
    let mut rest = tellings;
    let mut row = 1;
    while let Some((first, next)) = rest.split_first() {
        match first {
            Telling::Game(game) => {
                put_game(out, *game)?;
                row = 1;
                rest = next;
            }
            Telling::Does(player, cell) => {
                rest = put_row(out, row, *player, cell, next)?;
                row = next_row(row);
            }
        }
    }
    Ok(())
}
