//! A row of a game: what X does, in the left column, and what O does, in the right one.
ghost use Rattle.std.specs.Prelude.{◌≡◌, ◌++◌, ℕ, List, IfErr, IfOk, MatchOption};
ghost use Rattle.bg_mat.specs.Rows.RowFaults.{AreCellsFault, IsLastFault, IsRowFault};
ghost use Rattle.bg_mat.specs.Rows.Cells.{HasRowNumber, SkipsNumber, TellsCell, TellsCells, TellsRow};
ghost use Rattle.bg_mat.specs.Rows.Numbers.{BeginsNoDigit, IsDigits};
ghost use Rattle.bg_mat.specs.Rows.Words.{IsBlankText};

pub(crate) mod cell_texts;
pub(crate) mod cells;
pub(crate) mod crawford;
mod dice;
mod doubles;
pub(crate) mod headings;
pub(crate) mod numbers;
pub(crate) mod row_texts;
pub(crate) mod words;

use crate::MatFault;
use crate::rows::cells::{Cell, split_cell};
use crate::rows::numbers::read_number;
use crate::rows::words::{count_blanks, is_blank_text, split_blanks};

/// The least number of blanks before the first cell of a row that stands for an empty left column.
const LEFT_COLUMN: usize = 16;

/// The cells of a row. Either may be missing, or both.
#[derive(Debug, PartialEq, Eq, Drop)]
pub(crate) struct Row {
    pub(crate) left: Option<Cell>,
    pub(crate) right: Option<Cell>,
}

/// Returns the digits that a text begins with, and what follows them.
fn split_digits(text: &[u8]) -> (&[u8], &[u8])
    ensures { IsDigits result.0.now × (text.now ≡ result.0.now ++ result.1.now)
        × BeginsNoDigit result.1.now }
{
    match text.iter().position(|byte| !byte.is_ascii_digit()) {
        Some(end) => (&text[..end], &text[end..]),
        None => (text, &[]),
    }
}

/// Returns what follows the number of a row and its bracket, as in `12)`, where a line begins with
/// one.
fn behind_row_number(line: &[u8]) -> Option<&[u8]>
    ensures { MatchOption result ((rest : List ℕ) → HasRowNumber line.now rest → ⊥)
        (λ rest. HasRowNumber line.now rest.now) }
{
    let (digits, rest) = split_digits(split_blanks(line).1);
    let Some(rest) = rest.strip_prefix(b")") else {
        return None;
    };
    match read_number(digits) {
        Some(_) => Some(rest),
        None => None,
    }
}

/// Returns what follows the number of a row, or the text itself where it begins with none.
fn skip_row_number(line: &[u8]) -> &[u8]
    ensures { SkipsNumber line.now result.now }
{
    match behind_row_number(line) {
        Some(rest) => rest,
        None => line,
    }
}

/// Reads the only cell of a text: nothing may follow it.
fn read_cell(text: &[u8]) -> Result<Cell, MatFault>
    ensures told { IfOk result (λ cell. (rest : List ℕ) × TellsCell text.now cell rest × IsBlankText rest) }
    ensures fault { IfErr result (IsLastFault text.now) }
{
    let (cell, rest) = split_cell(text)?;
    if is_blank_text(rest) {
        Ok(cell)
    } else {
        Err(MatFault::NotALine)
    }
}

/// Reads the cells of a row from the text behind its number.
fn read_cells(text: &[u8]) -> Result<Row, MatFault>
    ensures told { IfOk result (λ row. TellsCells text.now row.left row.right) }
    ensures fault { IfErr result (AreCellsFault text.now) }
{
    if is_blank_text(text) {
        return Ok(Row {
            left: None,
            right: None,
        });
    }
    if count_blanks(text) >= LEFT_COLUMN {
        return Ok(Row {
            left: None,
            right: Some(read_cell(text)?),
        });
    }
    let (first, rest) = split_cell(text)?;
    if is_blank_text(rest) {
        return Ok(Row {
            left: Some(first),
            right: None,
        });
    }
    Ok(Row {
        left: Some(first),
        right: Some(read_cell(rest)?),
    })
}

/// Reads the cells of a row, which may begin with its number.
pub(crate) fn read_row(line: &[u8]) -> Result<Row, MatFault>
    ensures told { IfOk result (TellsRow line.now) }
    ensures fault { IfErr result (IsRowFault line.now) }
{
    read_cells(skip_row_number(line))
}
