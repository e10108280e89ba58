//! The texts of rows, and of the lines that head a game.
ghost use Rattle.std.specs.Prelude.{◌≡◌, ◌++◌, replicate, OnOk, codes};
ghost use Rattle.bg_mat.specs.Rows.RowTexts.{alone_text, blanks_before as blanks_before_number, both_text};
ghost use Rattle.bg_mat.specs.Rows.RowTexts.{game_text, in_column, padded, row_number, row_start, score_text};
ghost use Rattle.bg_mat.specs.Rows.CellTexts.{cell_text};
ghost use Rattle.std.specs.Fmt.{decimal};

use crate::rows::cell_texts::put_cell;
use crate::rows::cells::Cell;
use crate::tellings::GameStart;
use crate::writing::{pad, put_blanks};
use bg_board::Player;
use bg_text::{put_number, put_text};
use std::alloc::AllocError;

/// The width of the left column, in bytes.
const LEFT_WIDTH: usize = 28;

/// The width of the name and score of X, in bytes.
const NAME_WIDTH: usize = 31;

/// The greatest row number that is written.
const LAST_NUMBER: u16 = 9999;

/// Returns the number of blanks before the number of a row.
fn blanks_before(row: u16) -> usize
    ensures { result ≡ blanks_before_number row }
{
    if row < 10 {
        2
    } else if row < 100 {
        1
    } else {
        0
    }
}

/// Appends a number, aligned right in three places, and a bracket.
fn put_right(out: &mut Vec<u8>, row: u16) -> Result<(), AllocError>
    ensures { OnOk result (out.new.items
        ≡ out.old.items ++ (replicate (blanks_before_number row) 32 ++ decimal row ++ codes ") ")) }
{
    put_blanks(out, blanks_before(row))?;
    put_number(out, row.into())?;
    put_text(out, ") ")
}

/// Appends the number of a row.
fn put_row_number(out: &mut Vec<u8>, row: u16) -> Result<(), AllocError>
    ensures { OnOk result (out.new.items ≡ out.old.items ++ row_number row) }
{
    if row > LAST_NUMBER {
        put_blanks(out, 5)
    } else {
        put_right(out, row)
    }
}

/// Appends a cell, and blanks up to the right column.
fn put_left(out: &mut Vec<u8>, cell: &Cell) -> Result<(), AllocError>
    ensures { OnOk result (out.new.items ≡ out.old.items ++ padded 28 (cell_text cell.now)) }
{
    let start = out.len();
    put_cell(out, cell)?;
    pad(out, start, LEFT_WIDTH)
}

/// Appends a row of two cells.
pub(crate) fn put_both(
    out: &mut Vec<u8>,
    row: u16,
    left: &Cell,
    right: &Cell,
) -> Result<(), AllocError>
    ensures { OnOk result (out.new.items ≡ out.old.items ++ both_text row left.now right.now) }
{
    put_row_number(out, row)?;
    put_left(out, left)?;
    put_cell(out, right)?;
    put_text(out, "\n")
}

/// Appends the start of a row of one cell. The row of a win has no number.
fn put_start(out: &mut Vec<u8>, row: u16, cell: &Cell) -> Result<(), AllocError>
    ensures { OnOk result (out.new.items ≡ out.old.items ++ row_start row cell.now) }
{
    match cell {
        Cell::Wins(_) => put_blanks(out, 5),
        _ => put_row_number(out, row),
    }
}

/// Appends a cell that is alone in its row, in the player's column. Blanks fill the left column
/// behind a cell of X, unless that is a win.
fn put_in_column(out: &mut Vec<u8>, player: Player, cell: &Cell) -> Result<(), AllocError>
    ensures { OnOk result (out.new.items ≡ out.old.items ++ in_column player cell.now) }
{
    match (player, cell) {
        (Player::X, Cell::Wins(_)) => put_cell(out, cell),
        (Player::X, _) => put_left(out, cell),
        (Player::O, _) => {
            put_blanks(out, LEFT_WIDTH)?;
            put_cell(out, cell)
        }
    }
}

/// Appends a row of one cell.
pub(crate) fn put_alone(
    out: &mut Vec<u8>,
    row: u16,
    player: Player,
    cell: &Cell,
) -> Result<(), AllocError>
    ensures { OnOk result (out.new.items ≡ out.old.items ++ alone_text row player cell.now) }
{
    put_start(out, row, cell)?;
    put_in_column(out, player, cell)?;
    put_text(out, "\n")
}

/// Appends the name of a player, and their score.
fn put_score(out: &mut Vec<u8>, name: &str, score: u16) -> Result<(), AllocError>
    ensures { OnOk result (out.new.items ≡ out.old.items ++ score_text name.now score) }
{
    put_text(out, name)?;
    put_text(out, " : ")?;
    put_number(out, score.into())
}

/// Appends the name of X and their score, and blanks up to the name of O.
fn put_first_score(out: &mut Vec<u8>, score: u16) -> Result<(), AllocError>
    ensures { OnOk result (out.new.items ≡ out.old.items ++ padded 31 (score_text (codes "X") score)) }
{
    let start = out.len();
    put_score(out, "X", score)?;
    pad(out, start, NAME_WIDTH)
}

/// Appends the lines that head a game: a blank one, its number, and the scores before it.
pub(crate) fn put_game(out: &mut Vec<u8>, game: GameStart) -> Result<(), AllocError>
    ensures { OnOk result (out.new.items ≡ out.old.items ++ game_text game) }
{
    put_text(out, "\n Game ")?;
    put_number(out, game.number.into())?;
    put_text(out, "\n ")?;
    put_first_score(out, game.x)?;
    put_score(out, "O", game.o)?;
    put_text(out, "\n")
}
