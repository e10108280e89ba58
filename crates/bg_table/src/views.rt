//! A player's view of a match.
ghost use Rattle.std.specs.Prelude.{◌≡◌, ◌++◌, IfOk, OnOk};
ghost use Rattle.bg_text.specs.Boards.BoardText.{line_text, phase_line};
ghost use Rattle.bg_table.specs.Views.{IsSeatView, cube_part, heading_text, table_text};

use crate::drawings::Drawing;
use crate::headings::{put_cube_line, put_game_line, put_pips_line, put_score_line};
use crate::last_entries::put_last;
use bg_board::Player;
use bg_match::{Record, Standing};
use bg_text::{put_phase, put_text};
use std::alloc::{AllocError, Global};

/// Returns a player's view of a match: the match and the game, the score, and the board from the
/// player's side and in their own numbering, in this drawing. Then both pip counts, the cube unless
/// the match is to one point, what the other player did last in this game, and what happens next.
///
/// # Errors
/// AllocError where there is no memory for it.
pub fn seat_view_text(
    alloc: Global,
    log: &Record,
    reader: Player,
    drawing: Drawing,
) -> Result<Vec<u8>, AllocError>
    ensures { IfOk result (λ text. IsSeatView log.now reader drawing text.items) }
{
    let standing = log.standing();
    let mut out = Vec::new(alloc);
    put_heading(&mut out, &standing, reader)?;
    put_table(&mut out, &standing, reader, drawing)?;
    put_last(&mut out, log, reader.opponent())?;
    put_next(&mut out, &standing)?;
    Ok(out)
}

/// Appends the match, the game and the score.
#[tactic(auto, unfolding(crate::specs::Views::heading_text))]
fn put_heading(out: &mut Vec<u8>, standing: &Standing, reader: Player) -> Result<(), AllocError>
    ensures { OnOk result (out.new.items ≡ out.old.items ++ heading_text standing.now reader) }
{
    put_game_line(out, standing)?;
    put_score_line(out, standing, reader)
}

/// Appends the board, the pip counts and the cube.
#[tactic(auto, unfolding(crate::specs::Views::table_text))]
fn put_table(
    out: &mut Vec<u8>,
    standing: &Standing,
    reader: Player,
    drawing: Drawing,
) -> Result<(), AllocError>
    ensures { OnOk result (out.new.items ≡ out.old.items ++ table_text standing.now reader drawing) }
{
    let board = standing.board();
    drawing.put_board(out, &board, reader)?;
    put_pips_line(out, &board, reader)?;
    put_cube_part(out, standing, reader)
}

/// Appends the line of the cube, unless the match is to one point.
fn put_cube_part(out: &mut Vec<u8>, standing: &Standing, reader: Player) -> Result<(), AllocError>
    ensures { OnOk result (out.new.items ≡ out.old.items ++ cube_part standing.now reader) }
{
    if standing.length() == 1 {
        return Ok(());
    }
    put_cube_line(out, standing, reader)
}

/// Appends the line with what happens next.
fn put_next(out: &mut Vec<u8>, standing: &Standing) -> Result<(), AllocError>
    ensures { OnOk result (out.new.items ≡ out.old.items ++ line_text (phase_line standing.now)) }
{
    put_phase(out, standing)?;
    put_text(out, "\n")
}
