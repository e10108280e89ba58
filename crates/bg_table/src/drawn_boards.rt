//! The board with its checkers stacked, as a player sees it.
ghost use Rattle.std.specs.Prelude.{◌≡◌, ◌++◌, OnOk, IsTrue};
ghost use Rattle.std.specs.List.{list_all};
ghost use Rattle.bg_text.specs.Boards.BoardText.{is_point};
ghost use Rattle.bg_table.specs.DrawnBoards.{drawn_board, drawn_lines};

use crate::board_lines::{LOWER, Line, UPPER};
use crate::seen_boards::put_aside_line;
use bg_board::{Board, Player};
use bg_text::put_text;
use std::alloc::AllocError;

/// The rows of the upper half, from its edge down, which are those of the lower half from its edge
/// up.
const FROM_EDGE: [u8; 5] = [1, 2, 3, 4, 5];

const TO_EDGE: [u8; 5] = [5, 4, 3, 2, 1];

/// Appends the board with its checkers stacked, as the reader sees it.
#[tactic(auto, unfolding(crate::specs::DrawnBoards::drawn_board))]
pub(crate) fn put_drawn_board(
    out: &mut Vec<u8>,
    board: &Board,
    reader: Player,
) -> Result<(), AllocError>
    ensures { OnOk result (out.new.items ≡ out.old.items ++ drawn_board board.now reader) }
{
    Line::Numbers.put(out, board, reader, &UPPER.0, &UPPER.1)?;
    put_rows(out, board, reader, &FROM_EDGE, &UPPER.0, &UPPER.1)?;
    put_text(out, "                          |\n")?;
    put_rows(out, board, reader, &TO_EDGE, &LOWER.0, &LOWER.1)?;
    Line::Numbers.put(out, board, reader, &LOWER.0, &LOWER.1)?;
    put_aside_line(out, board, reader)
}

/// Appends some rows of the points left and right of the bar.
fn put_rows(
    out: &mut Vec<u8>,
    board: &Board,
    reader: Player,
    rows: &[u8],
    left: &[u8],
    right: &[u8],
) -> Result<(), AllocError>
    requires left { IsTrue (list_all is_point left.now) }
    requires right { IsTrue (list_all is_point right.now) }
    ensures { OnOk result (out.new.items ≡ out.old.items
        ++ drawn_lines board.now reader rows.now left.now right.now) }
{
    for row in rows {
        Line::Row(*row).put(out, board, reader, left, right)?;
    }
    Ok(())
}
