//! The board as a list of points, as a player sees it.
ghost use Rattle.std.specs.Prelude.{◌≡◌, ◌≤◌, ◌++◌, OnOk, IsTrue};
ghost use Rattle.std.specs.List.{list_all};
ghost use Rattle.bg_text.specs.Boards.BoardText.{is_point, line_text};
ghost use Rattle.bg_table.specs.SeenBoards.{aside_words};
ghost use Rattle.bg_table.specs.DrawnBoards.{all_points_listed, listed_board, listed_point, listed_points};

use crate::board_lines::holder_of;
use crate::seen_boards::put_aside;
use bg_board::{BAR, Board, OFF, Player};
use bg_text::{letter, put_number, put_text};
use std::alloc::AllocError;

/// The points in the reader's numbering, from the highest down.
const POINTS_DOWN: [u8; 24] = [
    24, 23, 22, 21, 20, 19, 18, 17, 16, 15, 14, 13, 12, 11, 10, 9, 8, 7, 6, 5, 4, 3, 2, 1,
];

/// Appends the board as a list of the points that have checkers, as the reader sees it.
#[tactic(auto, unfolding(crate::specs::DrawnBoards::listed_board))]
pub(crate) fn put_listed_board(
    out: &mut Vec<u8>,
    board: &Board,
    reader: Player,
) -> Result<(), AllocError>
    ensures { OnOk result (out.new.items ≡ out.old.items ++ listed_board board.now reader) }
{
    put_all_points(out, board, reader)?;
    put_line_aside(out, "bar: ", board, reader, BAR)?;
    put_line_aside(out, "off: ", board, reader, OFF)
}

/// Appends the lines of all points that have checkers.
#[tactic(auto, unfolding(crate::specs::DrawnBoards::all_points_listed))]
fn put_all_points(out: &mut Vec<u8>, board: &Board, reader: Player) -> Result<(), AllocError>
    ensures { OnOk result (out.new.items ≡ out.old.items ++ all_points_listed board.now reader) }
{
    put_listed_points(out, board, reader, &POINTS_DOWN)
}

/// Appends a line that begins with some words and has the number of checkers that each player has
/// on one of their points.
fn put_line_aside(
    out: &mut Vec<u8>,
    words: &str,
    board: &Board,
    reader: Player,
    point: u8,
) -> Result<(), AllocError>
    requires { point ≤ 25 }
    ensures { OnOk result (out.new.items ≡ out.old.items ++ line_text (words.now ++ aside_words board.now reader point)) }
{
    put_text(out, words)?;
    put_aside(out, board, reader, point)?;
    put_text(out, "\n")
}

/// Appends the lines of those of some points that have checkers.
fn put_listed_points(
    out: &mut Vec<u8>,
    board: &Board,
    reader: Player,
    points: &[u8],
) -> Result<(), AllocError>
    requires { IsTrue (list_all is_point points.now) }
    ensures { OnOk result (out.new.items ≡ out.old.items ++ listed_points board.now reader points.now) }
{
    for point in points {
        put_listed_point(out, board, reader, *point)?;
    }
    Ok(())
}

/// Appends the line of a point, if it has checkers: its number, the letter of the player whose
/// checkers they are, and how many they are.
fn put_listed_point(
    out: &mut Vec<u8>,
    board: &Board,
    reader: Player,
    point: u8,
) -> Result<(), AllocError>
    requires { IsTrue (is_point point) }
    ensures { OnOk result (out.new.items ≡ out.old.items ++ listed_point board.now reader point) }
{
    let (player, checkers) = holder_of(board, reader, point);
    if checkers == 0 {
        return Ok(());
    }
    put_number(out, point.into())?;
    put_text(out, " ")?;
    put_text(out, letter(player))?;
    put_number(out, checkers.into())?;
    put_text(out, "\n")
}
