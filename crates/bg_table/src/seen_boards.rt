//! The board as a player sees it, in their own numbering.
ghost use Rattle.std.specs.Prelude.{◌≡◌, ◌≤◌, ◌++◌, OnOk};
ghost use Rattle.bg_text.specs.Boards.BoardText.{line_text};
ghost use Rattle.bg_table.specs.SeenBoards.{aside_words, checkers_words, seen_aside, seen_board};

use crate::board_lines::{LOWER, Line, UPPER};
use bg_board::{BAR, Board, OFF, Player};
use bg_text::{letter, put_number, put_text};
use std::alloc::AllocError;

/// Appends the board, in five lines, as the reader sees it.
#[tactic(auto, unfolding(crate::specs::SeenBoards::seen_board))]
pub(crate) fn put_seen_board(
    out: &mut Vec<u8>,
    board: &Board,
    reader: Player,
) -> Result<(), AllocError>
    ensures { OnOk result (out.new.items ≡ out.old.items ++ seen_board board.now reader) }
{
    Line::Numbers.put(out, board, reader, &UPPER.0, &UPPER.1)?;
    Line::Counts.put(out, board, reader, &UPPER.0, &UPPER.1)?;
    Line::Counts.put(out, board, reader, &LOWER.0, &LOWER.1)?;
    Line::Numbers.put(out, board, reader, &LOWER.0, &LOWER.1)?;
    put_aside_line(out, board, reader)
}

/// Appends the line with the checkers on the bar and those borne off.
#[tactic(auto, unfolding(crate::specs::SeenBoards::seen_aside))]
pub(crate) fn put_aside_line(
    out: &mut Vec<u8>,
    board: &Board,
    reader: Player,
) -> Result<(), AllocError>
    ensures { OnOk result (out.new.items ≡ out.old.items ++ line_text (seen_aside board.now reader)) }
{
    put_text(out, "bar: ")?;
    put_aside(out, board, reader, BAR)?;
    put_text(out, "; off: ")?;
    put_aside(out, board, reader, OFF)?;
    put_text(out, "\n")
}

/// Appends the number of checkers that each player has on one of their points, the reader's first.
#[tactic(auto, unfolding(crate::specs::SeenBoards::aside_words))]
pub(crate) fn put_aside(
    out: &mut Vec<u8>,
    board: &Board,
    reader: Player,
    point: u8,
) -> Result<(), AllocError>
    requires { point ≤ 25 }
    ensures { OnOk result (out.new.items ≡ out.old.items ++ aside_words board.now reader point) }
{
    put_checkers(out, board, reader, point)?;
    put_text(out, ", ")?;
    put_checkers(out, board, reader.opponent(), point)
}

/// Appends the number of checkers that a player has on one of their points.
#[tactic(auto, unfolding(crate::specs::SeenBoards::checkers_words))]
fn put_checkers(
    out: &mut Vec<u8>,
    board: &Board,
    player: Player,
    point: u8,
) -> Result<(), AllocError>
    requires { point ≤ 25 }
    ensures { OnOk result (out.new.items ≡ out.old.items ++ checkers_words board.now player point) }
{
    put_text(out, letter(player))?;
    put_text(out, " ")?;
    put_number(out, board.count(player, point).into())
}
