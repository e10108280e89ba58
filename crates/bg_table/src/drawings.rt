//! The ways to draw the board on a screen.
ghost use Rattle.std.specs.Prelude.{◌≡◌, ◌++◌, OnOk};
ghost use Rattle.bg_table.specs.DrawnBoards.{board_drawn, drawing_for};

use crate::drawn_boards::put_drawn_board;
use crate::listed_boards::put_listed_board;
use crate::seen_boards::put_seen_board;
use bg_board::{Board, Player};
use std::alloc::AllocError;

/// Number of columns from which the board has its seven lines.
const COLUMNS_FOR_ROWS: usize = 50;

/// Number of columns from which checkers are stacked.
const COLUMNS_FOR_STACKS: usize = 80;

/// The way to draw the board on a screen.
#[derive(Clone, Copy, Debug, PartialEq, Eq)]
pub enum Drawing {
    /// Checkers are stacked.
    Stacks,
    /// Each half is a row of numbers of checkers.
    Rows,
    /// A list of the points that have checkers.
    Points,
}

impl Drawing {
    /// Returns the drawing for a screen of this number of columns: `Stacks` from 80 on, `Rows` from
    /// 50 on, and `Points` below that.
    pub fn fitting(columns: usize) -> Drawing
        ensures { result ≡ drawing_for columns }
    {
        if columns < COLUMNS_FOR_ROWS {
            Drawing::Points
        } else if columns < COLUMNS_FOR_STACKS {
            Drawing::Rows
        } else {
            Drawing::Stacks
        }
    }

    /// Appends the board in this drawing, as the reader sees it.
    pub(crate) fn put_board(
        self,
        out: &mut Vec<u8>,
        board: &Board,
        reader: Player,
    ) -> Result<(), AllocError>
        ensures { OnOk result (out.new.items ≡ out.old.items ++ board_drawn self board.now reader) }
    {
        match self {
            Drawing::Stacks => put_drawn_board(out, board, reader),
            Drawing::Rows => put_seen_board(out, board, reader),
            Drawing::Points => put_listed_board(out, board, reader),
        }
    }
}
