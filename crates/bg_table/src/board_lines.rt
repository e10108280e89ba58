//! The lines of the board as a player sees it, in their own numbering.
ghost use Rattle.std.specs.Prelude.{◌≡◌, ◌++◌, ◌-◌, replicate, OnOk, IsTrue};
ghost use Rattle.std.specs.List.{list_all};
ghost use Rattle.std.specs.Fmt.{decimal};
ghost use Rattle.bg_text.specs.Boards.BoardText.{in_four, is_point, line_text};
ghost use Rattle.bg_table.specs.BoardLines.{board_line, cells, held, holder, shown, stacked};

use bg_board::{BAR, Board, Player};
use bg_text::{letter, put_text};
use std::alloc::AllocError;

/// The points of the upper half of the board, left and right of the bar, in the reader's numbering.
pub(crate) const UPPER: ([u8; 6], [u8; 6]) = ([13, 14, 15, 16, 17, 18], [19, 20, 21, 22, 23, 24]);

/// The points of the lower half of the board, left and right of the bar, in the reader's numbering.
pub(crate) const LOWER: ([u8; 6], [u8; 6]) = ([12, 11, 10, 9, 8, 7], [6, 5, 4, 3, 2, 1]);

/// The last row of a stack, which shows the number of checkers where there are more.
const LAST_ROW: u8 = 5;

/// A line of the board, by what it shows of each point.
#[derive(Clone, Copy)]
pub(crate) enum Line {
    /// The number of the point.
    Numbers,
    /// The checkers on it, as a letter and their number.
    Counts,
    /// This row of the stack of checkers on it, counted from the edge of the board.
    Row(u8),
}

impl Line {
    /// Appends the line for some points left and right of the bar.
    #[tactic(auto, unfolding(crate::specs::BoardLines::board_line))]
    pub(crate) fn put(
        self,
        out: &mut Vec<u8>,
        board: &Board,
        reader: Player,
        left: &[u8],
        right: &[u8],
    ) -> Result<(), AllocError>
        requires left { IsTrue (list_all is_point left.now) }
        requires right { IsTrue (list_all is_point right.now) }
        ensures { OnOk result (out.new.items ≡ out.old.items
            ++ line_text (board_line self board.now reader left.now right.now)) }
    {
        self.put_cells(out, board, reader, left)?;
        put_text(out, "  |")?;
        self.put_cells(out, board, reader, right)?;
        put_text(out, "\n")
    }

    /// Appends what it shows of some points.
    fn put_cells(
        self,
        out: &mut Vec<u8>,
        board: &Board,
        reader: Player,
        points: &[u8],
    ) -> Result<(), AllocError>
        requires { IsTrue (list_all is_point points.now) }
        ensures { OnOk result (out.new.items ≡ out.old.items ++ cells self board.now reader points.now) }
    {
        for point in points {
            self.put_cell(out, board, reader, *point)?;
        }
        Ok(())
    }

    /// Appends what it shows of a point.
    fn put_cell(
        self,
        out: &mut Vec<u8>,
        board: &Board,
        reader: Player,
        point: u8,
    ) -> Result<(), AllocError>
        requires { IsTrue (is_point point) }
        ensures { OnOk result (out.new.items ≡ out.old.items ++ in_four (shown self board.now reader point)) }
    {
        let (player, checkers) = holder_of(board, reader, point);
        match self {
            Line::Numbers => put_in_four(out, "", point.into()),
            Line::Counts if checkers > 0 => put_in_four(out, letter(player), checkers.into()),
            Line::Counts => put_text(out, "   ."),
            Line::Row(row) => put_stacked(out, letter(player), checkers, row),
        }
    }
}

/// Returns the player whose checkers are on the reader's point, and their number. Where there are
/// none, returns the other player.
pub(crate) fn holder_of(board: &Board, reader: Player, point: u8) -> (Player, u8)
    requires { IsTrue (is_point point) }
    ensures player { result.0 ≡ holder board.now reader point }
    ensures checkers { result.1 ≡ held board.now reader point }
{
    let own = board.count(reader, point);
    if own > 0 {
        (reader, own)
    } else {
        let other = reader.opponent();
        (other, board.count(other, BAR - point))
    }
}

/// Appends what a stack of this number of checkers shows in a row.
fn put_stacked(out: &mut Vec<u8>, mark: &str, checkers: u8, row: u8) -> Result<(), AllocError>
    ensures { OnOk result (out.new.items ≡ out.old.items ++ in_four (stacked mark.now checkers row)) }
{
    if checkers < row {
        put_text(out, if row == 1 { "   ." } else { "    " })
    } else if row == LAST_ROW && row < checkers {
        put_in_four(out, "", checkers.into())
    } else {
        put_text(out, padding(mark.len()))?;
        put_text(out, mark)
    }
}

/// Appends a mark of at most one letter and a number below 100, right-aligned in four columns.
fn put_in_four(out: &mut Vec<u8>, mark: &str, number: u32) -> Result<(), AllocError>
    ensures { OnOk result (out.new.items ≡ out.old.items ++ in_four (mark.now ++ decimal number)) }
{
    let mut buffer = itoa::Buffer::new();
    let digits = buffer.format(number);
    put_text(out, padding(mark.len() + digits.len()))?;
    put_text(out, mark)?;
    put_text(out, digits)
}

/// Returns the spaces that pad a text of this length to four columns.
fn padding(length: usize) -> &'static str
    ensures { result.now ≡ replicate (4 - length) 32 }
{
    match length {
        0 => "    ",
        1 => "   ",
        2 => "  ",
        3 => " ",
        _ => "",
    }
}
