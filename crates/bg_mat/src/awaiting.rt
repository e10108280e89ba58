//! What may stand on the next line of a match file that has content.
ghost use Rattle.std.specs.Prelude.{◌≡◌};
ghost use Rattle.bg_mat.specs.Files.{after_row, is_win as is_win_cell, is_within_game as is_within};

use crate::rows::Row;
use crate::rows::cells::Cell;

/// What may stand on the next line that has content.
#[derive(Clone, Copy, Debug, PartialEq, Eq)]
pub(crate) enum Awaited {
    /// The number of a game.
    Game,
    /// The scores before the game.
    Scores,
    /// A row of the game, or the number of the next game.
    Row,
}

/// Returns whether a file that may go on so ends within a game.
pub(crate) fn is_within_game(awaited: Awaited) -> bool
    ensures { result ≡ is_within awaited }
{
    match awaited {
        Awaited::Game => false,
        Awaited::Scores | Awaited::Row => true,
    }
}

/// Returns what may follow a row.
pub(crate) fn awaited_behind(row: &Row) -> Awaited
    ensures { result ≡ after_row row.now }
{
    if is_win(&row.left) || is_win(&row.right) {
        Awaited::Game
    } else {
        Awaited::Row
    }
}

/// Returns whether a cell says that its player wins the game.
fn is_win(cell: &Option<Cell>) -> bool
    ensures { result ≡ is_win_cell cell.now }
{
    matches!(cell, Some(Cell::Wins(_)))
}
