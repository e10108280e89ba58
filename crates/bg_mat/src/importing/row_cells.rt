//! The cells of a row, added to a match.
ghost use Rattle.std.specs.Prelude.{◌≡◌, IfErr, IfOk, OnOk};
ghost use Rattle.bg_mat.specs.Files.{after_row, item_of, items_of, numbered};
ghost use Rattle.bg_mat.specs.Refusals.{AreRefusedItems, Refuses};
ghost use Rattle.bg_mat.specs.Replaying.{GoesOnBy, IsReplay};

use crate::awaiting::{Awaited, awaited_behind};
use crate::faults::ReadFault;
use crate::playing::Replay;
use crate::rows::Row;
use crate::rows::cells::Cell;
use bg_board::Player;

/// Adds a cell, if there is one.
fn add_cell(
    replay: &mut Replay,
    player: Player,
    cell: Option<Cell>,
    number: u32,
) -> Result<(), ReadFault>
    requires { IsReplay replay.old }
    ensures done { OnOk result (GoesOnBy replay.old replay.new (numbered number (item_of player cell))) }
    ensures fault { IfErr result (Refuses (AreRefusedItems replay.old number (item_of player cell))) }
{
    match cell {
        Some(cell) => replay.play(number, player, cell),
        None => Ok(()),
    }
}

/// Adds the cells of a row, and returns what may follow.
pub(super) fn add_row(replay: &mut Replay, row: Row, number: u32) -> Result<Awaited, ReadFault>
    requires { IsReplay replay.old }
    ensures done { IfOk result (λ next. (next ≡ after_row row)
        × GoesOnBy replay.old replay.new (numbered number (items_of row.left row.right))) }
    ensures fault { IfErr result (Refuses (AreRefusedItems replay.old number (items_of row.left row.right))) }
{
    let next = awaited_behind(&row);
    let Row { left, right } = row;
    add_cell(replay, Player::X, left, number)?;
    add_cell(replay, Player::O, right, number)?;
    Ok(next)
}
