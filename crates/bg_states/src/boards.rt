//! The checkers in the state of a match.
ghost use Rattle.std.specs.Prelude.{◌≡◌, ◌++◌, OnOk};
ghost use Rattle.bg_states.specs.Boards.{board_text};

use crate::lists::put_numbers;
use bg_board::{Board, Player};
use bg_text::put_text;
use std::alloc::AllocError;

/// Adds two lists, `x` and `o`: the number of checkers that the player has on each point in their
/// own numbering, from 0 (off) to 25 (the bar).
#[tactic(auto, unfolding(crate::specs::Boards::board_text))]
pub(crate) fn put_board(out: &mut Vec<u8>, board: &Board) -> Result<(), AllocError>
    ensures { OnOk result (out.new.items ≡ out.old.items ++ board_text board.now) }
{
    put_text(out, ",\"x\":")?;
    put_numbers(out, board.checkers(Player::X))?;
    put_text(out, ",\"o\":")?;
    put_numbers(out, board.checkers(Player::O))
}
