//! The test for whether a player has a step.
ghost use Rattle.std.specs.Prelude.{◌≡◌};
ghost use Rattle.bg_turns.specs.HasStep.{TellsSteps, has_step};

use crate::{Dice, most};
use bg_board::{Board, Player};

/// Returns whether the player has a step by one of the dice, that is, whether [`most`] is above 0.
pub fn can_step(board: &Board, player: Player, dice: Dice) -> bool
    ensures { result ≡ has_step board.now player dice }
{
    most(board, player, dice) > 0
}

/// States what the truth value used in definitions means.
pub fn law_of_steps()
    ensures { TellsSteps }
{}
