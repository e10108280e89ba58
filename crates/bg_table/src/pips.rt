//! The pips that a player still has to go.
ghost use Rattle.std.specs.Prelude.{◌≡◌, ◌≤◌};
ghost use Rattle.bg_table.specs.Pips.{pip_count as pips_of, most_pips};

use bg_board::{Board, Player};

/// Returns the pip count of a player, from 0 to 375. Each of the player's checkers counts the
/// number of its point, and 25 on the bar.
pub fn pip_count(board: &Board, player: Player) -> u16
    ensures value { result ≡ pips_of board.now player }
    ensures most { result ≤ most_pips }
{
    let counts = board.checkers(player);
    let mut pips = 0u16;
    for point in 0..26usize {
        pips += point as u16 * u16::from(counts[point]);
    }
    pips
}
