//! The players of the parties that are seats.
ghost use Rattle.std.specs.Prelude.{◌≡◌};
ghost use Rattle.bg_party.specs.Views.{player_of};

use bg_board::Player;
use bg_wire::SEAT_OF_X;

/// Returns the player whose seat the party is.
pub(crate) fn player_of(party: u8) -> Player
    ensures { result ≡ player_of party }
{
    if party == SEAT_OF_X {
        Player::X
    } else {
        Player::O
    }
}
