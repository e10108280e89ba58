//! The parties of a match, by their numbers (docs/PROTOCOL.md, "Parties").
ghost use Rattle.std.specs.Prelude.{◌≡◌};
ghost use Rattle.bg_wire.specs.Parties.{party_of};

use bg_board::Player;

/// The referee.
pub const REFEREE: u8 = 0;
/// The seat of X, the first party that is not the referee.
pub const SEAT_OF_X: u8 = 1;
/// The seat of O, the last party that is a seat.
pub const SEAT_OF_O: u8 = 2;
/// The first party that only watches.
pub const FIRST_WATCHER: u8 = 3;
/// The last party that may watch.
pub const LAST_WATCHER: u8 = u8::MAX;

/// Returns the party of a player's seat: 1 for X, 2 for O.
pub fn party_of(player: Player) -> u8
    ensures { result ≡ party_of player }
{
    match player {
        Player::X => SEAT_OF_X,
        Player::O => SEAT_OF_O,
    }
}
