//! The roles of the parties.
ghost use Rattle.std.specs.Prelude.{◌≡◌, ◌+◌, ℕ};
ghost use Rattle.bg_board.specs.declared.players.Player.{Player};
ghost use Rattle.bg_wire.specs.Entries.Codes.{first_watcher};
ghost use Rattle.bg_wire.specs.Parties.{party_of};
ghost use Rattle.bg_protocol.specs.declared.roles.Role.TheVariants as roles;

use bg_board::Player;
use bg_wire::{FIRST_WATCHER, REFEREE, SEAT_OF_O, SEAT_OF_X};

/// The role of a party (docs/PROTOCOL.md, "Parties").
#[derive(Clone, Copy, Debug, PartialEq, Eq)]
pub enum Role {
    /// The referee decides which entries there are.
    Referee,
    /// A seat acts for its player.
    Seat(Player),
    /// A watcher follows the match. This is its index among the watchers, from 0.
    Watcher(usize),
}

impl Role {
    ghost use Rattle.bg_protocol.specs.Protocol.Roles.{role};

    /// Returns the role of the party of this number: 0 is the referee, 1 the seat of X, 2 the seat
    /// of O, and the others watch.
    pub fn of(party: u8) -> Role
        ensures value { result ≡ role party }
        ensures seat { (player : Player) → result ≡ roles.Seat player → party ≡ party_of player }
        ensures watcher { (index : ℕ) → result ≡ roles.Watcher index → party ≡ first_watcher + index }
    {
        match party {
            REFEREE => Role::Referee,
            SEAT_OF_X => Role::Seat(Player::X),
            SEAT_OF_O => Role::Seat(Player::O),
            _ => Role::Watcher(usize::from(party - FIRST_WATCHER)),
        }
    }
}
