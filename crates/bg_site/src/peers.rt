//! Peers: clients that have a WebSocket.
ghost use Rattle.std.specs.Prelude.{◌≡◌, ◌↔◌, IsSome, IsTrue, None, Some};

use crate::addresses::Address;
use bg_board::Player;

/// A client that has a WebSocket: its match, its seat, and what it was sent last.
#[derive(Clone, Copy)]
pub struct Peer {
    /// The index of its match; `None` until a player has sent the secret of their seat.
    pub(crate) place: Option<usize>,
    pub(crate) seat: Option<Player>,
    /// How often the link of its seat had been replaced when it took the seat.
    pub(crate) seat_changes: u64,
    /// Whether it has been sent the greeting.
    pub(crate) is_greeted: bool,
    /// The version of the state that it was sent last; 0 before the first.
    pub(crate) version: u64,
    /// The same for the message that says who is present.
    pub(crate) comings: u64,
    /// The address that it connects from, if a proxy has named one.
    pub(crate) address: Option<Address>,
}

impl Peer {
    /// Returns a peer that has not yet sent the secret of its seat.
    pub(crate) fn unknown() -> Peer
        ensures place { result.place ≡ None }
        ensures seat { result.seat ≡ None }
    {
        Peer {
            place: None,
            seat: None,
            seat_changes: 0,
            is_greeted: false,
            version: 0,
            comings: 0,
            address: None,
        }
    }

    /// Returns a watcher of the match at this index.
    pub(crate) fn watching(place: usize) -> Peer
        ensures place { result.place ≡ Some place }
        ensures seat { result.seat ≡ None }
    {
        Peer {
            place: Some(place),
            ..Peer::unknown()
        }
    }

    /// Gives it the seat of a player in a match. The link of that seat has been replaced
    /// `seat_changes` times.
    pub(crate) fn sit(&mut self, place: usize, player: Player, seat_changes: u64)
        ensures place { self.new.place ≡ Some place }
        ensures seat { self.new.seat ≡ Some player }
    {
        self.place = Some(place);
        self.seat = Some(player);
        self.seat_changes = seat_changes;
    }

    /// Returns whether it is connected to a match.
    pub fn is_known(&self) -> bool
        ensures { IsTrue result ↔ IsSome self.now.place }
    {
        self.place.is_some()
    }
}
