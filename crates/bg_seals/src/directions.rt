//! The two directions in which a datagram travels.
ghost use Rattle.std.specs.Prelude.{◌≡◌};
ghost use Rattle.bg_seals.specs.Datagrams.{direction_byte};

/// The direction in which a datagram travels between a party and the referee.
#[derive(Clone, Copy, Debug, PartialEq, Eq)]
pub enum Direction {
    /// From the party to the referee.
    ToReferee,
    /// From the referee to the party.
    FromReferee,
}

impl Direction {
    /// Returns the byte that encodes the direction: 0 to the referee, 1 from it.
    pub(crate) fn byte(self) -> u8
        ensures { result ≡ direction_byte self }
    {
        match self {
            Direction::ToReferee => 0,
            Direction::FromReferee => 1,
        }
    }
}
