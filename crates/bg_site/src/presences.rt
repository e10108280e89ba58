//! The peers that are connected to a match.

use bg_board::Player;

/// The numbers of peers that are connected to a match.
#[derive(Clone, Copy)]
pub(crate) struct Presence {
    pub(crate) x: u32,
    pub(crate) o: u32,
    pub(crate) watching: u32,
}

impl Presence {
    /// No peers.
    pub(crate) const NOBODY: Presence = Presence {
        x: 0,
        o: 0,
        watching: 0,
    };

    /// Returns the presence after a peer with this seat, or a watcher, has come.
    pub(crate) fn come(self, seat: Option<Player>) -> Presence {
        match seat {
            None => Presence {
                watching: self.watching.saturating_add(1),
                ..self
            },
            Some(Player::X) => Presence {
                x: self.x.saturating_add(1),
                ..self
            },
            Some(Player::O) => Presence {
                o: self.o.saturating_add(1),
                ..self
            },
        }
    }

    /// Returns the presence after a peer with this seat, or a watcher, has left.
    pub(crate) fn leave(self, seat: Option<Player>) -> Presence {
        match seat {
            None => Presence {
                watching: self.watching.saturating_sub(1),
                ..self
            },
            Some(Player::X) => Presence {
                x: self.x.saturating_sub(1),
                ..self
            },
            Some(Player::O) => Presence {
                o: self.o.saturating_sub(1),
                ..self
            },
        }
    }
}
