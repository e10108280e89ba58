//! The presence of the other player, as a seat hears of it from its referee.

use crate::sockets::party_sockets::PartySocket;
use bg_system::Presence;
use std::time::{Clock, Instant};

/// Number of seconds that a seat that begins gives the other one to come.
const SECONDS_TO_COME: u64 = 3;

/// Number of seconds within which a seat that was there is to be heard by a referee that begins
/// again.
const SECONDS_TO_RETURN: u64 = 10;

/// A report on the other player.
#[derive(Clone, Copy, Debug, PartialEq, Eq)]
pub enum OpponentChange {
    /// They have not been there since the referee began.
    Missing,
    /// They are there, after they were reported missing.
    Came,
    /// Nothing was heard of them for ten seconds.
    Left,
    /// They are there again, after they were reported to have left.
    Returned,
}

/// The knowledge that the player has of the other one.
#[derive(Clone, Copy)]
enum Known {
    Nothing,
    Missing,
    Here,
    Away,
}

impl Known {
    /// Returns what the player knows after the referee has told this of the other one for `seconds`
    /// seconds, with the report on that, if there is one. Returns `None` where nothing changes.
    fn after(
        self,
        told: Presence,
        seconds: u64,
        is_awaited: bool,
    ) -> Option<(Known, Option<OpponentChange>)> {
        match (self, told) {
            (Known::Nothing, Presence::Here) => Some((Known::Here, None)),
            (Known::Missing, Presence::Here) => Some((Known::Here, Some(OpponentChange::Came))),
            (Known::Away, Presence::Here) if is_awaited => {
                Some((Known::Here, Some(OpponentChange::Returned)))
            }
            (Known::Away, Presence::Here) => Some((Known::Here, None)),
            (Known::Nothing, Presence::Unheard) if seconds >= SECONDS_TO_COME => {
                Some((Known::Missing, Some(OpponentChange::Missing)))
            }
            (Known::Here, Presence::Unheard) if is_awaited && seconds >= SECONDS_TO_RETURN => {
                Some((Known::Away, Some(OpponentChange::Left)))
            }
            (Known::Nothing | Known::Here, Presence::Away) if is_awaited => {
                Some((Known::Away, Some(OpponentChange::Left)))
            }
            _ => None,
        }
    }
}

/// Keeps what was reported of the other player, and so what is to be reported. A player on turn
/// isn't told that the other one leaves or returns, as the match doesn't wait for that one.
#[derive(Drop)]
pub struct Opponent {
    known: Known,
    /// The presence that the referee tells.
    told: Option<Presence>,
    /// The time since which it tells that.
    since: Option<Instant>,
}

impl Opponent {
    /// Creates the state of a seat that begins.
    pub fn new() -> Opponent {
        Opponent {
            known: Known::Nothing,
            told: None,
            since: None,
        }
    }

    /// Returns the report on the other player after a round over this socket of a seat, if there is
    /// one. `is_awaited` says whether the match waits for the other player. Where the referee is
    /// silent, there is nothing to report.
    pub fn after_round<C: Clock>(
        &mut self,
        rt: &C,
        socket: &PartySocket<'_, C>,
        is_awaited: bool,
    ) -> Option<OpponentChange> {
        let now = Instant::now(rt).ok()?;
        let told = socket.other_seat();
        if self.told != told {
            self.told = told;
            self.since = Some(now);
        }
        let seconds = now.duration_since(self.since?).as_secs();
        let (known, change) = self.known.after(told?, seconds, is_awaited)?;
        self.known = known;
        change
    }
}
