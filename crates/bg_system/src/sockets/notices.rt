//! The presence of the other seat, as the referee tells a seat.
ghost use Rattle.std.specs.Prelude.{◌≡◌, MatchOption};

use bg_wire::{SEAT_OF_O, SEAT_OF_X};
use std::time::{Clock, Duration, Instant};

/// Number of seconds for which a notice counts.
const MOST_SECONDS: u64 = 3;

/// The presence of a seat, as far as the referee has heard of it.
#[derive(Clone, Copy, Debug, PartialEq, Eq)]
pub enum Presence {
    /// It has not been heard since the referee began.
    Unheard,
    /// It was heard within the last ten seconds.
    Here,
    /// It was heard, but not within the last ten seconds.
    Away,
}

impl Presence {
    ghost use Rattle.bg_system.specs.Notices.{IsNoNotice, notice_text};

    /// Returns the notice that tells a seat the other one's presence. It is neither a packet nor a
    /// sign of life.
    pub fn notice(self) -> [u8; 2]
        ensures { result ≡ notice_text self }
    {
        match self {
            Presence::Unheard => [0, 0],
            Presence::Here => [0, 1],
            Presence::Away => [0, 2],
        }
    }

    /// Reads the other seat's presence from a notice. Returns `None` where the bytes are not a
    /// notice.
    pub(crate) fn of_notice(bytes: &[u8]) -> Option<Presence>
        ensures { MatchOption result (IsNoNotice bytes.now)
            (λ presence. bytes.now ≡ notice_text presence) }
    {
        match bytes {
            [0, 0] => Some(Presence::Unheard),
            [0, 1] => Some(Presence::Here),
            [0, 2] => Some(Presence::Away),
            _ => None,
        }
    }
}

/// Returns the other seat, where a party is a seat.
pub(crate) fn other_seat(party: u8) -> Option<u8> {
    match party {
        SEAT_OF_X => Some(SEAT_OF_O),
        SEAT_OF_O => Some(SEAT_OF_X),
        _ => None,
    }
}

/// The last notice that came, by a clock.
#[derive(Drop)]
pub(crate) struct LastNotice<'a, C> {
    clock: &'a C,
    last: Option<(Presence, Instant)>,
}

impl<'a, C: Clock> LastNotice<'a, C> {
    /// Creates the record of a party to which no notice came yet.
    pub(crate) fn new(clock: &'a C) -> LastNotice<'a, C> {
        LastNotice { clock, last: None }
    }

    /// Notes that a notice comes now.
    pub(crate) fn note(&mut self, presence: Presence) {
        self.last = match Instant::now(self.clock) {
            Ok(now) => Some((presence, now)),
            Err(_) => None,
        };
    }

    /// Returns what the last notice said, where it came within the last three seconds.
    pub(crate) fn presence(&self) -> Option<Presence> {
        let (presence, came) = self.last?;
        let now = Instant::now(self.clock).ok()?;
        if now.duration_since(came) < Duration::from_secs(MOST_SECONDS) {
            Some(presence)
        } else {
            None
        }
    }
}
