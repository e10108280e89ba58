//! The times at which a follower sends.
ghost use Rattle.std.specs.Prelude.{◌≡◌};
ghost use Rattle.bg_party.specs.Retry.{at_once, is_due, after_tick};

use std::marker::Model;

/// The greatest number of ticks from one on which a follower sends to the next.
const LONGEST_GAP: u8 = 32;

/// The backoff of a follower. It sends on its first tick, and again after 1, 2, 4, 8, 16, 32, 32
/// and so on (docs/PROTOCOL.md, "When a follower sends").
#[derive(Debug, Drop)]
pub(crate) struct Retry {
    wait: u8,
    gap: u8,
}

impl Model for Retry {
    ghost use Rattle.bg_party.specs.Retry.{RetryView, IsRetry};

    ghost Value = { RetryView };

    ghost view = { λ r. record { wait = r.wait; gap = r.gap } };

    ghost invariant = { λ r. IsRetry (record { wait = r.wait; gap = r.gap }) };
}

impl Retry {
    /// Returns the backoff that sends on the next tick.
    pub(crate) fn at_once() -> Retry
        ensures { result ≡ at_once }
    {
        Retry { wait: 0, gap: 1 }
    }

    /// Advances by a tick, and returns whether the follower sends on it.
    pub(crate) fn tick(&mut self) -> bool
        ensures due { result ≡ is_due self.old }
        ensures after { self.new ≡ after_tick self.old }
    {
        if self.wait > 0 {
            self.wait -= 1;
            return false;
        }
        self.wait = self.gap - 1;
        self.gap = (2 * self.gap).min(LONGEST_GAP);
        true
    }
}
