//! Quotas: how often something may be done in a minute.

/// How many times something may be done in a minute. What is not used is kept, up to a minute's
/// worth.
#[derive(Clone, Copy, Debug, PartialEq, Eq)]
pub(crate) struct Quota {
    a_minute: u64,
    left: u64,
    /// The second in which the quota was last filled.
    filled: u64,
}

impl Quota {
    /// Creates a full quota of `a_minute` times a minute.
    pub(crate) fn new(a_minute: u64) -> Quota {
        Quota {
            a_minute,
            left: a_minute,
            filled: 0,
        }
    }

    /// Refills the quota for the time up to `now`, and returns whether anything is left.
    pub(crate) fn has_any(&mut self, now: u64) -> bool {
        let seconds = now.saturating_sub(self.filled).min(60);
        let more = self.a_minute.saturating_mul(seconds) / 60;
        if more > 0 {
            self.left = self.left.saturating_add(more).min(self.a_minute);
            self.filled = now;
        }
        self.left > 0
    }

    /// Uses up `count` of the quota.
    pub(crate) fn take(&mut self, count: u64) {
        self.left = self.left.saturating_sub(count);
    }
}
