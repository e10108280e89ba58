//! How long nobody has acted in a match.

/// A minute, as the host counts minutes, and for how many minutes nobody had acted by then.
#[derive(Clone, Copy)]
pub(crate) struct Quiet {
    since: u64,
    before: u64,
}

impl Quiet {
    /// Returns the quiet of a match in which nobody has acted for `before` minutes at minute `now`.
    pub(crate) fn for_minutes(before: u64, now: u64) -> Quiet {
        Quiet { since: now, before }
    }

    /// Returns the quiet of a match in which somebody acts in this minute.
    pub(crate) fn broken(now: u64) -> Quiet {
        Quiet::for_minutes(0, now)
    }

    /// Returns the number of minutes for which nobody has acted at minute `now`.
    pub(crate) fn minutes(self, now: u64) -> u64 {
        now.saturating_sub(self.since).saturating_add(self.before)
    }
}

/// The current minute, and after how many minutes without an action a match is listed as idle; 0
/// for never.
#[derive(Clone, Copy)]
pub(crate) struct Patience {
    pub(crate) now: u64,
    pub(crate) idle: u64,
}

impl Patience {
    /// Returns whether nobody has acted for so long that the match is listed as idle.
    pub(crate) fn is_over(self, quiet: Quiet) -> bool {
        self.idle > 0 && quiet.minutes(self.now) >= self.idle
    }
}
