//! Counts of saves.

use bg_site::Saves;
use std::cell::Cell;
use std::time::Instant;

/// Counts of saves, shared by several keepers.
#[derive(Drop)]
pub(crate) struct SaveCounts {
    counted: Cell<Saves>,
}

impl SaveCounts {
    /// Creates counts of zero.
    pub(crate) fn new() -> SaveCounts {
        SaveCounts {
            counted: Cell::new(Saves::NONE),
        }
    }

    /// Returns the counts so far.
    pub(crate) fn counted(&self) -> Saves {
        self.counted.get()
    }

    /// Counts a commit, which makes the saves of a turn durable together: its time, and whether it
    /// failed.
    pub(crate) fn note_commit(&self, is_done: bool, micros: u64) {
        let counted = self.counted.get();
        self.counted.set(Saves {
            failed: counted.failed.saturating_add(u64::from(!is_done)),
            micros: counted.micros.saturating_add(micros),
            ..counted
        });
    }

    /// Counts a save and its time.
    pub(crate) fn note(&self, is_done: bool, micros: u64) {
        let counted = self.counted.get();
        self.counted.set(Saves {
            done: counted.done.saturating_add(u64::from(is_done)),
            failed: counted.failed.saturating_add(u64::from(!is_done)),
            micros: counted.micros.saturating_add(micros),
        });
    }
}

/// Returns the microseconds since `begun`; 0 if the clock can't be read, or couldn't be read then.
pub(crate) fn micros_since(rt: &HostRuntime, begun: Option<Instant>) -> u64 {
    let Some(begun) = begun else {
        return 0;
    };
    match begun.elapsed(rt) {
        Ok(time) => time
            .as_secs()
            .saturating_mul(1_000_000)
            .saturating_add(u64::from(time.subsec_micros())),
        Err(_) => 0,
    }
}
