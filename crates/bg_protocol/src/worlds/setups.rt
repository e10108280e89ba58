//! The parts from which a world is made.
ghost use Rattle.std.specs.Prelude.{◌≡◌, ◌≢◌, MatchResult};
ghost use Rattle.bg_protocol.specs.Worlds.Starts.{IsWorldFault, terms_in};
ghost use Rattle.bg_protocol.specs.Protocol.State.{IsSetup};

use bg_match::{LONGEST_MATCH, Rules, SHORTEST_MATCH, Terms};
use bg_wire::{FIRST_WATCHER, LAST_WATCHER};
use std::alloc::{AllocError, AllocFailed};
use thiserror::Error;

/// The greatest number of watchers of a match.
pub const MOST_WATCHERS: u8 = LAST_WATCHER - FIRST_WATCHER + 1;

/// The match to be played.
#[derive(Clone, Copy, Debug, PartialEq, Eq)]
pub struct Setup {
    /// The number of the match.
    pub id: u64,
    /// Its length in points, from 1 to 99.
    pub length: u8,
    /// The rules that it is played by.
    pub rules: Rules,
    /// The number of its watchers, at most 253.
    pub watchers: u8,
}

impl Setup {
    /// Returns the terms on which the players agree.
    pub(crate) fn terms(self) -> Terms
        ensures { result ≡ terms_in self }
    {
        Terms {
            length: self.length,
            rules: self.rules,
        }
    }

    /// Checks whether a world can be made of it.
    pub(crate) fn check(self) -> Result<(), WorldFault>
        ensures { MatchResult result (λ _. IsSetup self.id (terms_in self) self.watchers)
            (λ fault. (fault ≢ WorldFault.Memory) × IsWorldFault fault self) }
    {
        if self.watchers > MOST_WATCHERS {
            return Err(WorldFault::TooManyWatchers);
        }
        if !(SHORTEST_MATCH..=LONGEST_MATCH).contains(&self.length) {
            return Err(WorldFault::LengthOutOfRange);
        }
        Ok(())
    }
}

/// The keepers of the parties that save.
#[derive(Debug, Drop)]
pub struct Keepers<K> {
    /// The keeper of the referee.
    pub referee: K,
    /// The keeper of the seat of X.
    pub x: K,
    /// The keeper of the seat of O.
    pub o: K,
}

/// The reason why there is no world, in the order in which the refusals are tested.
#[derive(Clone, Copy, Debug, PartialEq, Eq, Error)]
pub enum WorldFault {
    /// More than 253 watch.
    TooManyWatchers,
    /// The length is not from 1 to 99.
    LengthOutOfRange,
    /// There is no memory for the watchers.
    Memory,
}

impl From<AllocError> for WorldFault {
    ghost use Rattle.std.specs.Prelude.{◌≡◌};
    ghost use Rattle.bg_protocol.specs.declared.worlds.setups.WorldFault.TheVariants.{Memory};

    ghost from_gives = { λ _ fault. fault ≡ Memory };

    fn from(_: AllocError) -> WorldFault {
        WorldFault::Memory
    }
}

impl<T: Drop> From<AllocFailed<T>> for WorldFault {
    ghost use Rattle.std.specs.Prelude.{◌≡◌};
    ghost use Rattle.bg_protocol.specs.declared.worlds.setups.WorldFault.TheVariants.{Memory};

    ghost from_gives = { λ _ fault. fault ≡ Memory };

    fn from(_: AllocFailed<T>) -> WorldFault {
        WorldFault::Memory
    }
}
