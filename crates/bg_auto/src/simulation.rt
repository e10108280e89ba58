//! The state of an automatic match.
ghost use Rattle.std.specs.Prelude.{◌≤◌};
ghost use Rattle.bg_protocol.specs.Protocol.State.{most_watchers};

use crate::dice_attempts::DiceAttempts;
use crate::schedule::MemoryWorld;
use std::alloc::Global;

/// An automatic match, event by event.
#[derive(Drop)]
pub struct Simulation {
    pub(crate) alloc: Global,
    pub(crate) seed: u64,
    pub(crate) watchers: u8,
    pub(crate) world: MemoryWorld,
    pub(crate) dice: DiceAttempts,
    ghost few: { watchers ≤ most_watchers },
}
