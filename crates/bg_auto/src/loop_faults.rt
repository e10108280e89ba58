//! The reasons why a match in rounds ends before its last round.
ghost use Rattle.std.specs.Prelude.{◌≡◌};
ghost use Rattle.bg_auto.specs.Rounds.{ends};
ghost use Rattle.bg_auto.specs.declared.loop_faults.LoopFault.TheVariants.{Memory, World, Write};

use bg_streams::StreamFault;
use bg_world::{Outcome, WorldFault, outcome_text};
use std::alloc::{AllocError, AllocFailed};
use std::fmt;
use thiserror::Error;

/// The reason why a match in rounds ends before its last round, or begins with none
/// (docs/OPERATING.md, "Messages").
#[derive(Debug, PartialEq, Eq, Drop, Error)]
pub enum LoopFault {
    /// There is no such match.
    World(WorldFault),
    /// A socket could not be opened on 127.0.0.1, or could not be made non-blocking, in a match
    /// over sockets. A match over devices that it is handed never ends so.
    Socket,
    /// An event had this outcome: the slots of a party could not be restored, or there was no
    /// memory.
    Stopped(Outcome),
    /// The output could not be written.
    Write,
    /// There was no memory.
    Memory,
}

impl fmt::Display for LoopFault {
    ghost use Rattle.std.specs.Prelude.{Some};
    ghost use Rattle.bg_auto.specs.FaultWords.{loop_fault_words};

    ghost output = { λ fault. Some (loop_fault_words fault) };

    fn fmt<W: fmt::Write>(&self, f: &mut fmt::Formatter<W>) -> fmt::Result {
        match self {
            LoopFault::World(why) => write!(f, "{why}"),
            LoopFault::Socket => f.write_str("a socket could not be opened on 127.0.0.1"),
            LoopFault::Stopped(outcome) => f.write_str(outcome_text(outcome).as_str()),
            LoopFault::Write => f.write_str("the output could not be written"),
            LoopFault::Memory => f.write_str("out of memory"),
        }
    }
}

impl From<AllocError> for LoopFault {
    ghost from_gives = { λ _ fault. fault ≡ Memory };

    fn from(_: AllocError) -> LoopFault {
        LoopFault::Memory
    }
}

impl<T: Drop> From<AllocFailed<T>> for LoopFault {
    ghost from_gives = { λ _ fault. fault ≡ Memory };

    fn from(_: AllocFailed<T>) -> LoopFault {
        LoopFault::Memory
    }
}

impl From<StreamFault> for LoopFault {
    ghost from_gives = { λ _ fault. fault ≡ Write };

    fn from(_: StreamFault) -> LoopFault {
        LoopFault::Write
    }
}

impl From<WorldFault> for LoopFault {
    ghost from_gives = { λ why fault. fault ≡ World why };

    fn from(fault: WorldFault) -> LoopFault {
        LoopFault::World(fault)
    }
}

/// Returns whether the outcome ends the match: slots can't be restored, or there was no memory.
pub(crate) fn ends_match(outcome: &Outcome) -> bool
    ensures { result ≡ ends outcome.now }
{
    match outcome {
        Outcome::RestoreFault(_) => true,
        other => other.wants_memory(),
    }
}
