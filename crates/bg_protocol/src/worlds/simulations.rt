//! Runs over devices in memory, from a world where nothing has happened yet.
ghost use Rattle.std.specs.Prelude.{◌≡◌, IfOk, MatchResult, OnErr};
ghost use Rattle.bg_protocol.specs.Worlds.Starts.{terms_in};
ghost use Rattle.bg_protocol.specs.Devices.MemoryDevices.{memory_keeper_view};
ghost use Rattle.bg_protocol.specs.Worlds.Simulations.{IsEmptyPlan, IsOfWords, IsSimulationFault, NoneFailed, Simulates};
ghost use Rattle.bg_protocol.specs.Worlds.Simulations.{memory_view, start_in_memory, unused_keeper};
ghost use Rattle.bg_protocol.specs.Protocol.State.{IsSetup};
ghost use Rattle.bg_protocol.specs.Worlds.Upholds.{Upholds};

use crate::devices::copies::copy_of;
use crate::{Event, Keepers, MemoryKeeper, MemoryNet, Plan, RunReport, Setup, World, WorldFault};
use bg_wire::{REFEREE, SEAT_OF_O, SEAT_OF_X};
use std::alloc::{AllocError, Global};

/// Returns the keeper of a party, with empty slots, whose calls fail by the plan.
fn keeper_of(alloc: Global, party: u8, plan: &Plan) -> Result<MemoryKeeper, AllocError>
    ensures value { IfOk result (λ keeper. memory_keeper_view keeper ≡ unused_keeper party plan.now) }
    ensures memory { OnErr result (IsEmptyPlan plan.now → ⊥) }
{
    let tears = copy_of(alloc, &plan.tears)?;
    let reads = copy_of(alloc, &plan.reads)?;
    Ok(MemoryKeeper::new(alloc, party, tears, reads))
}

/// Returns a world where nothing has happened yet, over devices in memory that fail by the plan.
fn world_in_memory(
    alloc: Global,
    setup: Setup,
    plan: &Plan,
) -> Result<World<MemoryNet, MemoryKeeper>, WorldFault>
    ensures start { IfOk result (λ world. memory_view world ≡ start_in_memory setup plan.now) }
    ensures refusal { MatchResult result (λ _. IsSetup setup.id (terms_in setup) setup.watchers)
        (λ fault. IsSimulationFault fault setup plan.now) }
{
    setup.check()?;
    let link = MemoryNet::new(alloc, copy_of(alloc, &plan.sends)?);
    let keepers = Keepers {
        referee: keeper_of(alloc, REFEREE, plan)?,
        x: keeper_of(alloc, SEAT_OF_X, plan)?,
        o: keeper_of(alloc, SEAT_OF_O, plan)?,
    };
    World::new(alloc, setup, link, keepers)
}

/// Runs all events, in order, from a world where nothing has happened yet, over devices in memory
/// that fail by the plan (docs/PROTOCOL.md, "The state and its steps" and "Devices"). It returns
/// the world, and the number of events that needed memory or ended in a fault. No outcome ends the
/// run.
///
/// After any list of events (deliveries, losses, repeats, reorderings, ticks, failed saves and
/// restarts), every party's record is a prefix of the referee's; the referee's record is a legal
/// match; every entry of a seat in it answers the one action that this seat ever claimed under that
/// number; and each event changed the records just as a protocol step does (docs/PROTOCOL.md,
/// "What all parties together promise"). [`World::held`] gives these records.
///
/// # Errors
/// The first that holds:
/// - `TooManyWatchers` where more than 253 watch;
/// - `LengthOutOfRange` where the length is not from 1 to 99;
/// - `Memory` where there is no memory for the watchers or for what the plan says.
pub fn simulate(
    alloc: Global,
    setup: Setup,
    plan: &Plan,
    events: &[Event],
) -> Result<(World<MemoryNet, MemoryKeeper>, RunReport), WorldFault>
    ensures refusal { MatchResult result (λ _. IsSetup setup.id (terms_in setup) setup.watchers)
        (λ fault. IsSimulationFault fault setup plan.now) }
    // The calls of each event; they are a run of the protocol.
    ensures simulates { IfOk result (λ ran. Simulates setup plan.now events.now ran.1 (memory_view ran.0)) }
    // "Every party's record is a prefix of the referee's; the referee's record is a legal match;
    // every entry of a seat in it answers the one action that this seat ever claimed under that
    // number": over what `held` gives (`HeadlineHeld`), and over the protocol's state (`Headline`).
    ensures upholds { IfOk result (λ ran. Upholds (memory_view ran.0)) }
    // The dice of the match are those of words that the events handed in.
    ensures words { IfOk result (λ ran. IsOfWords events.now (memory_view ran.0)) }
    // By an empty plan no device ever fails.
    ensures none_failed { IsEmptyPlan plan.now → IfOk result (λ ran. NoneFailed (memory_view ran.0)) }
{
    let mut world = world_in_memory(alloc, setup, plan)?;
    let report = world.run(events);
    Ok((world, report))
}
