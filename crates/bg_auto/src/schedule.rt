//! The schedule of an automatic match.
ghost use Rattle.std.specs.Prelude.{◌≡◌, ◌≤◌, ◌+◌, IfOk};
ghost use Rattle.bg_auto.specs.Schedule.{IsChoice, IsScheduled, late_pick as pick_of, named_player as player_of};
ghost use Rattle.bg_wire.specs.Entries.Codes.{first_watcher};
ghost use Rattle.bg_protocol.specs.Worlds.Simulations.{memory_view};
ghost use Rattle.bg_protocol.specs.Protocol.State.{most_watchers};

use crate::auto_actions::auto_action;
use bg_board::Player;
use bg_wire::{FIRST_WATCHER, party_of};
use bg_world::{Event, MemoryKeeper, MemoryNet, World};
use std::alloc::{AllocError, Global};

/// A world over devices in memory.
pub type MemoryWorld = World<MemoryNet, MemoryKeeper>;

/// Returns the event that the words `a` and `b` choose in a world with this number of watchers, at
/// most 253. `word` is the word that the referee gets (docs/PROTOCOL.md, "Automatic matches").
///
/// # Errors
/// `AllocError` where there is no memory for the list of legal turns.
pub fn event_of(
    alloc: Global,
    world: &MemoryWorld,
    watchers: u8,
    word: u32,
    a: u32,
    b: u32,
) -> Result<Event, AllocError>
    requires { watchers ≤ most_watchers }
    ensures { IfOk result (λ event. IsScheduled (memory_view world.now) (first_watcher + watchers) word a b event) }
{
    let parties = u32::from(FIRST_WATCHER) + u32::from(watchers);
    let party = (b % parties) as u8;
    let rest = b / parties;
    match a % 16 {
        0 => Ok(Event::Due { word }),
        1..=6 => {
            let pick = late_pick(world.link().sent_to(party), rest % 5);
            Ok(Event::Take { party, pick, word })
        }
        7 | 8 => choice_of(alloc, world, named_player(b)),
        9..=11 => Ok(Event::Tick { party }),
        12..=14 => Ok(Event::Save {
            party: (b % 3) as u8,
        }),
        _ if rest % 4 == 0 => Ok(Event::Restart { party }),
        _ => Ok(Event::Tick { party }),
    }
}

/// Returns the index, among `count` datagrams, of the one that lies `back` places before the last.
/// Where there is none, returns a pick that names none.
fn late_pick(count: u32, back: u32) -> u32
    ensures { result ≡ pick_of count back }
{
    if back < count {
        count - 1 - back
    } else {
        count
    }
}

/// Returns the player whose turn to choose a word makes it.
fn named_player(b: u32) -> Player
    ensures { result ≡ player_of b }
{
    if b % 2 == 0 { Player::X } else { Player::O }
}

/// Returns the choice of an automatic player. Where the player chooses nothing, it is a tick of the
/// player's seat.
fn choice_of(alloc: Global, world: &MemoryWorld, player: Player) -> Result<Event, AllocError>
    ensures { IfOk result (λ event. IsChoice (memory_view world.now) player event) }
{
    let party = party_of(player);
    let Some(record) = world.held(party) else {
        return Ok(Event::Tick { party });
    };
    match auto_action(alloc, record, player)? {
        Some(action) => Ok(Event::Choose {
            seat: player,
            action,
        }),
        None => Ok(Event::Tick { party }),
    }
}
