//! The order of events in a match that is played round by round (docs/PROTOCOL.md, "Rounds").
ghost use Rattle.std.specs.Prelude.{◌≡◌};
ghost use Rattle.bg_auto.specs.Rounds.{follow_up as follow_up_of};

use bg_board::Player;
use bg_world::{Event, Outcome};

/// The number of watchers.
pub(crate) const WATCHERS: u8 = 1;

/// The party that only watches.
const WATCHER: u8 = 3;

/// A part of a match: an event without the words and the actions that it hands in.
#[derive(Clone, Copy, Debug, PartialEq, Eq)]
pub(crate) enum Part {
    /// The referee gets a word for an opening.
    Due,
    /// This party takes a datagram.
    Take(u8),
    /// The player's seat chooses the action of an automatic player, if it acts.
    Choose(Player),
    /// This party saves.
    Save(u8),
    /// This party sends what it has to send.
    Tick(u8),
    /// This party restarts from what its slots restore.
    Restart(u8),
}

/// The parts before the first round, in order.
pub(crate) const FIRST: [Part; 3] = [Part::Restart(0), Part::Restart(1), Part::Restart(2)];

/// The parts of each round, in order.
pub(crate) const ROUND: [Part; 20] = [
    Part::Take(0),
    Part::Take(0),
    Part::Take(0),
    Part::Take(0),
    Part::Due,
    Part::Save(0),
    Part::Take(1),
    Part::Take(2),
    Part::Take(WATCHER),
    Part::Take(1),
    Part::Take(2),
    Part::Take(WATCHER),
    Part::Choose(Player::X),
    Part::Choose(Player::O),
    Part::Save(1),
    Part::Save(2),
    Part::Tick(0),
    Part::Tick(1),
    Part::Tick(2),
    Part::Tick(WATCHER),
];

/// Returns the event that happens at once after a part with this outcome. A party whose save failed
/// is down, and restarts from what its slots restore.
pub(crate) fn follow_up(part: Part, outcome: &Outcome) -> Option<Event>
    ensures { result ≡ follow_up_of part outcome.now }
{
    match (part, outcome) {
        (Part::Save(party), Outcome::SaveFault) => Some(Event::Restart { party }),
        _ => None,
    }
}
