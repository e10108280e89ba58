//! Observers of a match while it is played.

use bg_match::Number;
use bg_wire::{REFEREE, party_of};
use bg_world::{Event, Outcome};

/// An observer of a match that is played round by round. It is told what happens, in order, and
/// changes nothing of it.
pub trait Observer {
    /// Notes an event and its outcome, which may be one that ends the match. `held` is the number
    /// of entries that the party of the event then holds, or `None` where it is down.
    fn happened(&mut self, event: &Event, outcome: &Outcome, held: Option<Number>);

    /// Notes the number of rounds that are played, from 1. In an automatic match, which has no
    /// rounds, it is the number of events.
    fn played(&mut self, done: u32);
}

/// An observer that does nothing.
#[derive(Drop)]
pub struct NoObserver;

impl Observer for NoObserver {
    fn happened(&mut self, _event: &Event, _outcome: &Outcome, _held: Option<Number>) {}

    fn played(&mut self, _done: u32) {}
}

/// Returns the party at which an event happens: the number that the event names, the referee's for
/// a word of an opening, or that of the seat which chooses.
pub fn party_at(event: &Event) -> u8 {
    match event {
        Event::Due { word: _ } => REFEREE,
        Event::Choose { seat, action: _ } => party_of(*seat),
        Event::Take {
            party,
            pick: _,
            word: _,
        }
        | Event::Save { party }
        | Event::Tick { party }
        | Event::Restart { party } => *party,
    }
}
