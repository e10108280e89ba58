//! The events at the node of a seat's process.
ghost use Rattle.bg_processes.specs.SeatRounds.{SeatHappens, seat_moment, take_at};
ghost use Rattle.bg_wire.specs.Parties.{party_of};

use crate::processes::rounds::{MOST_PARTIES, entries_of};
use crate::processes::seat::SeatProcess;
use bg_auto::Observer;
use bg_match::Action;
use bg_wire::party_of;
use bg_world::{Event, Keeper, Link, Outcome};

impl<L: Link, K: Keeper> SeatProcess<L, K> {
    pub(crate) fn take<O: Observer>(&mut self, observer: &mut O) -> Outcome
        ensures { SeatHappens L.is_honest K.is_honest (seat_moment L.Link K.Keeper self.old)
            (take_at (seat_moment L.Link K.Keeper self.old)) result (seat_moment L.Link K.Keeper self.new) }
    {
        let outcome = self.node.take(&mut self.link, 0);
        let held = entries_of(self.node.held());
        let event = Event::Take {
            party: party_of(self.player),
            pick: 0,
            word: 0,
        };
        self.notes.note(observer, &event, &outcome, held);
        outcome
    }

    pub(crate) fn claim<O: Observer>(&mut self, action: Action, observer: &mut O) -> Outcome
        ensures { SeatHappens L.is_honest K.is_honest (seat_moment L.Link K.Keeper self.old)
            (Event.Choose self.old.player action) result (seat_moment L.Link K.Keeper self.new) }
    {
        let event = Event::Choose {
            seat: self.player,
            action: action.copy(),
        };
        let outcome = self.node.choose(action);
        let held = entries_of(self.node.held());
        self.notes.note(observer, &event, &outcome, held);
        outcome
    }

    pub(crate) fn save<O: Observer>(&mut self, observer: &mut O) -> Outcome
        ensures { SeatHappens L.is_honest K.is_honest (seat_moment L.Link K.Keeper self.old)
            (Event.Save (party_of self.old.player)) result (seat_moment L.Link K.Keeper self.new) }
    {
        let outcome = self.node.save(&mut self.keeper);
        let held = entries_of(self.node.held());
        let event = Event::Save {
            party: party_of(self.player),
        };
        self.notes.note(observer, &event, &outcome, held);
        outcome
    }

    pub(crate) fn restart<O: Observer>(&mut self, observer: &mut O) -> Outcome
        ensures { SeatHappens L.is_honest K.is_honest (seat_moment L.Link K.Keeper self.old)
            (Event.Restart (party_of self.old.player)) result (seat_moment L.Link K.Keeper self.new) }
    {
        let outcome = self.node.restart(&mut self.keeper);
        let held = entries_of(self.node.held());
        let event = Event::Restart {
            party: party_of(self.player),
        };
        self.notes.note(observer, &event, &outcome, held);
        outcome
    }

    pub(crate) fn tick<O: Observer>(&mut self, observer: &mut O) -> Outcome
        ensures { SeatHappens L.is_honest K.is_honest (seat_moment L.Link K.Keeper self.old)
            (Event.Tick (party_of self.old.player)) result (seat_moment L.Link K.Keeper self.new) }
    {
        let outcome = self.node.tick(&mut self.link, MOST_PARTIES);
        let held = entries_of(self.node.held());
        let event = Event::Tick {
            party: party_of(self.player),
        };
        self.notes.note(observer, &event, &outcome, held);
        outcome
    }
}
