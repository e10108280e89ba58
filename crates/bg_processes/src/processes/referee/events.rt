//! The events at the node of a referee's process.
ghost use Rattle.std.specs.Prelude.{◌≡◌};
ghost use Rattle.bg_processes.specs.RefereeRounds.{RefereeHappens, due_at, referee_moment, take_at, tick_at, word_at};
ghost use Rattle.bg_wire.specs.Entries.Codes.{referee as referee_party};

use crate::processes::referee::RefereeProcess;
use crate::processes::rounds::{MOST_PARTIES, entries_of};
use bg_auto::Observer;
use bg_wire::REFEREE;
use bg_world::{Event, Keeper, Link, Outcome};

impl<L: Link, K: Keeper> RefereeProcess<L, K> {
    /// Returns the random word for the next entry.
    fn word(&self) -> u32
        ensures { result ≡ word_at (referee_moment L.Link K.Keeper self.now) }
    {
        self.notes.dice.keyed_word(&self.key)
    }

    pub(crate) fn due<O: Observer>(&mut self, observer: &mut O) -> Outcome
        ensures { RefereeHappens L.is_honest K.is_honest (referee_moment L.Link K.Keeper self.old)
            (due_at (referee_moment L.Link K.Keeper self.old)) result (referee_moment L.Link K.Keeper self.new) }
    {
        let word = self.word();
        let outcome = self.node.due(word);
        let held = entries_of(self.node.held());
        self.notes
            .note(observer, &Event::Due { word }, &outcome, held);
        outcome
    }

    pub(crate) fn take<O: Observer>(&mut self, observer: &mut O) -> Outcome
        ensures { RefereeHappens L.is_honest K.is_honest (referee_moment L.Link K.Keeper self.old)
            (take_at (referee_moment L.Link K.Keeper self.old)) result (referee_moment L.Link K.Keeper self.new) }
    {
        let word = self.word();
        let outcome = self.node.take(&mut self.link, MOST_PARTIES, 0, word);
        let event = Event::Take {
            party: REFEREE,
            pick: 0,
            word,
        };
        let held = entries_of(self.node.held());
        self.notes.note(observer, &event, &outcome, held);
        outcome
    }

    pub(crate) fn save<O: Observer>(&mut self, observer: &mut O) -> Outcome
        ensures { RefereeHappens L.is_honest K.is_honest (referee_moment L.Link K.Keeper self.old)
            (Event.Save referee_party) result (referee_moment L.Link K.Keeper self.new) }
    {
        let outcome = self.node.save(&mut self.keeper);
        let held = entries_of(self.node.held());
        let event = Event::Save { party: REFEREE };
        self.notes.note(observer, &event, &outcome, held);
        outcome
    }

    pub(crate) fn restart<O: Observer>(&mut self, observer: &mut O) -> Outcome
        ensures { RefereeHappens L.is_honest K.is_honest (referee_moment L.Link K.Keeper self.old)
            (Event.Restart referee_party) result (referee_moment L.Link K.Keeper self.new) }
    {
        let outcome = self.node.restart(&mut self.keeper);
        let held = entries_of(self.node.held());
        let event = Event::Restart { party: REFEREE };
        self.notes.note(observer, &event, &outcome, held);
        outcome
    }

    pub(crate) fn tick<O: Observer>(&mut self, observer: &mut O) -> Outcome
        ensures { RefereeHappens L.is_honest K.is_honest (referee_moment L.Link K.Keeper self.old)
            (tick_at (referee_moment L.Link K.Keeper self.old)) result (referee_moment L.Link K.Keeper self.new) }
    {
        let outcome = self.node.tick(&mut self.link, MOST_PARTIES);
        let held = entries_of(self.node.held());
        let event = Event::Tick { party: REFEREE };
        self.notes.note(observer, &event, &outcome, held);
        outcome
    }
}
