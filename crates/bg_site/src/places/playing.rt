//! The actions and ticks of a match of the server.
ghost use Rattle.std.specs.Prelude.{◌≡◌};

use super::Place;
use crate::frames::Frames;
use crate::stores::Store;
use crate::summaries::Summary;
use bg_board::Player;
use bg_hosted::{Acted, is_answered};
use bg_match::{Action, Number, Record};
use bg_world::Keeper;

impl<K: Keeper + Drop> Place<K> {
    /// Returns whether it has something left to do on a tick.
    pub(crate) fn is_restless(&self) -> bool {
        match &self.hosted {
            Some(hosted) => hosted.is_restless(),
            None => false,
        }
    }

    /// Returns whether a tick has nothing to do, because the match is too long to be saved and all
    /// that was saved is shown.
    pub(crate) fn is_still<S: Store<K>>(&self, store: &S) -> bool {
        match &self.hosted {
            Some(hosted) => store.is_full(self.name.as_str()) && !hosted.is_behind(),
            None => false,
        }
    }

    /// Does what is left to do. Returns whether anything became visible.
    pub(crate) fn tick(&mut self) -> bool {
        if let Some(hosted) = &mut self.hosted {
            if hosted.is_restless() {
                hosted.tick();
            }
        }
        self.refresh()
    }

    /// Carries out a player's action while the match is in progress.
    pub(crate) fn act(&mut self, player: Player, number: Number, action: Action) -> Acted {
        match &mut self.hosted {
            Some(hosted) => hosted.act(player, number, action),
            None => Acted::OtherEntry,
        }
    }

    /// Returns the outcome of an action in a match of which nothing more can be saved.
    pub(crate) fn acted_when_full(&self, player: Player, number: Number, action: &Action) -> Acted {
        match self.held() {
            Some(record) if is_answered(record, player, number, action) => Acted::Done,
            _ => Acted::Failed,
        }
    }

    /// Notes what became visible, and returns whether anything did. Releases the hosted match once
    /// it is over.
    pub(crate) fn refresh(&mut self) -> bool
        ensures { self.new.seats ≡ self.old.seats }
    {
        let Some(hosted) = &self.hosted else {
            return false;
        };
        let is_over = hosted.is_over();
        if hosted.told() == self.summary.entries {
            return false;
        }
        if let Some(record) = hosted.shown() {
            self.summary = Summary::of(record);
        }
        if is_over {
            self.hosted = None;
        }
        self.version = self.version.saturating_add(1);
        self.frames = Frames::none();
        true
    }
}

/// Returns the outcome of an action in a match that has ended with this record: `Done` if the entry
/// of that number answers it.
pub(crate) fn acted_before(
    record: &Record,
    player: Player,
    number: Number,
    action: &Action,
) -> Acted {
    if is_answered(record, player, number, action) {
        Acted::Done
    } else {
        Acted::OtherEntry
    }
}
