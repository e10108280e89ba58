//! Changes that the operator of a server makes to its matches while it runs.

use crate::peers::Peer;
use crate::places::Place;
use crate::sites::Site;
use crate::stores::{Found, Store};
use bg_requests::Seats;
use bg_system::Names;
use bg_world::Keeper;

/// The parts of a match that an operator may change.
#[derive(Clone, Copy)]
pub struct Changed {
    pub names: Names,
    /// `None` if nobody may play the match here.
    pub seats: Option<Seats>,
    /// Whether lists leave the match out.
    pub is_hidden: bool,
}

/// The number of times that the link of each seat has been replaced.
#[derive(Clone, Copy)]
pub(crate) struct SeatChanges {
    pub(crate) x: u64,
    pub(crate) o: u64,
}

impl SeatChanges {
    /// The numbers at the start: no link has been replaced.
    pub(crate) const NONE: SeatChanges = SeatChanges { x: 0, o: 0 };

    /// Counts the seats that have another secret now. If there are no seats before or after, counts
    /// both.
    pub(crate) fn note(&mut self, old: &Option<Seats>, new: &Option<Seats>) {
        let (Some(old), Some(new)) = (old, new) else {
            self.x = self.x.saturating_add(1);
            self.o = self.o.saturating_add(1);
            return;
        };
        if old.x != new.x {
            self.x = self.x.saturating_add(1);
        }
        if old.o != new.o {
            self.o = self.o.saturating_add(1);
        }
    }
}

impl<K: Keeper + Drop, S: Store<K> + Drop> Site<K, S> {
    /// Sets after how many minutes without an action a match is listed as idle; 0 for never.
    pub fn set_idle(&mut self, minutes: u64) {
        self.patience.idle = minutes;
    }

    /// Returns the match with this name, unless it has been deleted.
    fn named_mut(&mut self, name: &str) -> Option<&mut Place<K>> {
        let index = self.by_name(name)?;
        self.places.get_mut(index)
    }

    /// Applies an operator's change to a match. Returns whether there is such a match.
    pub fn change(&mut self, name: &str, changed: Changed) -> bool {
        let Some(place) = self.named_mut(name) else {
            return false;
        };
        place.change(changed);
        let _ = self.note_news();
        true
    }

    /// Adds a match that another server has made, or updates one in which another server has acted.
    /// The match continues from what its keepers have now, and its peers are sent its state again.
    /// If it has no other number of entries now, nobody has acted: it stays idle, and keeps its
    /// place in lists. Returns false if there is no room or no memory for it; then nothing changes.
    pub fn replace(&mut self, found: Found<K>) -> bool {
        let (alloc, news, minute) = (self.alloc, self.note_news(), self.patience.now);
        let Some(place) = self.named_mut(found.name.as_str()) else {
            return self.open(found);
        };
        let (was_live, entries) = (place.is_live(), place.summary.entries);
        if !place.replace(alloc, found) {
            return false;
        }
        if place.summary.entries != entries {
            place.note_action(news, minute);
        }
        if was_live && !place.is_live() {
            self.counts.note_end();
        }
        true
    }

    /// Returns the name of the match that a peer is connected to.
    pub fn name_of(&self, peer: &Peer) -> Option<&str> {
        match self.places.get(peer.place?) {
            Some(place) => Some(place.name.as_str()),
            None => None,
        }
    }

    /// Removes a match that the operator has deleted. Returns whether there was such a match.
    pub fn remove(&mut self, name: &str) -> bool {
        let Some(place) = self.named_mut(name) else {
            return false;
        };
        place.remove();
        self.gone = self.gone.saturating_add(1);
        let _ = self.note_news();
        true
    }

    /// Returns whether a peer may keep its WebSocket: not if its match has been deleted, or if its
    /// seat has another secret now.
    pub(crate) fn may_stay(&self, peer: &Peer) -> bool {
        let Some(index) = peer.place else {
            return true;
        };
        match self.places.get(index) {
            Some(place) => place.has_room_for(peer),
            None => false,
        }
    }
}
