//! What matches have left to do when time has passed.

use crate::sites::Site;
use crate::stores::Store;
use bg_world::Keeper;

impl<K: Keeper + Drop, S: Store<K> + Drop> Site<K, S> {
    /// Returns whether any match has something left to do on a tick.
    pub fn is_restless(&self) -> bool {
        for index in 0..self.places.len() {
            if self.is_restless_at(index) {
                return true;
            }
        }
        false
    }

    /// Returns whether the match at an index has something left to do on a tick.
    fn is_restless_at(&self, index: usize) -> bool {
        match self.places.get(index) {
            Some(place) => place.is_restless() && !place.is_still(&self.store),
            None => false,
        }
    }

    /// Ticks the matches that have something left to do.
    pub fn tick(&mut self) {
        for index in 0..self.places.len() {
            self.tick_at(index);
        }
    }

    /// Ticks the match at an index, if it has something left to do.
    fn tick_at(&mut self, index: usize) {
        let (news, minute) = (self.news.saturating_add(1), self.patience.now);
        if let Some(place) = self.places.get_mut(index) {
            if !place.is_still(&self.store) && place.tick() {
                place.note_action(news, minute);
                self.news = news;
                if !place.is_live() {
                    self.counts.note_end();
                }
            }
        }
    }
}
