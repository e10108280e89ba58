//! The reorder buffer: early entries, which are kept until those before them come.
ghost use Rattle.std.specs.Prelude.{◌≡◌, ◌≢◌, ◌+◌, ◌<◌, ◌≤◌, ◌↔◌, ◌^◌, ℕ, Some, [], length, drop, max, IsTrue};
ghost use Rattle.std.specs.Prelude.{if◌then◌else◌};
ghost use Rattle.bg_party.specs.Window.{at_place, early_behind, window_size, KeepsFrom};

use arrayvec::ArrayVec;
use bg_match::Entry;
use std::marker::Model;

/// The size of the reorder buffer: how far behind the last entry of a record an early one may be to
/// be kept, in entries (docs/PROTOCOL.md, "The window").
pub const WINDOW: usize = 32;

/// The reorder buffer. Its first place is for the number behind the last one of the record
/// (docs/PROTOCOL.md, "The window").
///
/// Contracts see its places.
#[derive(Debug, Drop)]
pub(crate) struct Window {
    places: ArrayVec<Option<Entry>, WINDOW>,
}

impl Model for Window {
    ghost use Rattle.std.specs.Prelude.{List, Option};
    ghost use Rattle.bg_match.specs.declared.entries.Entry.{Entry};

    ghost Value = { List (Option Entry) };

    ghost view = { λ w. w.places.items };
}

impl Window {
    /// Returns a buffer that keeps nothing.
    pub(crate) fn empty() -> Window
        ensures { result ≡ [] }
    {
        Window {
            places: ArrayVec::new(),
        }
    }

    /// Keeps entries from a place on, as far as there are places, in place of those that are kept
    /// there.
    pub(crate) fn keep(&mut self, first: usize, list: &[Entry])
        requires few { length self.old ≤ window_size }
        requires fits { first + length list.now < 2 ^ 64 }
        ensures keeps { KeepsFrom self.old first list.now self.new }
        ensures few { length self.new ≤ window_size }
        ensures reach { length self.new ≤ max (length self.old) (first + length list.now) }
    {
        for (index, entry) in list.iter().enumerate() {
            if first + index >= WINDOW {
                return;
            }
            self.put(first + index, entry.copy());
        }
    }

    /// Keeps an entry at a place, in place of the one that is kept there.
    fn put(&mut self, place: usize, entry: Entry)
        requires few { length self.old ≤ window_size }
        requires place { place < window_size }
        ensures put { at_place self.new place ≡ Some entry }
        ensures others { (i : ℕ) → i ≢ place → at_place self.new i ≡ at_place self.old i }
        ensures few { length self.new ≤ window_size }
        ensures reach { length self.new ≤ max (length self.old) (place + 1) }
    {
        while self.places.len() <= place {
            self.places.push(None);
        }
        self.places.as_mut_slice()[place] = Some(entry);
    }

    /// Returns the entries right behind the first `count` places, up to the first that is missing.
    pub(crate) fn behind(&self, count: usize) -> ArrayVec<Entry, WINDOW>
        ensures { result.items ≡ early_behind self.now count }
    {
        let mut entries = ArrayVec::new();
        let Some(rest) = self.places.as_slice().get(count..) else {
            return entries;
        };
        for place in rest {
            let Some(entry) = place else {
                return entries;
            };
            entries.push(entry.copy());
        }
        entries
    }

    /// Returns whether no entry is kept right behind the first `count` places.
    pub(crate) fn is_empty_behind(&self, count: usize) -> bool
        ensures { IsTrue result ↔ (early_behind self.now count ≡ []) }
    {
        !matches!(self.places.as_slice().get(count), Some(Some(_)))
    }

    /// Removes the first `count` places. Where the entry behind them does not follow, drops all
    /// that is kept.
    pub(crate) fn pass(&mut self, count: usize, stuck: bool)
        ensures { self.new ≡ (if stuck then [] else drop count self.old) }
    {
        if stuck {
            self.places.clear();
        } else {
            self.leave(count);
        }
    }

    /// Removes the first `count` places.
    fn leave(&mut self, count: usize)
        ensures { self.new ≡ drop count self.old }
    {
        let count = count.min(self.places.len());
        self.places.drain(..count);
    }
}
