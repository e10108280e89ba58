//! The record of a match.
ghost use Rattle.std.specs.Prelude.{◌≡◌, ◌≢◌, ◌≤◌, ◌<◌, ◌+◌, ◌-◌, ◌↔◌, ◌⊎◌, ◌++◌, ◌∷◌, [], length, take, IsOk, IfOk};
ghost use Rattle.std.specs.Prelude.{OnOk, OnErr, IfErr, IsTrue, option_copied};
ghost use Rattle.std.specs.List.{AllByRecursion};
ghost use Rattle.bg_match.specs.Limits.{IsMatchLength, longest_match, most_entries, shortest_match};
ghost use Rattle.bg_match.specs.Match.{at_number};
ghost use Rattle.bg_match.specs.Terms.{match_length, rules_of, terms_of};

mod extending;
mod pushing;

use crate::made::{Made, made_at, make_room};
use crate::{
    Actor, Entry, EntryFault, LONGEST_MATCH, MOST_ENTRIES, Number, Rules, SHORTEST_MATCH, Standing,
    Terms,
};
use bg_board::Player;
use std::alloc::{AllocError, Global};
use std::marker::Model;

/// The reason why there is no match of this length.
#[derive(Clone, Copy, Debug, PartialEq, Eq)]
pub enum LengthFault {
    /// The length is not from 1 to 99.
    LengthOutOfRange,
}

/// The entries of a match, which are legal so far (docs/RULES.md, "Entries and phases"). Entries
/// are numbered from 1.
///
/// Contracts see the match id, the length of the match, the list of entries, and the number of
/// entries that there is still room for.
#[derive(Debug, Drop)]
pub struct Record {
    id: u64,
    terms: Terms,
    made: Vec<Made>,
    standing: Standing,
}

impl Model for Record {
    ghost use Rattle.std.specs.Prelude.{◌-◌, map, vec_len, vec_capacity};
    ghost use Rattle.bg_match.specs.Match.{Log, IsKept};

    ghost Value = { Log };

    ghost view = { λ r. record {
      id = r.id;
      terms = r.terms;
      entries = map (λ m. m.entry) r.made.items;
      spare = vec_capacity r.made - vec_len r.made;
    } };

    ghost invariant = { λ r. IsKept r.terms (map (λ m. m.entry) r.made.items)
        (map (λ m. m.seat) r.made.items) r.standing };
}

impl Record {
    ghost use Rattle.bg_match.specs.Entry.{IsEntry};
    ghost use Rattle.bg_match.specs.Match.{StandsAt, IsLegalRecord, IsNext, empty_log, ActsAfter, SeatAfter};
    ghost use Rattle.bg_match.specs.Match.{IsMarkedByScores, IsRecordFault, IsLog};

    /// Returns the record of a match with no entry.
    ///
    /// # Errors
    /// `LengthOutOfRange` where the length is not from 1 to 99.
    pub fn new(alloc: Global, id: u64, length: u8, rules: Rules) -> Result<Record, LengthFault>
        ensures ok { IsOk result ↔ IsMatchLength length }
        ensures value { IfOk result (λ log. log ≡ empty_log id (terms_of length rules)) }
        ensures log { IfOk result (λ log. IsLog log) }
    {
        if !(SHORTEST_MATCH..=LONGEST_MATCH).contains(&length) {
            return Err(LengthFault::LengthOutOfRange);
        }
        Ok(Record {
            id,
            terms: Terms { length, rules },
            made: Vec::new(alloc),
            standing: Standing::start(length, rules),
        })
    }

    /// Returns the number of entries, which is the number of the last one.
    pub fn len(&self) -> Number
        ensures value { result ≡ length self.now.entries }
        ensures legal { IsLegalRecord self.now.terms self.now.entries }
        ensures log { IsLog self.now }
        ensures in_range { AllByRecursion IsEntry self.now.entries }
    {
        self.made.len() as Number
    }

    /// Returns whether there is no entry.
    pub fn is_empty(&self) -> bool
        ensures { IsTrue result ↔ (self.now.entries ≡ []) }
    {
        self.made.is_empty()
    }

    /// Returns the entry of this number, from 1, or `None` for 0 and above the number of entries.
    pub fn entry(&self, number: Number) -> Option<&Entry>
        ensures { option_copied result ≡ at_number self.now.entries number }
    {
        let made = made_at(&self.made, number)?;
        Some(&made.entry)
    }

    /// Returns the player whose seat made the entry of this number, from 1. `None` for an entry of
    /// the referee, for 0 and above the number of entries.
    pub fn by(&self, number: Number) -> Option<Player>
        ensures seat { 1 ≤ number → number ≤ length self.now.entries →
            SeatAfter self.now.terms (take (number - 1) self.now.entries) result }
        ensures none { (number ≡ 0) ⊎ (length self.now.entries < number) → result ≡ None }
    {
        let made = made_at(&self.made, number)?;
        made.seat
    }

    /// Returns the number of the match.
    pub fn id(&self) -> u64
        ensures { result ≡ self.now.id }
    {
        self.id
    }

    /// Returns the length of the match in points, from 1 to 99.
    pub fn length(&self) -> u8
        ensures value { result ≡ match_length self.now.terms }
        ensures shortest { shortest_match ≤ result }
        ensures longest { result ≤ longest_match }
        ensures log { IsLog self.now }
    {
        self.terms.length
    }

    /// Returns the rules of the match.
    pub fn rules(&self) -> Rules
        ensures { result ≡ rules_of self.now.terms }
    {
        self.terms.rules
    }

    /// Returns the standing of the match after its entries.
    pub fn standing(&self) -> Standing
        ensures stands { StandsAt self.now.terms self.now.entries result }
        ensures length { result.terms ≡ self.now.terms }
        ensures crawford { IsMarkedByScores self.now.terms self.now.entries result }
    {
        self.standing
    }

    /// Returns the one who acts next.
    pub fn actor(&self) -> Actor
        ensures { ActsAfter self.now.terms self.now.entries result }
    {
        self.standing.actor()
    }

    /// Checks whether an entry may follow. The answer is that of `push`, but never `Memory`.
    ///
    /// # Errors
    /// `RecordFull` where there are 1000000 entries, else as [`Standing::next`].
    pub fn check(&self, entry: &Entry) -> Result<(), EntryFault>
        ensures ok { IsOk result ↔ IsNext self.now.terms self.now.entries entry.now }
        ensures fault { IfErr result (λ fault. IsRecordFault fault self.now entry.now) }
        ensures memory { result ≢ Err EntryFault.Memory }
    {
        self.after(entry)?;
        Ok(())
    }

    /// Appends an entry. A refusal changes nothing. Where there is no room, the record makes room
    /// for as many entries again, so that a record of any length is written in linear time.
    ///
    /// # Errors
    /// `RecordFull` where there are 1000000 entries, else as [`Standing::next`]; last, `Memory`
    /// where there is no room, and no memory for more.
    // A call takes some 30 instructions of the 100 that an offer takes to be read and appended.
    #[inline(always)]
    pub fn push(&mut self, entry: Entry) -> Result<(), EntryFault>
        ensures ok { result ≢ Err EntryFault.Memory → (IsOk result ↔ IsNext self.old.terms self.old.entries entry) }
        ensures appended { OnOk result (self.new ≡ record self.old {
          entries = self.old.entries ++ entry ∷ [];
          spare = self.new.spare;
        }) }
        ensures spare { OnOk result (0 < self.old.spare → self.new.spare + 1 ≡ self.old.spare) }
        ensures room { OnOk result (self.old.spare ≡ 0 → length self.old.entries ≤ self.new.spare + 1) }
        ensures legal { OnOk result (IsLegalRecord self.new.terms self.new.entries) }
        ensures log { IsLog self.new }
        ensures err { OnErr result (self.new ≡ self.old) }
        ensures fault { IfErr result (λ fault. IsRecordFault fault self.old entry) }
    {
        if self.made.len() < self.made.capacity() {
            self.push_into_room(entry)
        } else {
            self.push_growing(entry)
        }
    }

    /// Makes room for this many more entries, and for as many again as there are. Does nothing
    /// where there is room for this many already.
    ///
    /// # Errors
    /// `AllocError` where there is no memory for it; then nothing has changed.
    pub fn reserve(&mut self, count: Number) -> Result<(), AllocError>
        ensures room { OnOk result (count ≤ self.new.spare) }
        ensures again { OnOk result (self.old.spare < count → length self.old.entries ≤ self.new.spare) }
        ensures same { self.new ≡ record self.old { spare = self.new.spare } }
        ensures log { IsLog self.new }
        ensures there { count ≤ self.old.spare → IsOk result × (self.new ≡ self.old) }
        ensures err { OnErr result (self.new ≡ self.old) }
    {
        make_room(&mut self.made, count as usize)
    }

    /// Returns the same record, with room for its entries alone.
    ///
    /// # Errors
    /// `AllocError` where there is no memory for its entries.
    pub fn copy(&self) -> Result<Record, AllocError>
        ensures value { IfOk result (λ copy. copy ≡ record self.now { spare = 0 }) }
        ensures log { IfOk result (λ copy. IsLog copy) }
    {
        let mut made = Vec::with_capacity(*self.made.allocator(), self.made.len())?;
        for Made { entry, seat } in &self.made {
            made.push_reserved(Made {
                entry: entry.copy(),
                seat: *seat,
            });
        }
        Ok(Record {
            id: self.id,
            terms: self.terms,
            made,
            standing: self.standing,
        })
    }

    /// Returns the standing that the match would have after an entry.
    fn after(&self, entry: &Entry) -> Result<Standing, EntryFault>
        ensures ok { IsOk result ↔ IsNext self.now.terms self.now.entries entry.now }
        ensures after { IfOk result (λ after. (length self.now.entries < most_entries)
            × StandsAt self.now.terms (self.now.entries ++ entry.now ∷ []) after) }
        ensures fault { IfErr result (λ fault. IsRecordFault fault self.now entry.now) }
        ensures memory { result ≢ Err EntryFault.Memory }
    {
        if self.made.len() >= MOST_ENTRIES as usize {
            return Err(EntryFault::RecordFull);
        }
        self.standing.next(entry)
    }
}
