//! Lists of entries appended to a record.
ghost use Rattle.std.specs.Prelude.{◌≡◌, ◌≢◌, ◌≤◌, ◌<◌, ◌+◌, ◌↔◌, ◌++◌, length, take, IsOk, OnOk, OnErr, IfOk, IfErr};

use super::Record;
use crate::made::make_room;
use crate::{Entry, ExtendFault, MOST_ENTRIES, Number, Standing};

impl Record {
    ghost use Rattle.bg_match.specs.Match.{StandsAt, IsLegalRecord, IsFirstIllegal, IsExtendFault, IsLog};

    /// Returns the standing that the match would have after these entries, one after the other.
    ///
    /// # Errors
    /// The number, from 1, of the first entry that does not follow those before it, as
    /// [`Record::check`] judges it. So no entry follows 1000000 entries.
    pub fn after_all(&self, entries: &[Entry]) -> Result<Standing, Number>
        ensures ok { IsOk result ↔ IsLegalRecord self.now.terms (self.now.entries ++ entries.now) }
        ensures after { IfOk result (λ after. StandsAt self.now.terms (self.now.entries ++ entries.now) after) }
        ensures first { IfErr result (λ n. IsFirstIllegal self.now.terms (self.now.entries ++ entries.now) n) }
    {
        let (mut number, mut standing) = (self.len(), self.standing());
        for entry in entries {
            number += 1;
            if number > MOST_ENTRIES || standing.apply(entry).is_err() {
                return Err(number);
            }
        }
        Ok(standing)
    }

    /// Appends all of these entries, one after the other, or none: a refusal changes nothing. Where
    /// there is room for them, each is judged once; else room is made as by [`Record::reserve`].
    ///
    /// # Errors
    /// `Illegal` as [`Record::after_all`]; last, `Memory` where the room is too small, and there is
    /// no memory for more.
    pub fn extend(&mut self, entries: &[Entry]) -> Result<(), ExtendFault>
        ensures ok { result ≢ Err ExtendFault.Memory →
            (IsOk result ↔ IsLegalRecord self.old.terms (self.old.entries ++ entries.now)) }
        ensures appended { OnOk result (self.new ≡ record self.old {
          entries = self.old.entries ++ entries.now;
          spare = self.new.spare;
        }) }
        ensures spare { OnOk result
            (length entries.now ≤ self.old.spare → self.new.spare + length entries.now ≡ self.old.spare) }
        ensures room { OnOk result (self.old.spare < length entries.now →
            length self.old.entries ≤ self.new.spare + length entries.now) }
        ensures legal { OnOk result (IsLegalRecord self.new.terms self.new.entries) }
        ensures log { IsLog self.new }
        ensures err { OnErr result (self.new ≡ self.old) }
        ensures fault { IfErr result (λ fault. IsExtendFault fault self.old entries.now) }
    {
        if entries.len() <= self.made.capacity() - self.made.len() {
            return self.extend_into_room(entries);
        }
        if let Err(number) = self.after_all(entries) {
            return Err(ExtendFault::Illegal(number));
        }
        if make_room(&mut self.made, entries.len()).is_err() {
            return Err(ExtendFault::Memory);
        }
        self.extend_into_room(entries)
    }

    /// Appends entries where there is room for them.
    fn extend_into_room(&mut self, entries: &[Entry]) -> Result<(), ExtendFault>
        requires { length entries.now ≤ self.old.spare }
        ensures ok { IsOk result ↔ IsLegalRecord self.old.terms (self.old.entries ++ entries.now) }
        ensures appended { OnOk result (self.new ≡ record self.old {
          entries = self.old.entries ++ entries.now;
          spare = self.new.spare;
        }) }
        ensures spare { OnOk result (self.new.spare + length entries.now ≡ self.old.spare) }
        ensures log { IsLog self.new }
        ensures err { OnErr result (self.new ≡ self.old) }
        ensures fault { IfErr result (λ fault. IsExtendFault fault self.old entries.now) }
    {
        let (held, before) = (self.len(), self.standing());
        for entry in entries {
            if self.push_into_room(entry.copy()).is_err() {
                let number = self.len() + 1;
                self.put_back(held, before);
                return Err(ExtendFault::Illegal(number));
            }
        }
        Ok(())
    }

    /// Puts the record back to where it had `held` entries and this standing.
    fn put_back(&mut self, held: Number, standing: Standing)
        requires within { held ≤ length self.old.entries }
        requires stands { StandsAt self.old.terms (take held self.old.entries) standing }
        ensures back { self.new ≡ record self.old { entries = take held self.old.entries; spare = self.new.spare } }
        ensures spare { self.new.spare + held ≡ self.old.spare + length self.old.entries }
        ensures log { IsLog self.new }
    {
        self.made.truncate(held as usize);
        self.standing = standing;
    }
}
