//! Entries appended to a record.
ghost use Rattle.std.specs.Prelude.{◌≡◌, ◌≢◌, ◌≤◌, ◌<◌, ◌+◌, ◌↔◌, ◌++◌, ◌∷◌, [], length, IsOk, OnOk, OnErr, IfErr};

use super::Record;
use crate::made::{Made, make_room};
use crate::{Entry, EntryFault, MOST_ENTRIES};

impl Record {
    ghost use Rattle.bg_match.specs.Match.{IsNext, IsRecordFault, IsLegalRecord, IsLog};

    /// Appends an entry where there is room for it.
    #[inline(always)]
    pub(super) fn push_into_room(&mut self, entry: Entry) -> Result<(), EntryFault>
        requires { 0 < self.old.spare }
        ensures ok { IsOk result ↔ IsNext self.old.terms self.old.entries entry }
        ensures appended { OnOk result (self.new ≡ record self.old {
          entries = self.old.entries ++ entry ∷ [];
          spare = self.new.spare;
        }) }
        ensures spare { OnOk result (self.new.spare + 1 ≡ self.old.spare) }
        ensures legal { OnOk result (IsLegalRecord self.new.terms self.new.entries) }
        ensures log { IsLog self.new }
        ensures err { OnErr result (self.new ≡ self.old) }
        ensures fault { IfErr result (λ fault. IsRecordFault fault self.old entry) }
    {
        if self.made.len() >= MOST_ENTRIES as usize {
            return Err(EntryFault::RecordFull);
        }
        let seat = self.standing.actor().seat();
        self.standing.apply(&entry)?;
        self.made.push_reserved(Made { entry, seat });
        Ok(())
    }

    /// Appends an entry, and makes room where there is none. It is rare, and so kept out of `push`.
    #[inline(never)]
    pub(super) fn push_growing(&mut self, entry: Entry) -> Result<(), EntryFault>
        ensures ok { result ≢ Err EntryFault.Memory → (IsOk result ↔ IsNext self.old.terms self.old.entries entry) }
        ensures appended { OnOk result (self.new ≡ record self.old {
          entries = self.old.entries ++ entry ∷ [];
          spare = self.new.spare;
        }) }
        ensures spare { OnOk result (0 < self.old.spare → self.new.spare + 1 ≡ self.old.spare) }
        ensures room { OnOk result (self.old.spare ≡ 0 → length self.old.entries ≤ self.new.spare + 1) }
        ensures legal { OnOk result (IsLegalRecord self.new.terms self.new.entries) }
        ensures log { IsLog self.new }
        ensures err { OnErr result (self.new ≡ self.old) }
        ensures fault { IfErr result (λ fault. IsRecordFault fault self.old entry) }
    {
        let after = self.after(&entry)?;
        if make_room(&mut self.made, 1).is_err() {
            return Err(EntryFault::Memory);
        }
        let seat = self.standing.actor().seat();
        self.made.push_reserved(Made { entry, seat });
        self.standing = after;
        Ok(())
    }
}
