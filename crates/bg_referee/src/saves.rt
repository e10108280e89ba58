//! The saves of the referee.
ghost use Rattle.std.specs.Prelude.{◌≡◌, None};
ghost use Rattle.bg_wire.specs.Entries.Codes.{referee};
ghost use Rattle.bg_wire.specs.Saved.Saves.{IsNextSave};
ghost use Rattle.bg_wire.specs.Saved.SavedText.{parts_with};

use crate::Referee;
use bg_wire::{REFEREE, SaveRefusal, Slot, next_save};

impl Referee {
    ghost use Rattle.bg_referee.specs.Referee.{referee_after_save};

    /// Returns the slot, the number and the text of the next save (docs/PROTOCOL.md, "Saving"). It
    /// changes nothing. Once the text is durable, call `mark_saved`.
    ///
    /// # Errors
    /// `SavesSpent` where the last save was that of number 4294967295, else `Memory` where there is
    /// no memory for the text.
    pub fn to_save(&self) -> Result<(Slot, u32, Vec<u8>), SaveRefusal>
        ensures { IsNextSave (parts_with referee self.now.next_save None self.now.log) result }
    {
        next_save(self.alloc, self.last_save, REFEREE, &None, &self.log)
    }

    /// Marks the next save as written, so that all that is held is saved. `save` is the number that
    /// `to_save` returned, and no other call may come between the two (docs/PROTOCOL.md, "Saving").
    pub fn mark_saved(&mut self, save: u32)
        requires { save ≡ self.old.next_save }
        ensures { self.new ≡ referee_after_save self.old save }
    {
        self.saved = self.log.len();
        self.last_save = save;
    }
}
