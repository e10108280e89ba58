//! Saves of a party, in two steps: what is to be written, and what became of the write.
ghost use Rattle.std.specs.Prelude.{◌≡◌, ℕ, Some};
ghost use Rattle.bg_wire.specs.Saved.SavedText.{SavedParts};
ghost use Rattle.bg_wire.specs.Saved.Saves.{IsNextSave};
ghost use Rattle.bg_protocol.specs.Devices.KeeperCalls.{BeginsSave, EndsSave, SaveCallsAt, begun};
ghost use Rattle.bg_protocol.specs.Worlds.UnderWay.{next_of, under_way_after};
ghost use Rattle.bg_protocol.specs.Worlds.Views.{keeper_view};

use crate::nodes::keeper_calls::write_slot;
use crate::{DeviceFault, Keeper, Outcome};
use bg_party::{Learned, Seat};
use bg_referee::{Referee, TakeOutcome};
use bg_wire::{SaveRefusal, Slot};

/// A save that was begun: what is to be written, and where.
#[derive(Debug, Drop)]
pub struct Save {
    /// The slot that the text is to be written to.
    pub slot: Slot,
    /// The number of the save, from 1.
    pub number: u32,
    /// The text.
    pub text: Vec<u8>,
}

/// The core of a party that saves.
pub(crate) trait Saves {
    /// What its next save tells.
    ghost parts: { Self → SavedParts };

    /// The core after its save of this number was written.
    ghost after_save: { Self → ℕ → Self };

    /// Returns the slot, the number and the text of the next save.
    fn next_save(&self) -> Result<(Slot, u32, Vec<u8>), SaveRefusal>
        ensures { IsNextSave (parts self.now) result };

    /// Marks the next save, of this number, as written.
    fn mark_written(&mut self, number: u32)
        requires { number ≡ (parts self.old).save }
        ensures { self.new ≡ after_save self.old number };
}

impl Saves for Referee {
    ghost use Rattle.bg_referee.specs.Referee.{referee_after_save};
    ghost use Rattle.bg_protocol.specs.Worlds.Calls.{referee_parts};

    ghost parts = { referee_parts };

    ghost after_save = { referee_after_save };

    fn next_save(&self) -> Result<(Slot, u32, Vec<u8>), SaveRefusal> {
        self.to_save()
    }

    fn mark_written(&mut self, number: u32) {
        self.mark_saved(number);
    }
}

impl Saves for Seat {
    ghost use Rattle.bg_party.specs.Views.{seat_after_save};
    ghost use Rattle.bg_protocol.specs.Worlds.Calls.{seat_parts};

    ghost parts = { seat_parts };

    ghost after_save = { seat_after_save };

    fn next_save(&self) -> Result<(Slot, u32, Vec<u8>), SaveRefusal> {
        self.to_save()
    }

    fn mark_written(&mut self, number: u32) {
        self.mark_saved(number);
    }
}

/// Ends a save that is under way where the record or the claim has changed by this outcome.
pub(crate) fn end_where_changed(under_way: &mut Option<u32>, outcome: &Outcome)
    ensures { under_way.new ≡ under_way_after under_way.old outcome.now }
{
    let is_change = matches!(
        outcome,
        Outcome::Due(Ok(_))
            | Outcome::Took(TakeOutcome::Accepted(_))
            | Outcome::Learned(Learned::Grew(_))
            | Outcome::Chose(Ok(_))
    );
    if is_change {
        *under_way = None;
    }
}

/// Returns the save that is begun, or the outcome where there is none.
fn begun(next: Result<(Slot, u32, Vec<u8>), SaveRefusal>) -> Result<Save, Outcome>
    ensures { result ≡ begun next }
{
    match next {
        Ok((slot, number, text)) => Ok(Save { slot, number, text }),
        Err(SaveRefusal::SavesSpent) => Err(Outcome::SavesSpent),
        Err(SaveRefusal::Memory) => Err(Outcome::Memory),
    }
}

/// Returns the next save of a party, or the outcome where there is none. Nothing is written yet.
pub(crate) fn begin_save<C: Saves>(core: &Option<C>) -> Result<Save, Outcome>
    ensures { BeginsSave C.parts core.now result }
{
    match core {
        None => Err(Outcome::Down),
        Some(core) => begun(core.next_save()),
    }
}

/// Ends the next save of a party that is up, whose write had this answer, with a place for the
/// outcome. It is down where the write failed.
pub(crate) fn end_save<C: Saves + Drop>(
    core: &mut Option<C>,
    number: u32,
    written: Result<(), DeviceFault>,
    outcome: &mut Outcome,
)
    requires { next_of C.parts core.old ≡ Some number }
    ensures { EndsSave C.after_save core.old number written outcome.new core.new }
{
    let Some(up) = core else {
        *outcome = Outcome::Down;
        return;
    };
    match written {
        Ok(()) => {
            up.mark_written(number);
            *outcome = Outcome::Saved(number);
        }
        Err(_) => {
            *core = None;
            *outcome = Outcome::SaveFault;
        }
    }
}

/// Saves what a party holds, with a place for the outcome. It is down where the write fails.
pub(crate) fn save_party<C: Saves + Drop, K: Keeper>(
    keeper: &mut K,
    core: &mut Option<C>,
    outcome: &mut Outcome,
)
    ensures { SaveCallsAt C.parts C.after_save K.is_honest (keeper_view K.Keeper keeper.old) core.old
        outcome.new (keeper_view K.Keeper keeper.new) core.new }
{
    let Some(up) = core else {
        *outcome = Outcome::Down;
        return;
    };
    match up.next_save() {
        Ok((slot, number, text)) => {
            let written = write_slot(keeper, slot, text.as_slice());
            end_save(core, number, written, outcome);
        }
        Err(SaveRefusal::SavesSpent) => *outcome = Outcome::SavesSpent,
        Err(SaveRefusal::Memory) => *outcome = Outcome::Memory,
    }
}
