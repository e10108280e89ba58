//! The times when a seat's process saves.
ghost use Rattle.std.specs.Prelude.{◌≡◌, true};
ghost use Rattle.bg_wire.specs.Parties.{party_of as party_for};
ghost use Rattle.bg_processes.specs.Runs.{Restarts, Saves};
ghost use Rattle.bg_processes.specs.SeatRounds.{RestartsOrSaves, RunsSeat, SavesWorth, SeatHappens, WantsSave};
ghost use Rattle.bg_processes.specs.SeatRounds.{is_answered as is_answered_by, seat_moment};

use crate::processes::rounds::{count_of, is_down, is_over};
use crate::processes::seat::SeatProcess;
use bg_auto::Observer;
use bg_match::{Action, Number};
use bg_world::{Keeper, Link, Outcome, RestoreCause};

impl<L: Link, K: Keeper> SeatProcess<L, K> {
    /// Saves at once what a round with a tick would save, or restarts where the seat is down. A
    /// process that ends between two rounds calls it first. Returns whether something was written.
    ///
    /// # Errors
    /// The outcome for which the seat is down for good, or can't save.
    pub fn save_now<O: Observer>(&mut self, observer: &mut O) -> Result<bool, Outcome>
        ensures parts { RestartsOrSaves L.is_honest K.is_honest (seat_moment L.Link K.Keeper self.old) true
            result (seat_moment L.Link K.Keeper self.new) }
        ensures runs { RunsSeat L.is_honest K.is_honest (seat_moment L.Link K.Keeper self.old)
            (seat_moment L.Link K.Keeper self.new) }
    {
        self.restart_or_save(true, observer)
    }

    /// Returns whether a save is worthwhile, where a tick is due or not. The save of an answer
    /// waits for a tick, as the player's next claim may be saved before, and the answer with it.
    fn wants_save(&self, tick: bool) -> bool
        ensures { WantsSave (seat_moment L.Link K.Keeper self.now) tick result }
    {
        let held = count_of(self.node.held());
        let is_answered = is_answered(held, self.notes.saved, self.node.claim());
        let is_over = is_over(self.node.held());
        self.notes.claim_waits || (tick && is_answered) || (is_over && held != self.notes.saved)
    }

    /// Restarts where the seat is down, and otherwise saves where that is worthwhile. Returns
    /// whether something was written.
    pub(crate) fn restart_or_save<O: Observer>(
        &mut self,
        tick: bool,
        observer: &mut O,
    ) -> Result<bool, Outcome>
        ensures { RestartsOrSaves L.is_honest K.is_honest (seat_moment L.Link K.Keeper self.old) tick result
            (seat_moment L.Link K.Keeper self.new) }
    {
        if is_down(self.node.held()) {
            return self.begin_again(observer);
        }
        self.save_worth(tick, observer)
    }

    /// Saves where that is worthwhile. Returns whether it was written.
    fn save_worth<O: Observer>(&mut self, tick: bool, observer: &mut O) -> Result<bool, Outcome>
        ensures { SavesWorth L.is_honest K.is_honest (seat_moment L.Link K.Keeper self.old) tick result
            (seat_moment L.Link K.Keeper self.new) }
    {
        if !self.wants_save(tick) {
            return Ok(false);
        }
        self.save_all(observer)
    }

    /// Saves, and restarts where that failed. Returns whether it was written.
    pub(crate) fn save_all<O: Observer>(&mut self, observer: &mut O) -> Result<bool, Outcome>
        ensures { Saves (SeatHappens L.is_honest K.is_honest) (party_for self.old.player)
            (seat_moment L.Link K.Keeper self.old) result (seat_moment L.Link K.Keeper self.new) }
    {
        match self.save(observer) {
            Outcome::Saved(_) => Ok(true),
            // The next round tries it again.
            Outcome::Memory => Ok(false),
            Outcome::SaveFault => self.begin_again(observer),
            outcome => Err(outcome),
        }
    }

    fn begin_again<O: Observer>(&mut self, observer: &mut O) -> Result<bool, Outcome>
        ensures { Restarts (SeatHappens L.is_honest K.is_honest) (party_for self.old.player)
            (seat_moment L.Link K.Keeper self.old) result (seat_moment L.Link K.Keeper self.new) }
    {
        match self.restart(observer) {
            // Its slots may be readable again later: the next round tries them.
            Outcome::Restarted | Outcome::RestoreFault(RestoreCause::Device) => Ok(false),
            outcome => Err(outcome),
        }
    }
}

/// Returns whether a record of `held` entries answers a claim that is open in the last save, which
/// has `saved` entries.
fn is_answered(held: Number, saved: Number, claim: Option<(Number, Action)>) -> bool
    ensures { result ≡ is_answered_by held saved claim }
{
    match claim {
        Some((number, _)) => number <= held && saved < number,
        None => false,
    }
}
