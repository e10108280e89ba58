//! A seat of a match in a process of its own.
ghost use Rattle.std.specs.Prelude.{◌≡◌, ◌↔◌, IsOk, IfOk, option_copied};
ghost use Rattle.bg_match.specs.Limits.{IsMatchLength};
ghost use Rattle.bg_match.specs.Terms.{match_length};
ghost use Rattle.bg_protocol.specs.Worlds.Views.{keeper_view, link_view};
ghost use Rattle.bg_processes.specs.Rounds.{IsOverAndSaved, GoesWhere, Tells, ends_takes as is_last_take, most_taken};
ghost use Rattle.bg_processes.specs.Runs.{Repeats};
ghost use Rattle.bg_processes.specs.SeatRounds.{IsToAct, PlaysChoice, PlaysSeatRound, RunsSeat, SavesClaim};
ghost use Rattle.bg_processes.specs.SeatRounds.{SeatBegins, SeatHappens, SendsWhere};
ghost use Rattle.bg_processes.specs.SeatRounds.{log_of, open_claim_at, seat_moment, take_at};
ghost use Rattle.bg_processes.specs.SeatRounds.{unanswered as not_answered};

mod events;
pub(crate) mod notes;
mod saving;

use crate::processes::rounds::{
    Going, MOST_TAKEN, count_of, ends_takes, is_over_and_saved, seat_acts,
};
use crate::processes::seat::notes::{SeatNotes, is_chosen, is_claim_of};
use bg_auto::Observer;
use bg_board::Player;
use bg_match::{Action, LengthFault, Number, Record, Terms};
use bg_world::{Keeper, Link, Outcome, SeatNode};
use std::alloc::Global;

/// The seat of a player as a process runs it, over its own link and keeper (docs/PROTOCOL.md,
/// "Parties in processes of their own"). A round takes what has come, saves where that is
/// worthwhile, and sends. Between two rounds the process waits, and its player may choose.
///
/// It saves each claim before it sends it. It saves the answer too, so that the next process doesn't
/// ask for it again: with the player's next claim, or else in the first round in which a tick is due.
/// It saves also when the match is over, so that its files have the whole match.
pub struct SeatProcess<L, K> {
    player: Player,
    node: SeatNode,
    link: L,
    keeper: K,
    notes: SeatNotes,
}

// Written out, so that an owner proves one call, and not the drop of each field.
impl<L: Drop, K: Drop> Drop for SeatProcess<L, K> {
    fn drop(self) {
        let SeatProcess {
            player: _,
            node: _,
            link: _,
            keeper: _,
            notes: _,
        } = self;
    }
}

impl<L: Link + Drop, K: Keeper + Drop> SeatProcess<L, K> {
    /// Creates the seat of a player that resumes from what its keeper's slots restore, and returns
    /// the outcome of that. If the outcome is not `Restarted`, the seat is down, and there is
    /// nothing to run.
    ///
    /// # Errors
    /// `LengthOutOfRange` where the length is not from 1 to 99.
    pub fn begin(
        alloc: Global,
        player: Player,
        id: u64,
        terms: Terms,
        link: L,
        mut keeper: K,
    ) -> Result<(SeatProcess<L, K>, Outcome), LengthFault>
        ensures ok { IsOk result ↔ IsMatchLength (match_length terms) }
        ensures begins { IfOk result (λ begun. SeatBegins K.is_honest player id terms (link_view L.Link link)
            (keeper_view K.Keeper keeper) begun.1 (seat_moment L.Link K.Keeper begun.0)) }
    {
        let (node, outcome) = SeatNode::begin(alloc, player, id, terms, &mut keeper)?;
        let notes = SeatNotes {
            saved: count_of(node.held()),
            claim_waits: false,
        };
        let process = SeatProcess {
            player,
            node,
            link,
            keeper,
            notes,
        };
        Ok((process, outcome))
    }
}

impl<L: Link, K: Keeper> SeatProcess<L, K> {
    /// Returns the seat's record; `None` exactly where it is down.
    pub fn held(&self) -> Option<&Record>
        ensures { option_copied result ≡ log_of (seat_moment L.Link K.Keeper self.now) }
    {
        self.node.held()
    }

    /// Returns the seat's link, for instance to wait for it.
    pub fn link(&self) -> &L
        ensures { result.now ≡ self.now.link }
    {
        &self.link
    }

    /// Returns the number, from 1, and the action of a claim that the record doesn't answer yet.
    pub fn open_claim(&self) -> Option<(Number, Action)>
        ensures { result ≡ open_claim_at (seat_moment L.Link K.Keeper self.now) }
    {
        unanswered(count_of(self.node.held()), self.node.claim())
    }

    /// Returns whether the player is to act by the seat's record, and has no open claim.
    pub fn acts(&self) -> bool
        ensures { Tells result (IsToAct (seat_moment L.Link K.Keeper self.now)) }
    {
        let Some(record) = self.node.held() else {
            return false;
        };
        if self.open_claim().is_some() {
            return false;
        }
        seat_acts(record, self.player)
    }

    /// Runs one round; `tick` says whether a tick is due. The observer is told what happens. Where no
    /// tick is due, an answer may stay unsaved.
    ///
    /// # Errors
    /// The outcome for which the seat is down for good, or can't save.
    pub fn round<O: Observer>(&mut self, tick: bool, observer: &mut O) -> Result<Going, Outcome>
        ensures parts { PlaysSeatRound L.is_honest K.is_honest (seat_moment L.Link K.Keeper self.old) tick
            result (seat_moment L.Link K.Keeper self.new) }
        ensures runs { RunsSeat L.is_honest K.is_honest (seat_moment L.Link K.Keeper self.old)
            (seat_moment L.Link K.Keeper self.new) }
    {
        self.play(tick, observer)
    }

    /// Claims the player's choice, saves and sends the claim, and returns the outcome of the
    /// choice. A failed save is such an outcome, and then nothing is claimed. Where there is no
    /// memory for the save, the next round saves.
    ///
    /// # Errors
    /// The outcome for which the seat is down for good, or can't save.
    pub fn choose<O: Observer>(
        &mut self,
        action: Action,
        observer: &mut O,
    ) -> Result<Outcome, Outcome>
        ensures parts { PlaysChoice L.is_honest K.is_honest (seat_moment L.Link K.Keeper self.old) action
            result (seat_moment L.Link K.Keeper self.new) }
        ensures runs { RunsSeat L.is_honest K.is_honest (seat_moment L.Link K.Keeper self.old)
            (seat_moment L.Link K.Keeper self.new) }
    {
        self.play_choice(action, observer)
    }

    /// Runs the parts of a [`round`](Self::round).
    fn play<O: Observer>(&mut self, tick: bool, observer: &mut O) -> Result<Going, Outcome>
        ensures { PlaysSeatRound L.is_honest K.is_honest (seat_moment L.Link K.Keeper self.old) tick
            result (seat_moment L.Link K.Keeper self.new) }
    {
        self.take_all(observer);
        match self.restart_or_save(tick, observer) {
            Ok(_) => {
                self.send(tick, observer);
                Ok(self.going())
            }
            Err(outcome) => Err(outcome),
        }
    }

    /// Runs the parts of [`choose`](Self::choose).
    fn play_choice<O: Observer>(
        &mut self,
        action: Action,
        observer: &mut O,
    ) -> Result<Outcome, Outcome>
        ensures { PlaysChoice L.is_honest K.is_honest (seat_moment L.Link K.Keeper self.old) action
            result (seat_moment L.Link K.Keeper self.new) }
    {
        let outcome = self.claim(action, observer);
        if !is_chosen(&outcome) {
            return Ok(outcome);
        }
        self.save_claim(outcome, observer)
    }

    /// Saves and sends a claim, whose choice had this outcome.
    fn save_claim<O: Observer>(
        &mut self,
        chosen: Outcome,
        observer: &mut O,
    ) -> Result<Outcome, Outcome>
        ensures { SavesClaim L.is_honest K.is_honest (seat_moment L.Link K.Keeper self.old) chosen
            result (seat_moment L.Link K.Keeper self.new) }
    {
        if let Err(outcome) = self.save_all(observer) {
            return Err(outcome);
        }
        // After a failed save an earlier claim may be open again.
        if !is_claim_of(&chosen, self.open_claim()) {
            return Ok(Outcome::SaveFault);
        }
        self.send(true, observer);
        Ok(chosen)
    }

    fn take_all<O: Observer>(&mut self, observer: &mut O)
        ensures { Repeats (SeatHappens L.is_honest K.is_honest) take_at is_last_take most_taken
            (seat_moment L.Link K.Keeper self.old) (seat_moment L.Link K.Keeper self.new) }
    {
        for _ in 0..MOST_TAKEN {
            if ends_takes(&self.take(observer)) {
                return;
            }
        }
    }

    /// Sends where a tick is due.
    fn send<O: Observer>(&mut self, tick: bool, observer: &mut O)
        ensures { SendsWhere L.is_honest K.is_honest tick (seat_moment L.Link K.Keeper self.old)
            (seat_moment L.Link K.Keeper self.new) }
    {
        if tick {
            self.tick(observer);
        }
    }

    /// Returns `Over` where the match is over, and all of it is saved.
    fn going(&self) -> Going
        ensures { GoesWhere (IsOverAndSaved (log_of (seat_moment L.Link K.Keeper self.now)) self.now.notes.saved) result }
    {
        if is_over_and_saved(self.node.held(), self.notes.saved) {
            Going::Over
        } else {
            Going::On
        }
    }
}

/// Returns the claim, if a record of `held` entries doesn't answer it.
fn unanswered(held: Number, claim: Option<(Number, Action)>) -> Option<(Number, Action)>
    ensures { result ≡ not_answered held claim }
{
    match claim {
        Some((number, action)) if held < number => Some((number, action)),
        _ => None,
    }
}
