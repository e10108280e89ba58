//! The referee of a match in a process of its own.
ghost use Rattle.std.specs.Prelude.{◌≡◌, ◌↔◌, ◌||◌, IsOk, IfOk, Ok, if◌then◌else◌, option_copied};
ghost use Rattle.bg_match.specs.Limits.{IsMatchLength};
ghost use Rattle.bg_match.specs.Terms.{match_length};
ghost use Rattle.bg_wire.specs.Entries.Codes.{referee as referee_party};
ghost use Rattle.bg_protocol.specs.Worlds.Views.{keeper_view, link_view};
ghost use Rattle.bg_processes.specs.RefereeRounds.{EndsRound, IsServed, PlaysRefereeRound, RefereeBegins};
ghost use Rattle.bg_processes.specs.RefereeRounds.{RefereeHappens, RefereeRepeats, RunsRefereeRound, SavesNews};
ghost use Rattle.bg_processes.specs.RefereeRounds.{due_at, ends_dues as is_last_due, ends_pushes as is_last_push};
ghost use Rattle.bg_processes.specs.RefereeRounds.{log_of, most_due, most_pushes, quiet_later as quiet_after};
ghost use Rattle.bg_processes.specs.RefereeRounds.{referee_moment};
ghost use Rattle.bg_processes.specs.RefereeRounds.{take_at, tick_at};
ghost use Rattle.bg_processes.specs.Rounds.{GoesWhere, ends_takes as is_last_take, most_taken};
ghost use Rattle.bg_processes.specs.Runs.{Restarts};

mod events;
pub(crate) mod notes;

use crate::processes::referee::notes::RefereeNotes;
use crate::processes::rounds::{
    Going, MOST_TAKEN, count_of, ends_takes, entries_of, is_down, is_over_and_saved,
};
use bg_auto::{DiceAttempts, Observer};
use bg_match::{LengthFault, Record, Terms};
use bg_referee::DueFault;
use bg_world::{Keeper, Link, Outcome, RefereeNode, RestoreCause};
use std::alloc::Global;

/// Number of random words that a round tries for an opening that is due, at most.
const MOST_DUE: u32 = 16;

/// Number of times that one round forwards what a tick sends, at most.
const MOST_PUSHES: u32 = 128;

/// Number of quiet ticks after which the process ends. The match is over then, and no party that
/// lacks an entry was heard of. A party that lacks one asks at least every 32 ticks.
const QUIET_TICKS: u32 = 50;

/// The referee of a match as a process runs it, over its own link and keeper (docs/PROTOCOL.md,
/// "Parties in processes of their own"). Its dice are derived from a key. A round takes what has
/// come, adds what is due, saves, and sends. Between two rounds the process waits.
pub struct RefereeProcess<L, K> {
    node: RefereeNode,
    link: L,
    keeper: K,
    key: [u8; 32],
    notes: RefereeNotes,
}

// Written out, so that an owner proves one call, and not the drop of each field.
impl<L: Drop, K: Drop> Drop for RefereeProcess<L, K> {
    fn drop(self) {
        let RefereeProcess {
            node: _,
            link: _,
            keeper: _,
            key: _,
            notes: _,
        } = self;
    }
}

impl<L: Link + Drop, K: Keeper + Drop> RefereeProcess<L, K> {
    /// Creates the referee that resumes from what its keeper's slots restore, and returns the
    /// outcome of that. If the outcome is not `Restarted`, the referee is down, and there is
    /// nothing to run.
    ///
    /// # Errors
    /// `LengthOutOfRange` where the length is not from 1 to 99.
    pub fn begin(
        alloc: Global,
        id: u64,
        terms: Terms,
        key: [u8; 32],
        link: L,
        mut keeper: K,
    ) -> Result<(RefereeProcess<L, K>, Outcome), LengthFault>
        ensures ok { IsOk result ↔ IsMatchLength (match_length terms) }
        ensures begins { IfOk result (λ begun. RefereeBegins K.is_honest id terms key (link_view L.Link link)
            (keeper_view K.Keeper keeper) begun.1 (referee_moment L.Link K.Keeper begun.0)) }
    {
        let (node, outcome) = RefereeNode::begin(alloc, id, terms, &mut keeper)?;
        let notes = RefereeNotes {
            dice: DiceAttempts::first(entries_of(node.held())),
            saved: count_of(node.held()),
            quiet: 0,
        };
        let process = RefereeProcess {
            node,
            link,
            keeper,
            key,
            notes,
        };
        Ok((process, outcome))
    }
}

impl<L: Link, K: Keeper> RefereeProcess<L, K> {
    /// Returns the referee's record; `None` exactly where it is down.
    pub fn held(&self) -> Option<&Record>
        ensures { option_copied result ≡ log_of (referee_moment L.Link K.Keeper self.now) }
    {
        self.node.held()
    }

    /// Returns the referee's link, for instance to wait for it.
    pub fn link(&self) -> &L
        ensures { result.now ≡ self.now.link }
    {
        &self.link
    }

    /// Runs one round; `tick` says whether a tick is due. The observer is told what happens.
    ///
    /// # Errors
    /// The outcome for which the referee is down for good, or can't save.
    pub fn round<O: Observer>(&mut self, tick: bool, observer: &mut O) -> Result<Going, Outcome>
        ensures parts { PlaysRefereeRound L.is_honest K.is_honest (referee_moment L.Link K.Keeper self.old) tick
            result (referee_moment L.Link K.Keeper self.new) }
        ensures runs { RunsRefereeRound L.is_honest K.is_honest (referee_moment L.Link K.Keeper self.old)
            (referee_moment L.Link K.Keeper self.new) }
    {
        self.play(tick, observer)
    }

    /// Runs the parts of one round.
    fn play<O: Observer>(&mut self, tick: bool, observer: &mut O) -> Result<Going, Outcome>
        ensures { PlaysRefereeRound L.is_honest K.is_honest (referee_moment L.Link K.Keeper self.old) tick
            result (referee_moment L.Link K.Keeper self.new) }
    {
        self.take_all(observer);
        self.add_due(observer);
        match self.save_news(observer) {
            Ok(saved) => Ok(self.end_round(tick, saved, observer)),
            Err(outcome) => Err(outcome),
        }
    }

    fn take_all<O: Observer>(&mut self, observer: &mut O)
        ensures { RefereeRepeats L.is_honest K.is_honest take_at is_last_take most_taken
            (referee_moment L.Link K.Keeper self.old) (referee_moment L.Link K.Keeper self.new) }
    {
        for _ in 0..MOST_TAKEN {
            if ends_takes(&self.take(observer)) {
                return;
            }
        }
    }

    /// Opens a game, or passes a turn, where that is due.
    fn add_due<O: Observer>(&mut self, observer: &mut O)
        ensures { RefereeRepeats L.is_honest K.is_honest due_at is_last_due most_due
            (referee_moment L.Link K.Keeper self.old) (referee_moment L.Link K.Keeper self.new) }
    {
        for _ in 0..MOST_DUE {
            if ends_dues(&self.due(observer)) {
                return;
            }
        }
    }

    /// Saves where the record has grown, and restarts where the save failed or the referee is down.
    /// Returns whether something was saved.
    fn save_news<O: Observer>(&mut self, observer: &mut O) -> Result<bool, Outcome>
        ensures { SavesNews L.is_honest K.is_honest (referee_moment L.Link K.Keeper self.old) result
            (referee_moment L.Link K.Keeper self.new) }
    {
        if is_down(self.node.held()) {
            return self.begin_again(observer);
        }
        if count_of(self.node.held()) == self.notes.saved {
            return Ok(false);
        }
        match self.save(observer) {
            Outcome::Saved(_) => Ok(true),
            // The next round tries it again.
            Outcome::Memory => Ok(false),
            Outcome::SaveFault => self.begin_again(observer),
            outcome => Err(outcome),
        }
    }

    fn begin_again<O: Observer>(&mut self, observer: &mut O) -> Result<bool, Outcome>
        ensures { Restarts (RefereeHappens L.is_honest K.is_honest) referee_party
            (referee_moment L.Link K.Keeper self.old) result (referee_moment L.Link K.Keeper self.new) }
    {
        match self.restart(observer) {
            // Its slots may be readable again later: the next round tries them.
            Outcome::Restarted | Outcome::RestoreFault(RestoreCause::Device) => Ok(false),
            outcome => Err(outcome),
        }
    }

    /// Sends what is to be sent, where something was saved or a tick is due, and counts the tick.
    fn end_round<O: Observer>(&mut self, tick: bool, saved: bool, observer: &mut O) -> Going
        ensures { EndsRound L.is_honest K.is_honest tick (referee_moment L.Link K.Keeper self.old) saved (Ok result)
            (referee_moment L.Link K.Keeper self.new) }
    {
        self.push_all(pushes(tick, saved), observer);
        self.notes.quiet = quiet_later(self.notes.quiet, tick);
        self.going()
    }

    /// Sends what is to be sent unasked, at most `most` times.
    fn push_all<O: Observer>(&mut self, most: u32, observer: &mut O)
        ensures { RefereeRepeats L.is_honest K.is_honest tick_at is_last_push most
            (referee_moment L.Link K.Keeper self.old) (referee_moment L.Link K.Keeper self.new) }
    {
        for _ in 0..most {
            if ends_pushes(&self.tick(observer)) {
                return;
            }
        }
    }

    /// Returns `Over` where the match is over, all of it is saved, and the quiet ticks have passed.
    fn going(&self) -> Going
        ensures { GoesWhere (IsServed (referee_moment L.Link K.Keeper self.now)) result }
    {
        if self.notes.quiet <= QUIET_TICKS {
            return Going::On;
        }
        if is_over_and_saved(self.node.held(), self.notes.saved) {
            Going::Over
        } else {
            Going::On
        }
    }
}

/// Returns whether no further word is needed.
fn ends_dues(outcome: &Outcome) -> bool
    ensures { result ≡ is_last_due outcome.now }
{
    !matches!(
        outcome,
        Outcome::Due(Ok(_) | Err(DueFault::WordRefused | DueFault::EqualOpening))
    )
}

/// Returns whether nothing more is to be sent.
fn ends_pushes(outcome: &Outcome) -> bool
    ensures { result ≡ is_last_push outcome.now }
{
    match outcome {
        Outcome::Sent(count) => *count == 0,
        _ => true,
    }
}

/// Returns how many times a round forwards what a tick sends, given whether a tick is due and
/// whether something was saved.
fn pushes(tick: bool, saved: bool) -> u32
    ensures { result ≡ (if tick || saved then most_pushes else 0) }
{
    if tick || saved { MOST_PUSHES } else { 0 }
}

/// Counts one more quiet tick, if one was due.
fn quiet_later(quiet: u32, tick: bool) -> u32
    ensures { result ≡ quiet_after quiet tick }
{
    if tick { quiet.saturating_add(1) } else { quiet }
}
