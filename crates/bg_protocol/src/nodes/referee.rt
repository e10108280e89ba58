//! The referee of a match, by itself.
ghost use Rattle.std.specs.Prelude.{◌≡◌, ◌↔◌, None, Some, IsOk, IfOk, IsSome, MatchOption, MatchResult, option_copied};
ghost use Rattle.bg_match.specs.Limits.{IsMatchLength};
ghost use Rattle.bg_match.specs.Terms.{match_length};
ghost use Rattle.bg_protocol.specs.Devices.KeeperCalls.{BeginsSave};
ghost use Rattle.bg_protocol.specs.Worlds.Calls.{referee_parts};
ghost use Rattle.bg_protocol.specs.Worlds.UnderWay.{IsUnderWay, under_way_after, under_way_from};
ghost use Rattle.bg_protocol.specs.Worlds.Starts.{referee_log};
ghost use Rattle.bg_protocol.specs.Worlds.Views.{keeper_view, link_view};

use crate::nodes::restarts::restart_referee;
use crate::nodes::saves::{begin_save, end_save, end_where_changed, save_party};
use crate::nodes::takes::take_at_referee;
use crate::nodes::ticks::tick_referee;
use crate::{DeviceFault, Keeper, Link, Outcome, Save};
use bg_match::{LengthFault, Record, Terms};
use bg_referee::Referee;
use std::alloc::Global;

/// The referee of a match as a node of its own: its core, while it is up. A process that runs the
/// referee alone makes these calls, and a [`World`](crate::World) makes the same ones
/// (docs/PROTOCOL.md, "Parties in processes of their own"). Each call is handed the link or the
/// keeper that it is to use.
///
/// A save in two steps is [`begin_save`](Self::begin_save), a write by the host, and
/// [`end_save`](Self::end_save).
///
/// Contracts see the match, the core while it is up, and the number of the save that is under way.
#[derive(Drop)]
pub struct RefereeNode {
    alloc: Global,
    id: u64,
    terms: Terms,
    core: Option<Referee>,
    /// The number of the save that is under way.
    under_way: Option<u32>,
    ghost length_in_range: { IsMatchLength (match_length terms) },
    ghost next: { IsUnderWay referee_parts core under_way },
}

impl RefereeNode {
    ghost use Rattle.bg_protocol.specs.Worlds.Nodes.{RefereeNodeDues, RefereeNodeEndsSave, RefereeNodeRestarts};
    ghost use Rattle.bg_protocol.specs.Worlds.Nodes.{RefereeNodeSaves, RefereeNodeTakes, RefereeNodeTicks};
    ghost use Rattle.bg_protocol.specs.Worlds.Nodes.{fresh_referee_node, referee_node_of};

    /// Starts the referee from what the slots of its keeper restore, and returns it with the
    /// outcome of that. It is down where the outcome is not `Restarted`. Each process starts so,
    /// both the first of a match and each later one.
    ///
    /// # Errors
    /// `LengthOutOfRange` where the length is not from 1 to 99. Then the keeper is asked nothing.
    pub fn begin<K: Keeper>(
        alloc: Global,
        id: u64,
        terms: Terms,
        keeper: &mut K,
    ) -> Result<(RefereeNode, Outcome), LengthFault>
        ensures ok { IsOk result ↔ IsMatchLength (match_length terms) }
        ensures value { MatchResult result
            (λ begun. RefereeNodeRestarts K.is_honest (keeper_view K.Keeper keeper.old) (fresh_referee_node id terms)
            begun.1 (keeper_view K.Keeper keeper.new) (referee_node_of begun.0))
            (λ _. keeper.new ≡ keeper.old) }
    {
        let mut node = RefereeNode::fresh(alloc, id, terms)?;
        let outcome = node.restart(keeper);
        Ok((node, outcome))
    }

    /// Returns the referee of a match with no entry, which is up.
    ///
    /// # Errors
    /// `LengthOutOfRange` where the length is not from 1 to 99.
    pub(crate) fn fresh(alloc: Global, id: u64, terms: Terms) -> Result<RefereeNode, LengthFault>
        ensures ok { IsOk result ↔ IsMatchLength (match_length terms) }
        ensures value { IfOk result (λ node. referee_node_of node ≡ fresh_referee_node id terms) }
    {
        let core = Referee::fresh(alloc, id, terms.length, terms.rules)?;
        Ok(RefereeNode {
            alloc,
            id,
            terms,
            core: Some(core),
            under_way: None,
        })
    }

    /// Returns the record, or `None` exactly where the referee is down.
    pub fn held(&self) -> Option<&Record>
        ensures { option_copied result ≡ referee_log self.now.core }
    {
        match &self.core {
            None => None,
            Some(core) => Some(core.held()),
        }
    }

    /// Opens a game with the dice of a random word, or passes a turn in which no step can be
    /// played.
    pub fn due(&mut self, word: u32) -> Outcome
        ensures under_way { self.new.under_way ≡ under_way_after self.old.under_way result }
        ensures dues { RefereeNodeDues (referee_node_of self.old) word result (referee_node_of self.new) }
    {
        let mut outcome = Outcome::Down;
        self.due_into(word, &mut outcome);
        outcome
    }

    /// Opens a game or passes a turn, with a place for the outcome.
    pub(crate) fn due_into(&mut self, word: u32, outcome: &mut Outcome)
        ensures under_way { self.new.under_way ≡ under_way_after self.old.under_way outcome.new }
        ensures dues { RefereeNodeDues (referee_node_of self.old) word outcome.new (referee_node_of self.new) }
    {
        match &mut self.core {
            None => *outcome = Outcome::Down,
            Some(core) => {
                *outcome = Outcome::Due(core.due(word));
                end_where_changed(&mut self.under_way, outcome);
            }
        }
    }

    /// Takes what the link gives for this pick, and sends the answer. A roll that a claim asks for
    /// has the dice of the random word. `parties` is the number of parties, whose numbers are
    /// from 0.
    pub fn take<L: Link>(&mut self, link: &mut L, parties: usize, pick: u32, word: u32) -> Outcome
        ensures under_way { self.new.under_way ≡ under_way_after self.old.under_way result }
        ensures takes { RefereeNodeTakes L.is_honest parties (link_view L.Link link.old) (referee_node_of self.old)
            pick word result (link_view L.Link link.new) (referee_node_of self.new) }
    {
        let mut outcome = Outcome::Down;
        self.take_into(link, parties, pick, word, &mut outcome);
        outcome
    }

    /// Takes what the link gives for this pick, with a place for the outcome.
    pub(crate) fn take_into<L: Link>(
        &mut self,
        link: &mut L,
        parties: usize,
        pick: u32,
        word: u32,
        outcome: &mut Outcome,
    )
        ensures under_way { self.new.under_way ≡ under_way_after self.old.under_way outcome.new }
        ensures takes { RefereeNodeTakes L.is_honest parties (link_view L.Link link.old) (referee_node_of self.old)
            pick word outcome.new (link_view L.Link link.new) (referee_node_of self.new) }
    {
        match &mut self.core {
            None => *outcome = Outcome::Down,
            Some(core) => {
                take_at_referee(link, parties, core, pick, word, outcome);
                end_where_changed(&mut self.under_way, outcome);
            }
        }
    }

    /// Sends the packets that its core returns. `parties` is the number of parties, whose numbers
    /// are from 0.
    pub fn tick<L: Link>(&mut self, link: &mut L, parties: usize) -> Outcome
        ensures under_way { self.new.under_way ≡ self.old.under_way }
        ensures ticks { RefereeNodeTicks L.is_honest parties (link_view L.Link link.old) (referee_node_of self.old)
            result (link_view L.Link link.new) (referee_node_of self.new) }
    {
        let mut outcome = Outcome::Down;
        self.tick_into(link, parties, &mut outcome);
        outcome
    }

    /// Sends what its core returns, with a place for the outcome.
    pub(crate) fn tick_into<L: Link>(&mut self, link: &mut L, parties: usize, outcome: &mut Outcome)
        ensures under_way { self.new.under_way ≡ self.old.under_way }
        ensures ticks { RefereeNodeTicks L.is_honest parties (link_view L.Link link.old) (referee_node_of self.old)
            outcome.new (link_view L.Link link.new) (referee_node_of self.new) }
    {
        match &mut self.core {
            None => *outcome = Outcome::Down,
            Some(core) => tick_referee(link, parties, core, outcome),
        }
    }

    /// Begins a save, and returns what is to be written, for a host that writes it by itself, for
    /// instance together with the saves of others. The save is under way until
    /// [`end_save`](Self::end_save) is told what became of the write, and a change of the record
    /// ends it.
    ///
    /// # Errors
    /// The outcome of the save: `Down`, `SavesSpent` or `Memory`. Then nothing changes.
    pub fn begin_save(&mut self) -> Result<Save, Outcome>
        ensures begins { BeginsSave referee_parts self.old.core result }
        ensures same { referee_node_of self.new ≡ referee_node_of self.old }
        ensures under_way { self.new.under_way ≡ under_way_from self.old.under_way result }
    {
        match begin_save(&self.core) {
            Ok(save) => {
                self.under_way = Some(save.number);
                Ok(save)
            }
            Err(outcome) => Err(outcome),
        }
    }

    /// Ends the save of this number that is under way, whose write had this answer, and returns the
    /// outcome of the save. The referee is down where the write failed. Returns `None`, and changes
    /// nothing, exactly where no save of this number is under way: then another is to be begun.
    pub fn end_save(&mut self, number: u32, written: Result<(), DeviceFault>) -> Option<Outcome>
        ensures ok { IsSome result ↔ (self.old.under_way ≡ Some number) }
        ensures ends { MatchOption result (self.new ≡ self.old) (λ outcome. (self.new.under_way ≡ None)
            × RefereeNodeEndsSave (referee_node_of self.old) number written outcome (referee_node_of self.new)) }
    {
        if self.under_way != Some(number) {
            return None;
        }
        self.under_way = None;
        let mut outcome = Outcome::Down;
        end_save(&mut self.core, number, written, &mut outcome);
        Some(outcome)
    }

    /// Saves what the referee holds. It is down where the write fails. A save that was under way is
    /// so no longer.
    pub fn save<K: Keeper>(&mut self, keeper: &mut K) -> Outcome
        ensures under_way { self.new.under_way ≡ None }
        ensures saves { RefereeNodeSaves K.is_honest (keeper_view K.Keeper keeper.old) (referee_node_of self.old) result
            (keeper_view K.Keeper keeper.new) (referee_node_of self.new) }
    {
        let mut outcome = Outcome::Down;
        self.save_into(keeper, &mut outcome);
        outcome
    }

    /// Saves what the referee holds, with a place for the outcome.
    pub(crate) fn save_into<K: Keeper>(&mut self, keeper: &mut K, outcome: &mut Outcome)
        ensures under_way { self.new.under_way ≡ None }
        ensures saves { RefereeNodeSaves K.is_honest (keeper_view K.Keeper keeper.old) (referee_node_of self.old)
            outcome.new (keeper_view K.Keeper keeper.new) (referee_node_of self.new) }
    {
        self.under_way = None;
        save_party(keeper, &mut self.core, outcome);
    }

    /// Discards what the referee holds, and restarts it from what its slots restore.
    pub fn restart<K: Keeper>(&mut self, keeper: &mut K) -> Outcome
        ensures under_way { self.new.under_way ≡ None }
        ensures restarts { RefereeNodeRestarts K.is_honest (keeper_view K.Keeper keeper.old) (referee_node_of self.old) result
            (keeper_view K.Keeper keeper.new) (referee_node_of self.new) }
    {
        self.under_way = None;
        restart_referee(self.alloc, keeper, &mut self.core, self.id, self.terms)
    }
}
