//! The seat of a player, by itself.
ghost use Rattle.std.specs.Prelude.{◌≡◌, ◌≤◌, ◌↔◌, None, Some, IsOk, IfOk, IsSome, MatchOption, MatchResult};
ghost use Rattle.std.specs.Prelude.{option_copied};
ghost use Rattle.bg_match.specs.Limits.{IsMatchLength};
ghost use Rattle.bg_match.specs.Terms.{match_length};
ghost use Rattle.bg_protocol.specs.Devices.KeeperCalls.{BeginsSave};
ghost use Rattle.bg_protocol.specs.Worlds.Calls.{seat_parts};
ghost use Rattle.bg_protocol.specs.Worlds.UnderWay.{IsUnderWay, under_way_after, under_way_from};
ghost use Rattle.bg_protocol.specs.Worlds.Starts.{seat_log};
ghost use Rattle.bg_protocol.specs.Worlds.Views.{keeper_view, link_view};

use crate::nodes::restarts::restart_seat;
use crate::nodes::saves::{begin_save, end_save, end_where_changed, save_party};
use crate::nodes::takes::take_at_follower;
use crate::nodes::ticks::tick_follower;
use crate::{DeviceFault, Keeper, Link, Outcome, Save};
use bg_board::Player;
use bg_match::{Action, LengthFault, Number, Record, Terms};
use bg_party::Seat;
use bg_wire::party_of;
use std::alloc::Global;

/// The seat of a player as a node of its own: its core, while it is up. A process that runs the
/// seat alone makes these calls, and a [`World`](crate::World) makes the same ones
/// (docs/PROTOCOL.md, "Parties in processes of their own"). Each call is handed the link or the
/// keeper that it is to use.
///
/// A save in two steps is [`begin_save`](Self::begin_save), a write by the host, and
/// [`end_save`](Self::end_save).
///
/// Contracts see its player, the match, the core while it is up, and the number of the save that is
/// under way.
#[derive(Drop)]
pub struct SeatNode {
    alloc: Global,
    player: Player,
    id: u64,
    terms: Terms,
    core: Option<Seat>,
    /// The number of the save that is under way.
    under_way: Option<u32>,
    ghost length_in_range: { IsMatchLength (match_length terms) },
    ghost next: { IsUnderWay seat_parts core under_way },
}

impl SeatNode {
    ghost use Rattle.bg_protocol.specs.Worlds.Nodes.{SeatNodeChooses, SeatNodeEndsSave, SeatNodeRestarts, SeatNodeSaves};
    ghost use Rattle.bg_protocol.specs.Worlds.Nodes.{SeatNodeTakes, SeatNodeTicks, fresh_seat_node, seat_claim};
    ghost use Rattle.bg_protocol.specs.Worlds.Nodes.{seat_node_of};

    /// Starts the seat of a player from what the slots of its keeper restore, and returns it with
    /// the outcome of that. It is down where the outcome is not `Restarted`. Each process starts
    /// so, both the first of a match and each later one.
    ///
    /// # Errors
    /// `LengthOutOfRange` where the length is not from 1 to 99. Then the keeper is asked nothing.
    pub fn begin<K: Keeper>(
        alloc: Global,
        player: Player,
        id: u64,
        terms: Terms,
        keeper: &mut K,
    ) -> Result<(SeatNode, Outcome), LengthFault>
        ensures ok { IsOk result ↔ IsMatchLength (match_length terms) }
        ensures value { MatchResult result
            (λ begun. SeatNodeRestarts K.is_honest (keeper_view K.Keeper keeper.old) (fresh_seat_node player id terms)
            begun.1 (keeper_view K.Keeper keeper.new) (seat_node_of begun.0))
            (λ _. keeper.new ≡ keeper.old) }
    {
        let mut node = SeatNode::fresh(alloc, player, id, terms)?;
        let outcome = node.restart(keeper);
        Ok((node, outcome))
    }

    /// Returns the seat of a player in a match with no entry, which is up.
    ///
    /// # Errors
    /// `LengthOutOfRange` where the length is not from 1 to 99.
    pub(crate) fn fresh(
        alloc: Global,
        player: Player,
        id: u64,
        terms: Terms,
    ) -> Result<SeatNode, LengthFault>
        ensures ok { IsOk result ↔ IsMatchLength (match_length terms) }
        ensures value { IfOk result (λ node. seat_node_of node ≡ fresh_seat_node player id terms) }
    {
        let core = Seat::fresh(alloc, player, id, terms.length, terms.rules)?;
        Ok(SeatNode {
            alloc,
            player,
            id,
            terms,
            core: Some(core),
            under_way: None,
        })
    }

    /// Returns the record, or `None` exactly where the seat is down.
    pub fn held(&self) -> Option<&Record>
        ensures { option_copied result ≡ seat_log self.now.core }
    {
        match &self.core {
            None => None,
            Some(core) => Some(core.held()),
        }
    }

    /// Returns the last claim: the number, from 1, of the entry that shall answer the action, and
    /// the action. `None` also where the seat is down.
    pub fn claim(&self) -> Option<(Number, Action)>
        ensures { result ≡ seat_claim self.now.core }
    {
        match &self.core {
            None => None,
            Some(core) => core.claim(),
        }
    }

    /// Claims the action that its player chooses.
    pub fn choose(&mut self, action: Action) -> Outcome
        ensures under_way { self.new.under_way ≡ under_way_after self.old.under_way result }
        ensures chooses { SeatNodeChooses (seat_node_of self.old) action result (seat_node_of self.new) }
    {
        let mut outcome = Outcome::Down;
        self.choose_into(action, &mut outcome);
        outcome
    }

    /// Claims the action that its player chooses, with a place for the outcome.
    pub(crate) fn choose_into(&mut self, action: Action, outcome: &mut Outcome)
        ensures under_way { self.new.under_way ≡ under_way_after self.old.under_way outcome.new }
        ensures chooses { SeatNodeChooses (seat_node_of self.old) action outcome.new (seat_node_of self.new) }
    {
        match &mut self.core {
            None => *outcome = Outcome::Down,
            Some(core) => {
                *outcome = Outcome::Chose(core.choose(action));
                end_where_changed(&mut self.under_way, outcome);
            }
        }
    }

    /// Takes what the link gives for this pick.
    pub fn take<L: Link>(&mut self, link: &mut L, pick: u32) -> Outcome
        ensures under_way { self.new.under_way ≡ under_way_after self.old.under_way result }
        ensures takes { SeatNodeTakes L.is_honest (link_view L.Link link.old) (seat_node_of self.old) pick
            result (link_view L.Link link.new) (seat_node_of self.new) }
    {
        let mut outcome = Outcome::Down;
        self.take_into(link, pick, &mut outcome);
        outcome
    }

    /// Takes what the link gives for this pick, with a place for the outcome.
    pub(crate) fn take_into<L: Link>(&mut self, link: &mut L, pick: u32, outcome: &mut Outcome)
        ensures under_way { self.new.under_way ≡ under_way_after self.old.under_way outcome.new }
        ensures takes { SeatNodeTakes L.is_honest (link_view L.Link link.old) (seat_node_of self.old) pick
            outcome.new (link_view L.Link link.new) (seat_node_of self.new) }
    {
        let party = party_of(self.player);
        match &mut self.core {
            None => *outcome = Outcome::Down,
            Some(core) => {
                take_at_follower(link, party, core, pick, outcome);
                end_where_changed(&mut self.under_way, outcome);
            }
        }
    }

    /// Sends the packet that its core returns. `parties` is the number of parties, whose numbers
    /// are from 0, the referee among them.
    pub fn tick<L: Link>(&mut self, link: &mut L, parties: usize) -> Outcome
        requires { 1 ≤ parties }
        ensures under_way { self.new.under_way ≡ self.old.under_way }
        ensures ticks { SeatNodeTicks L.is_honest parties (link_view L.Link link.old) (seat_node_of self.old)
            result (link_view L.Link link.new) (seat_node_of self.new) }
    {
        let mut outcome = Outcome::Down;
        self.tick_into(link, parties, &mut outcome);
        outcome
    }

    /// Sends what its core returns, with a place for the outcome.
    pub(crate) fn tick_into<L: Link>(&mut self, link: &mut L, parties: usize, outcome: &mut Outcome)
        requires { 1 ≤ parties }
        ensures under_way { self.new.under_way ≡ self.old.under_way }
        ensures ticks { SeatNodeTicks L.is_honest parties (link_view L.Link link.old) (seat_node_of self.old)
            outcome.new (link_view L.Link link.new) (seat_node_of self.new) }
    {
        match &mut self.core {
            None => *outcome = Outcome::Down,
            Some(core) => tick_follower(link, parties, core, outcome),
        }
    }

    /// Begins a save, and returns what is to be written, for a host that writes it by itself, for
    /// instance together with the saves of others. The save is under way until
    /// [`end_save`](Self::end_save) is told what became of the write, and a change of the record or
    /// of the claim ends it.
    ///
    /// # Errors
    /// The outcome of the save: `Down`, `SavesSpent` or `Memory`. Then nothing changes.
    pub fn begin_save(&mut self) -> Result<Save, Outcome>
        ensures begins { BeginsSave seat_parts self.old.core result }
        ensures same { seat_node_of self.new ≡ seat_node_of self.old }
        ensures under_way { self.new.under_way ≡ under_way_from self.old.under_way result }
    {
        match begin_save(&self.core) {
            Ok(save) => {
                self.under_way = Some(save.number);
                Ok(save)
            }
            Err(outcome) => Err(outcome),
        }
    }

    /// Ends the save of this number that is under way, whose write had this answer, and returns the
    /// outcome of the save. The seat is down where the write failed. Returns `None`, and changes
    /// nothing, exactly where no save of this number is under way: then another is to be begun.
    pub fn end_save(&mut self, number: u32, written: Result<(), DeviceFault>) -> Option<Outcome>
        ensures ok { IsSome result ↔ (self.old.under_way ≡ Some number) }
        ensures ends { MatchOption result (self.new ≡ self.old) (λ outcome. (self.new.under_way ≡ None)
            × SeatNodeEndsSave (seat_node_of self.old) number written outcome (seat_node_of self.new)) }
    {
        if self.under_way != Some(number) {
            return None;
        }
        self.under_way = None;
        let mut outcome = Outcome::Down;
        end_save(&mut self.core, number, written, &mut outcome);
        Some(outcome)
    }

    /// Saves what the seat holds. It is down where the write fails. A save that was under way is so
    /// no longer.
    pub fn save<K: Keeper>(&mut self, keeper: &mut K) -> Outcome
        ensures under_way { self.new.under_way ≡ None }
        ensures saves { SeatNodeSaves K.is_honest (keeper_view K.Keeper keeper.old) (seat_node_of self.old) result
            (keeper_view K.Keeper keeper.new) (seat_node_of self.new) }
    {
        let mut outcome = Outcome::Down;
        self.save_into(keeper, &mut outcome);
        outcome
    }

    /// Saves what the seat holds, with a place for the outcome.
    pub(crate) fn save_into<K: Keeper>(&mut self, keeper: &mut K, outcome: &mut Outcome)
        ensures under_way { self.new.under_way ≡ None }
        ensures saves { SeatNodeSaves K.is_honest (keeper_view K.Keeper keeper.old) (seat_node_of self.old)
            outcome.new (keeper_view K.Keeper keeper.new) (seat_node_of self.new) }
    {
        self.under_way = None;
        save_party(keeper, &mut self.core, outcome);
    }

    /// Discards what the seat holds, and restarts it from what its slots restore.
    pub fn restart<K: Keeper>(&mut self, keeper: &mut K) -> Outcome
        ensures under_way { self.new.under_way ≡ None }
        ensures restarts { SeatNodeRestarts K.is_honest (keeper_view K.Keeper keeper.old) (seat_node_of self.old) result
            (keeper_view K.Keeper keeper.new) (seat_node_of self.new) }
    {
        self.under_way = None;
        let (alloc, player, id, terms) = (self.alloc, self.player, self.id, self.terms);
        restart_seat(alloc, keeper, &mut self.core, player, id, terms)
    }
}
