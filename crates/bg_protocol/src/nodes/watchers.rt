//! All watchers of a match.
ghost use Rattle.std.specs.Prelude.{◌≡◌, ◌+◌, ◌<◌, ◌≤◌, vec_len, length, IfOk, IfErr, option_copied, slice_get};
ghost use Rattle.bg_match.specs.Limits.{IsMatchLength};
ghost use Rattle.bg_match.specs.Terms.{match_length};
ghost use Rattle.bg_party.specs.Views.{fresh_watcher};
ghost use Rattle.bg_wire.specs.Entries.Codes.{first_watcher};
ghost use Rattle.bg_protocol.specs.Worlds.Nodes.{WatchersRestart, WatchersTake, WatchersTick};
ghost use Rattle.bg_protocol.specs.Worlds.Starts.{fresh_watchers, watcher_log};
ghost use Rattle.bg_protocol.specs.Protocol.State.{most_watchers};
ghost use Rattle.bg_protocol.specs.Worlds.Views.{AreNumbered, link_view};

use crate::{Link, Outcome, WatcherNode, WorldFault};
use bg_match::{Record, Terms};
use bg_wire::FIRST_WATCHER;
use std::alloc::Global;
use std::marker::Model;

/// The nodes of all watchers of a match. The party of the watcher at an index, from 0, is the first
/// watcher's party plus the index.
///
/// Contracts see their cores.
#[derive(Drop)]
pub(crate) struct Watchers {
    nodes: Vec<WatcherNode>,
    ghost few: { vec_len nodes ≤ most_watchers },
    ghost numbered: { AreNumbered nodes.items },
}

impl Model for Watchers {
    ghost use Rattle.std.specs.Prelude.{List};
    ghost use Rattle.bg_party.specs.Views.{WatcherView};

    ghost Value = { List WatcherView };

    ghost view = { λ w. w.nodes.items };
}

/// Returns the watcher at an index, which holds nothing.
fn fresh_at(alloc: Global, id: u64, terms: Terms, index: usize) -> WatcherNode
    requires few { index < most_watchers }
    requires length_in_range { IsMatchLength (match_length terms) }
    ensures { result ≡ fresh_watcher (first_watcher + index) id terms }
{
    let party = FIRST_WATCHER + index as u8;
    WatcherNode::fresh(alloc, party, id, terms).unwrap()
}

impl Watchers {
    /// Returns `count` watchers, which hold nothing.
    ///
    /// # Errors
    /// `Memory` where there is no memory for them. Where `count` is 0, none is needed.
    pub(crate) fn fresh(
        alloc: Global,
        id: u64,
        terms: Terms,
        count: u8,
    ) -> Result<Watchers, WorldFault>
        requires few { count ≤ most_watchers }
        requires length_in_range { IsMatchLength (match_length terms) }
        ensures value { IfOk result (λ watchers. watchers ≡ fresh_watchers id terms count) }
        ensures memory { IfErr result (λ fault. (fault ≡ WorldFault.Memory) × (1 ≤ count)) }
    {
        let mut nodes = Vec::new(alloc);
        for index in 0..count {
            nodes.push(fresh_at(alloc, id, terms, index.into()))?;
        }
        Ok(Watchers { nodes })
    }

    /// Returns the number of watchers.
    pub(crate) fn len(&self) -> usize
        ensures value { result ≡ length self.now }
        ensures few { result ≤ most_watchers }
    {
        self.nodes.len()
    }

    /// Returns the record of the watcher at an index, or `None` exactly where there is none.
    pub(crate) fn held(&self, index: usize) -> Option<&Record>
        ensures { option_copied result ≡ watcher_log (slice_get self.now index) }
    {
        match self.nodes.get(index) {
            None => None,
            Some(node) => Some(node.held()),
        }
    }

    /// Takes what the link gives for this pick, at the watcher with this index.
    pub(crate) fn take<L: Link>(
        &mut self,
        link: &mut L,
        index: usize,
        pick: u32,
        outcome: &mut Outcome,
    )
        ensures { WatchersTake L.is_honest (link_view L.Link link.old) self.old index pick
            outcome.new (link_view L.Link link.new) self.new }
    {
        let Some(node) = self.nodes.get_mut(index) else {
            *outcome = Outcome::NoSuchParty;
            return;
        };
        node.take_into(link, pick, outcome)
    }

    /// Sends the packet that the core of the watcher at an index returns. `parties` is the number
    /// of parties, whose numbers are from 0, the referee among them.
    pub(crate) fn tick<L: Link>(
        &mut self,
        link: &mut L,
        parties: usize,
        index: usize,
        outcome: &mut Outcome,
    )
        requires { 1 ≤ parties }
        ensures { WatchersTick L.is_honest parties (link_view L.Link link.old) self.old index
            outcome.new (link_view L.Link link.new) self.new }
    {
        let Some(node) = self.nodes.get_mut(index) else {
            *outcome = Outcome::NoSuchParty;
            return;
        };
        node.tick_into(link, parties, outcome)
    }

    /// Restarts the watcher at an index, with no entry.
    pub(crate) fn restart(&mut self, alloc: Global, id: u64, terms: Terms, index: usize) -> Outcome
        requires { IsMatchLength (match_length terms) }
        ensures { WatchersRestart id terms self.old index result self.new }
    {
        let Some(node) = self.nodes.get_mut(index) else {
            return Outcome::NoSuchParty;
        };
        *node = fresh_at(alloc, id, terms, index);
        Outcome::Restarted
    }
}
