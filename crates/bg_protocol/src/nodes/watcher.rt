//! A watcher of a match, by itself.
ghost use Rattle.std.specs.Prelude.{◌≡◌, ◌≤◌, ◌↔◌, IsOk, IfOk};
ghost use Rattle.bg_match.specs.Limits.{IsMatchLength};
ghost use Rattle.bg_match.specs.Terms.{match_length};
ghost use Rattle.bg_party.specs.Claims.{WatcherTicks};
ghost use Rattle.bg_party.specs.Views.{fresh_watcher};
ghost use Rattle.bg_wire.specs.Entries.Codes.{first_watcher};
ghost use Rattle.bg_protocol.specs.Worlds.Calls.{WatcherTakes};
ghost use Rattle.bg_protocol.specs.Devices.LinkCalls.{FollowerTakeCalls, FollowerTickCalls};
ghost use Rattle.bg_protocol.specs.Worlds.Views.{link_view};

use crate::nodes::takes::take_at_follower;
use crate::nodes::ticks::tick_follower;
use crate::{Link, Outcome};
use bg_match::{LengthFault, Record, Terms};
use bg_party::Watcher;
use std::alloc::Global;
use std::marker::Model;

/// A watcher of a match as a node of its own. It saves nothing and is never down: to restart it is
/// to make a new one. A process that runs a watcher alone makes these calls, and a
/// [`World`](crate::World) makes the same ones (docs/PROTOCOL.md,
/// "Parties in processes of their own").
///
/// Contracts see its core.
#[derive(Drop)]
pub struct WatcherNode {
    party: u8,
    core: Watcher,
    ghost numbered: { core.party ≡ party },
}

impl Model for WatcherNode {
    ghost use Rattle.bg_party.specs.Views.{WatcherView};

    ghost Value = { WatcherView };

    ghost view = { λ n. n.core };
}

impl WatcherNode {
    /// Returns a watcher that holds no entry. `party` is its number, from 3.
    ///
    /// # Errors
    /// `LengthOutOfRange` where the length is not from 1 to 99.
    pub fn fresh(
        alloc: Global,
        party: u8,
        id: u64,
        terms: Terms,
    ) -> Result<WatcherNode, LengthFault>
        requires { first_watcher ≤ party }
        ensures ok { IsOk result ↔ IsMatchLength (match_length terms) }
        ensures value { IfOk result (λ node. node ≡ fresh_watcher party id terms) }
    {
        Ok(WatcherNode {
            party,
            core: Watcher::fresh(alloc, party, id, terms.length, terms.rules)?,
        })
    }

    /// Returns the record.
    pub fn held(&self) -> &Record
        ensures { result.now ≡ self.now.follower.log }
    {
        self.core.held()
    }

    /// Takes what the link gives for this pick.
    pub fn take<L: Link>(&mut self, link: &mut L, pick: u32) -> Outcome
        ensures { FollowerTakeCalls WatcherTakes L.is_honest self.old.party (link_view L.Link link.old) self.old pick
            result (link_view L.Link link.new) self.new }
    {
        let mut outcome = Outcome::NoDatagram;
        self.take_into(link, pick, &mut outcome);
        outcome
    }

    /// Takes what the link gives for this pick, with a place for the outcome.
    pub(crate) fn take_into<L: Link>(&mut self, link: &mut L, pick: u32, outcome: &mut Outcome)
        ensures { FollowerTakeCalls WatcherTakes L.is_honest self.old.party (link_view L.Link link.old) self.old pick
            outcome.new (link_view L.Link link.new) self.new }
    {
        take_at_follower(link, self.party, &mut self.core, pick, outcome)
    }

    /// Sends the packet that its core returns. `parties` is the number of parties, whose numbers
    /// are from 0, the referee among them.
    pub fn tick<L: Link>(&mut self, link: &mut L, parties: usize) -> Outcome
        requires { 1 ≤ parties }
        ensures { FollowerTickCalls WatcherTicks L.is_honest parties (link_view L.Link link.old) self.old
            result (link_view L.Link link.new) self.new }
    {
        let mut outcome = Outcome::Sent(0);
        self.tick_into(link, parties, &mut outcome);
        outcome
    }

    /// Sends what its core returns, with a place for the outcome.
    pub(crate) fn tick_into<L: Link>(&mut self, link: &mut L, parties: usize, outcome: &mut Outcome)
        requires { 1 ≤ parties }
        ensures { FollowerTickCalls WatcherTicks L.is_honest parties (link_view L.Link link.old) self.old
            outcome.new (link_view L.Link link.new) self.new }
    {
        tick_follower(link, parties, &mut self.core, outcome)
    }
}
