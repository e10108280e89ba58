//! A party that only watches.
ghost use Rattle.std.specs.Prelude.{◌≡◌, ◌≤◌, ◌↔◌, length, IsOk, IfOk};
ghost use Rattle.bg_wire.specs.Entries.Codes.{first_watcher};
ghost use Rattle.bg_match.specs.Terms.{terms_of};
ghost use Rattle.bg_match.specs.Limits.{IsMatchLength};
ghost use Rattle.bg_wire.specs.Packets.PacketText.{IsPacket};

use crate::Learned;
use crate::follower::Follower;
use bg_match::{LengthFault, Record, Rules};
use bg_wire::Packet;
use std::alloc::Global;
use std::marker::Model;

/// A party that only watches a match (docs/PROTOCOL.md, "Followers"). A watcher saves nothing:
/// after a restart it begins afresh.
///
/// Contracts see its party, and what it has as a follower: its record, the early entries that it
/// keeps, and when it sends.
#[derive(Debug, Drop)]
pub struct Watcher {
    party: u8,
    follower: Follower,
}

impl Model for Watcher {
    ghost use Rattle.bg_party.specs.Views.{WatcherView, IsWatcher};

    ghost Value = { WatcherView };

    ghost view = { λ w. record { party = w.party; follower = w.follower } };

    ghost invariant = { λ w. IsWatcher (record { party = w.party; follower = w.follower }) };
}

impl Watcher {
    ghost use Rattle.bg_party.specs.Views.{IsWatcher, fresh_watcher};
    ghost use Rattle.bg_party.specs.Takes.{FollowerTakes};
    ghost use Rattle.bg_party.specs.Claims.{WatcherTicks};

    /// Returns a watcher with the empty record. `party` is its number, from 3.
    ///
    /// # Errors
    /// `LengthOutOfRange` where the length is not from 1 to 99.
    pub fn fresh(
        alloc: Global,
        party: u8,
        id: u64,
        length: u8,
        rules: Rules,
    ) -> Result<Watcher, LengthFault>
        requires { first_watcher ≤ party }
        ensures ok { IsOk result ↔ IsMatchLength length }
        ensures value { IfOk result (λ w. w ≡ fresh_watcher party id (terms_of length rules)) }
    {
        Ok(Watcher {
            party,
            follower: Follower::fresh(alloc, id, length, rules)?,
        })
    }

    /// Returns the record, as far as the watcher knows it.
    pub fn held(&self) -> &Record
        ensures value { result.now ≡ self.now.follower.log }
        ensures watcher { IsWatcher self.now }
    {
        self.follower.held()
    }

    /// Learns from a packet (docs/PROTOCOL.md, "What a follower learns"). Only `Grew` changes the
    /// record, and only `Gap` keeps entries. The packet must have an encoding, as each that
    /// `decode` returns does.
    pub fn take(&mut self, packet: &Packet) -> Learned
        requires { IsPacket packet.now }
        ensures takes { FollowerTakes self.old.follower packet.now result self.new.follower }
        ensures same { self.new ≡ record self.old { follower = self.new.follower } }
    {
        self.follower.take(packet)
    }

    /// Returns the packet to send to the referee, where this tick is one to send on
    /// (docs/PROTOCOL.md, "When a follower sends"). It is a Want of the entries after the watcher's
    /// own.
    pub fn tick(&mut self) -> Option<Packet>
        ensures { WatcherTicks self.old result self.new }
    {
        let want = self.follower.want(self.party);
        self.follower.tick().then_some(want)
    }
}
