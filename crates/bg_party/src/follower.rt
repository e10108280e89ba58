//! The part that seats and watchers have in common: a record that grows by what the referee tells.
ghost use Rattle.std.specs.Prelude.{◌≡◌, ◌≤◌, ◌+◌, ◌↔◌, ◌++◌, [], length, IsOk, IfOk};
ghost use Rattle.bg_party.specs.Retry.{at_once, is_due};
ghost use Rattle.bg_party.specs.Window.{early_behind, window_size};
ghost use Rattle.bg_match.specs.Limits.{IsMatchLength, most_entries};
ghost use Rattle.bg_match.specs.Match.{IsLegalRecord};
ghost use Rattle.bg_match.specs.Terms.{rules_of, terms_of};
ghost use Rattle.bg_wire.specs.Entries.Codes.{most_in_packet};
ghost use Rattle.bg_wire.specs.Packets.PacketText.{IsPacket};

use crate::Learned;
use crate::retry::Retry;
use crate::told::{append, count_that_follow, first_conflict, not_held};
use crate::window::Window;
use bg_match::{Entry, ExtendFault, LengthFault, Number, Record, Rules};
use bg_wire::Packet;
use std::alloc::Global;
use std::marker::Model;

/// The record of a match, as far as the referee told it, the reorder buffer of early entries, and
/// the time of the next send.
///
/// Contracts see the three.
#[derive(Debug, Drop)]
pub(crate) struct Follower {
    log: Record,
    window: Window,
    retry: Retry,
}

impl Model for Follower {
    ghost use Rattle.bg_party.specs.Views.{FollowerView, IsFollower};

    ghost Value = { FollowerView };

    ghost view = { λ f. record { log = f.log; early = f.window; retry = f.retry } };

    ghost invariant = { λ f. IsFollower (record { log = f.log; early = f.window; retry = f.retry }) };
}

impl Follower {
    ghost use Rattle.bg_party.specs.Views.{IsFollower, fresh_follower, starting_follower};
    ghost use Rattle.bg_party.specs.Learns.{Learns, Teaches, FollowsFor};
    ghost use Rattle.bg_party.specs.Takes.{IsAfter, Appends, LearnsNew, FollowerTakes};
    ghost use Rattle.bg_party.specs.Claims.{want_of, ticked};

    /// Returns the follower of a match with no entry.
    pub(crate) fn fresh(
        alloc: Global,
        id: u64,
        length: u8,
        rules: Rules,
    ) -> Result<Follower, LengthFault>
        ensures ok { IsOk result ↔ IsMatchLength length }
        ensures value { IfOk result (λ f. f ≡ fresh_follower id (terms_of length rules)) }
    {
        Ok(Follower::starting(Record::new(alloc, id, length, rules)?))
    }

    /// Returns a follower that begins with this record, keeps no early entry, and sends on the next
    /// tick.
    pub(crate) fn starting(log: Record) -> Follower
        ensures value { result ≡ starting_follower log }
        ensures follower { IsFollower result }
    {
        // The promises of a record are stated by its calls.
        let _count = log.len();
        Follower {
            log,
            window: Window::empty(),
            retry: Retry::at_once(),
        }
    }

    /// Returns the record.
    pub(crate) fn held(&self) -> &Record
        ensures value { result.now ≡ self.now.log }
        ensures follower { IsFollower self.now }
    {
        &self.log
    }

    /// Returns the packet by which this party asks the referee for entries.
    pub(crate) fn want(&self, sender: u8) -> Packet
        ensures { result ≡ want_of sender self.now.log }
    {
        Packet::Want {
            id: self.log.id(),
            rules: self.log.rules(),
            sender,
            held: self.log.len(),
        }
    }

    /// Advances by a tick, and returns whether the follower sends on it.
    pub(crate) fn tick(&mut self) -> bool
        ensures due { result ≡ is_due self.old.retry }
        ensures after { self.new ≡ ticked self.old }
    {
        self.retry.tick()
    }

    /// Makes the follower send on the next tick, and resets its backoff.
    pub(crate) fn send_anew(&mut self)
        ensures { self.new ≡ record self.old { retry = at_once } }
    {
        self.retry = Retry::at_once();
    }

    /// Takes a packet.
    pub(crate) fn take(&mut self, packet: &Packet) -> Learned
        requires { IsPacket packet.now }
        ensures takes { FollowerTakes self.old packet.now result self.new }
        ensures follower { IsFollower self.new }
    {
        self.learn_from(packet)
    }

    /// Learns from a packet of its match.
    fn learn_from(&mut self, packet: &Packet) -> Learned
        requires { IsPacket packet.now }
        ensures learns { Learns self.old packet.now result }
        ensures after { IsAfter self.old packet.now result self.new }
        ensures follower { IsFollower self.new }
    {
        if !packet.is_of(self.log.id(), self.log.rules()) {
            return Learned::OtherMatch;
        }
        match packet {
            Packet::Entries { start, list, .. } => self.learn(*start, list.entries.as_slice()),
            Packet::Want { .. } | Packet::Claim { .. } => Learned::Nothing,
        }
    }

    /// Learns from entries, the first of which has the number `start`.
    fn learn(&mut self, start: Number, list: &[Entry]) -> Learned
        requires first { 1 ≤ start }
        requires some { 1 ≤ length list.now }
        requires few { length list.now ≤ most_in_packet }
        requires last { start + length list.now ≤ most_entries + 1 }
        ensures teaches { Teaches self.old start list.now result }
        ensures after { IsAfter self.old
            (Packet.Entries self.old.log.id (rules_of self.old.log.terms) start list.now) result self.new }
        ensures follower { IsFollower self.new }
    {
        if let Some(number) = first_conflict(&self.log, start, list) {
            return Learned::Conflict(number);
        }
        let Some(new) = not_held(&self.log, start, list) else {
            let first = (start - self.log.len() - 1) as usize;
            self.window.keep(first, list);
            return Learned::Gap;
        };
        if new.is_empty() {
            return Learned::Nothing;
        }
        if self.window.is_empty_behind(new.len()) {
            self.learn_alone(new)
        } else {
            self.learn_with_early(new)
        }
    }

    /// Learns from new entries, right behind which no early one is kept.
    fn learn_alone(&mut self, new: &[Entry]) -> Learned
        requires few { length new.now ≤ most_in_packet }
        requires alone { early_behind self.old.early (length new.now) ≡ [] }
        ensures learns { LearnsNew self.old new.now result self.new }
        ensures follower { IsFollower self.new }
    {
        match self.log.extend(new) {
            Ok(()) => {
                self.window.pass(new.len(), false);
                self.retry = Retry::at_once();
                Learned::Grew(new.len() as u8)
            }
            Err(ExtendFault::Illegal(number)) => Learned::Illegal(number),
            Err(ExtendFault::Memory) => Learned::Memory,
        }
    }

    /// Learns from new entries, and from the early ones that are kept right behind them.
    fn learn_with_early(&mut self, new: &[Entry]) -> Learned
        requires few { length new.now ≤ most_in_packet }
        ensures learns { LearnsNew self.old new.now result self.new }
        ensures follower { IsFollower self.new }
    {
        let standing = match self.log.after_all(new) {
            Ok(standing) => standing,
            Err(number) => return Learned::Illegal(number),
        };
        let early = self.window.behind(new.len());
        let count = count_that_follow(&self.log, new, standing, early.as_slice());
        self.grow(new, early.as_slice(), count)
    }

    /// Appends new entries that follow, and the first `count` of the early ones kept right behind
    /// them, as far as they follow. There must be room or memory for all of them.
    fn grow(&mut self, new: &[Entry], early: &[Entry], count: usize) -> Learned
        requires few { length new.now ≤ most_in_packet }
        requires room { length early.now ≤ window_size }
        requires early { early.now ≡ early_behind self.old.early (length new.now) }
        requires follow { FollowsFor self.old.log.terms (self.old.log.entries ++ new.now) early.now count }
        requires legal { IsLegalRecord self.old.log.terms (self.old.log.entries ++ new.now) }
        ensures appends { Appends self.old new.now early.now count result self.new }
        ensures follower { IsFollower self.new }
    {
        let all = new.len() + count;
        if self.log.reserve(all as Number).is_err() {
            return Learned::Memory;
        }
        append(&mut self.log, new);
        append(&mut self.log, &early[..count]);
        self.window.pass(all, count < early.len());
        self.retry = Retry::at_once();
        Learned::Grew(all as u8)
    }
}
