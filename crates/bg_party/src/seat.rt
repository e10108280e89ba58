//! The seat of a player.
ghost use Rattle.std.specs.Prelude.{◌≡◌, ◌≤◌, ◌↔◌, length, IsOk, IfOk};
ghost use Rattle.bg_match.specs.Terms.{terms_of};
ghost use Rattle.bg_match.specs.Limits.{IsMatchLength};
ghost use Rattle.bg_wire.specs.Packets.PacketText.{IsPacket};
ghost use Rattle.bg_wire.specs.Parties.{party_of};
ghost use Rattle.bg_wire.specs.Saved.Saves.{IsNextSave};
ghost use Rattle.bg_wire.specs.Saved.SavedText.{IsSavable, parts_of, parts_with};
ghost use Rattle.bg_wire.specs.Entries.Codes.{seat_of_x};

use crate::follower::Follower;
use crate::parties::player_of;
use crate::{ChooseFault, Learned};
use bg_board::{Die, Player};
use bg_match::{Action, Actor, LengthFault, Number, Record, Rules, entry_of};
use bg_turns::Dice;
use bg_wire::{Packet, SaveRefusal, Saved, Slot, next_save, party_of};
use std::alloc::Global;
use std::marker::Model;

/// The dice with which a roll is tried: whether it follows does not depend on them.
const TRIAL_DICE: Dice = Dice {
    first: Die::One,
    second: Die::One,
};

/// The seat of a player: it follows the match, and claims the player's actions, one under each
/// number (docs/PROTOCOL.md, "Claims").
///
/// Contracts see its player, its last claim, whether that is saved, and the number of the next
/// save. They also see what it has as a follower: its record, the early entries that it keeps, and
/// when it sends.
#[derive(Debug, Drop)]
pub struct Seat {
    alloc: Global,
    player: Player,
    follower: Follower,
    claim: Option<(Number, Action)>,
    claim_saved: bool,
    last_save: u32,
}

impl Model for Seat {
    ghost use Rattle.std.specs.Prelude.{◌+◌};
    ghost use Rattle.bg_party.specs.Views.{SeatView, IsSeat};

    ghost Value = { SeatView };

    ghost view = { λ s. record {
      player = s.player;
      follower = s.follower;
      claim = s.claim;
      claim_saved = s.claim_saved;
      next_save = s.last_save + 1;
    } };

    ghost invariant = { λ s. IsSeat (record {
      player = s.player;
      follower = s.follower;
      claim = s.claim;
      claim_saved = s.claim_saved;
      next_save = s.last_save + 1;
    }) };
}

impl Seat {
    ghost use Rattle.bg_party.specs.Views.{IsSeat, fresh_seat, resumed_seat, seat_after_save};
    ghost use Rattle.bg_party.specs.Takes.{FollowerTakes};
    ghost use Rattle.bg_party.specs.Claims.{MayClaim, SeatChooses, SeatTicks, claim_number, packet_of_seat};

    /// Returns the seat of a player with the empty record and no claim, which counts as saved.
    ///
    /// # Errors
    /// `LengthOutOfRange` where the length is not from 1 to 99.
    pub fn fresh(
        alloc: Global,
        player: Player,
        id: u64,
        length: u8,
        rules: Rules,
    ) -> Result<Seat, LengthFault>
        ensures ok { IsOk result ↔ IsMatchLength length }
        ensures value { IfOk result (λ s. s ≡ fresh_seat player id (terms_of length rules)) }
    {
        Ok(Seat {
            alloc,
            player,
            follower: Follower::fresh(alloc, id, length, rules)?,
            claim: None,
            claim_saved: true,
            last_save: 0,
        })
    }

    /// Returns the seat that goes on from what was saved, which is of party 1 or 2
    /// (docs/PROTOCOL.md, "Restarting"). Its claim counts as saved. It keeps no early entry, and
    /// sends on the next tick.
    pub fn resume(alloc: Global, saved: Saved) -> Seat
        requires party { seat_of_x ≤ saved.party }
        requires savable { IsSavable (parts_of saved) }
        ensures { result ≡ resumed_seat saved }
    {
        Seat {
            alloc,
            player: player_of(saved.party),
            follower: Follower::starting(saved.log),
            claim: saved.claim,
            claim_saved: true,
            last_save: saved.save,
        }
    }

    /// Returns the record, as far as the seat knows it.
    pub fn held(&self) -> &Record
        ensures { result.now ≡ self.now.follower.log }
    {
        self.follower.held()
    }

    /// Returns the last claim: the number of the entry that shall answer the action, from 1, and
    /// the action. It stays until another one takes its place.
    pub fn claim(&self) -> Option<(Number, Action)>
        ensures value { result ≡ self.now.claim }
        ensures seat { IsSeat self.now }
    {
        match &self.claim {
            None => None,
            Some((number, action)) => Some((*number, action.copy())),
        }
    }

    /// Learns from a packet (docs/PROTOCOL.md, "What a follower learns"). Only `Grew` changes the
    /// record, and only `Gap` keeps entries; the claim stays. The packet must have an encoding, as
    /// each that `decode` returns does.
    pub fn take(&mut self, packet: &Packet) -> Learned
        requires { IsPacket packet.now }
        ensures takes { FollowerTakes self.old.follower packet.now result self.new.follower }
        ensures same { self.new ≡ record self.old { follower = self.new.follower } }
    {
        self.follower.take(packet)
    }

    /// Claims an action as the next entry, and returns its number (docs/PROTOCOL.md, "Claims"). The
    /// claim takes the place of the last one, and is sent once it is saved. A refusal changes
    /// nothing.
    ///
    /// # Errors
    /// The first that holds:
    /// - `NotYourTurn` where another party acts, or nobody;
    /// - `AlreadyClaimed` where the seat has a claim whose number is above the length of its
    ///   record;
    /// - `Illegal` where the action does not follow.
    pub fn choose(&mut self, action: Action) -> Result<Number, ChooseFault>
        ensures { SeatChooses self.old action result self.new }
    {
        let number = self.next_claim(&action)?;
        self.claim = Some((number, action));
        self.claim_saved = false;
        Ok(number)
    }

    /// Returns the number under which an action can be claimed.
    fn next_claim(&self, action: &Action) -> Result<Number, ChooseFault>
        ensures { MayClaim self.now.follower.log self.now.player self.now.claim action.now result }
    {
        let log = self.follower.held();
        let Actor::Seat(player) = log.actor() else {
            return Err(ChooseFault::NotYourTurn);
        };
        if player != self.player {
            return Err(ChooseFault::NotYourTurn);
        }
        if self.claim_number() > log.len() {
            return Err(ChooseFault::AlreadyClaimed);
        }
        let entry = entry_of(action.copy(), Some(TRIAL_DICE)).unwrap();
        if let Err(fault) = log.check(&entry) {
            return Err(ChooseFault::Illegal(fault));
        }
        Ok(log.len() + 1)
    }

    /// Returns the number of the last claim, or 0 where there is none.
    fn claim_number(&self) -> Number
        ensures { result ≡ claim_number self.now.claim }
    {
        match &self.claim {
            None => 0,
            Some((number, _)) => *number,
        }
    }

    /// Returns the slot, the number and the text of the next save, which holds the record and the
    /// claim (docs/PROTOCOL.md, "Saving"). It changes nothing. Once the text is durable, call
    /// `mark_saved`.
    ///
    /// # Errors
    /// `SavesSpent` where the last save was that of number 4294967295, else `Memory` where there is
    /// no memory for the text.
    pub fn to_save(&self) -> Result<(Slot, u32, Vec<u8>), SaveRefusal>
        ensures { IsNextSave
            (parts_with (party_of self.now.player) self.now.next_save self.now.claim self.now.follower.log) result }
    {
        let party = party_of(self.player);
        next_save(
            self.alloc,
            self.last_save,
            party,
            &self.claim,
            self.follower.held(),
        )
    }

    /// Marks the next save as written, so that the claim is saved. A claim that was not saved
    /// before is sent on the next tick. `save` is the number that `to_save` returned, and no other
    /// call may come between the two (docs/PROTOCOL.md, "Saving").
    pub fn mark_saved(&mut self, save: u32)
        requires { save ≡ self.old.next_save }
        ensures { self.new ≡ seat_after_save self.old save }
    {
        if !self.claim_saved {
            self.follower.send_anew();
        }
        self.claim_saved = true;
        self.last_save = save;
    }

    /// Returns the packet to send to the referee, where this tick is one to send on
    /// (docs/PROTOCOL.md, "When a follower sends"). It is the claim, once that is saved and until
    /// the record answers it; else a Want of the entries after the seat's own.
    pub fn tick(&mut self) -> Option<Packet>
        ensures { SeatTicks self.old result self.new }
    {
        let packet = self.packet();
        self.follower.tick().then_some(packet)
    }

    /// Returns the packet that the seat sends, where it sends one.
    fn packet(&self) -> Packet
        ensures value { result ≡ packet_of_seat self.now }
        ensures fits { IsPacket (packet_of_seat self.now) }
    {
        let party = party_of(self.player);
        let log = self.follower.held();
        match &self.claim {
            Some((number, action)) if self.claim_saved && *number > log.len() => Packet::Claim {
                id: log.id(),
                rules: log.rules(),
                sender: party,
                number: *number,
                action: action.copy(),
            },
            _ => self.follower.want(party),
        }
    }
}
