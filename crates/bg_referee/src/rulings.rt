//! The rulings on packets, before the entries of an answer are read.
ghost use Rattle.std.specs.Prelude.{◌≤◌, ◌↔◌, ℕ, IsSome, IfSome};
ghost use Rattle.bg_match.specs.Answers.{Answers, CanAnswer};
ghost use Rattle.bg_turns.specs.Dice.{dice_of};
ghost use Rattle.bg_wire.specs.Packets.PacketText.{IsPacket};

use crate::Referee;
use bg_match::{Action, Actor, Entry, EntryFault, Number, entry_of};
use bg_turns::dice_of;
use bg_wire::{Packet, party_of};

/// The ruling on a packet: its outcome, with the entries of an answer still to be read. It is
/// small, unlike an answer.
#[derive(Clone, Copy)]
pub(crate) enum Ruling {
    /// The packet is of another match.
    OtherMatch,
    /// There is nothing to do.
    Nothing,
    /// This party is to be shown the saved entries from this number on.
    Shows(u8, Number),
    /// The party is ahead of what is saved or held.
    Ahead,
    /// The party does not act.
    NotYourTurn,
    /// The word has no dice.
    WordRefused,
    /// The entry is not appended.
    Refused(EntryFault),
    /// The entry of this number is appended.
    Accepted(Number),
}

impl Referee {
    ghost use Rattle.bg_referee.specs.Rulings.{RulesOn, RulesOnClaim, Rules, TellsTurn, Tries};
    ghost use Rattle.bg_referee.specs.Rulings.{IsShowable, IsUnchanged};
    ghost use Rattle.bg_referee.specs.Referee.{IsReferee};
    ghost use Rattle.bg_referee.specs.Takes.{reply_to_want};

    /// Rules on a packet. The word gives the dice where a roll is claimed.
    pub(crate) fn rule(&mut self, packet: &Packet, word: u32) -> Ruling
        requires { IsPacket packet.now }
        ensures rules { RulesOn self.old word packet.now result self.new }
        ensures showable { IsShowable self.old.saved result }
        ensures unchanged { IsUnchanged self.old result self.new }
        ensures referee { IsReferee self.old }
    {
        if !packet.is_of(self.log.id(), self.log.rules()) {
            return Ruling::OtherMatch;
        }
        match packet {
            Packet::Want { sender, held, .. } => self.rule_want(*sender, *held),
            Packet::Claim {
                sender,
                number,
                action,
                ..
            } => self.rule_claim(*sender, *number, action, word),
            Packet::Entries { .. } => Ruling::Nothing,
        }
    }

    /// Rules on a Want of a party that holds this number of entries.
    fn rule_want(&self, sender: u8, held: Number) -> Ruling
        ensures rules { (word : ℕ) → Rules self.now word (reply_to_want self.now sender held) result self.now }
        ensures showable { IsShowable self.now.saved result }
    {
        if held < self.saved {
            Ruling::Shows(sender, held + 1)
        } else if held == self.saved {
            Ruling::Nothing
        } else {
            Ruling::Ahead
        }
    }

    /// Rules on a seat's claim of an action under a number.
    fn rule_claim(&mut self, sender: u8, number: Number, action: &Action, word: u32) -> Ruling
        requires { 1 ≤ number }
        ensures rules { RulesOnClaim self.old word sender number action.now result self.new }
        ensures showable { IsShowable self.old.saved result }
        ensures unchanged { IsUnchanged self.old result self.new }
    {
        if number <= self.saved {
            return Ruling::Shows(sender, number);
        }
        if number <= self.log.len() {
            return Ruling::Nothing;
        }
        if number - 1 > self.log.len() {
            return Ruling::Ahead;
        }
        if !self.is_on_turn(sender) {
            return Ruling::NotYourTurn;
        }
        self.act(action, word)
    }

    /// Returns whether a party sits for the player who acts.
    fn is_on_turn(&self, party: u8) -> bool
        ensures { TellsTurn self.now party result }
    {
        match self.log.actor() {
            Actor::Seat(player) => party == party_of(player),
            _ => false,
        }
    }

    /// Appends the entry of an action, if it follows.
    fn act(&mut self, action: &Action, word: u32) -> Ruling
        ensures tries { Tries self.old action.now (dice_of word) result self.new }
        ensures showable { IsShowable self.old.saved result }
        ensures unchanged { IsUnchanged self.old result self.new }
    {
        let Some(entry) = answer_to(action, word) else {
            return Ruling::WordRefused;
        };
        if let Err(fault) = self.log.push(entry) {
            return Ruling::Refused(fault);
        }
        Ruling::Accepted(self.log.len())
    }
}

/// Returns the entry that answers an action. A roll shows the dice of the word, and has no entry
/// where there are none. They are looked for where a roll is claimed alone.
fn answer_to(action: &Action, word: u32) -> Option<Entry>
    ensures some { IsSome result ↔ CanAnswer action.now (dice_of word) }
    ensures answers { IfSome result (λ entry. Answers action.now (dice_of word) entry) }
{
    let dice = match action {
        Action::Roll => dice_of(word),
        _ => None,
    };
    entry_of(action.copy(), dice)
}
