//! Lets the parties of a match work until nothing changes.

use crate::hosted_matches::{FOLLOWERS, HostedMatch};
use bg_match::Actor;
use bg_referee::DueFault;
use bg_wire::REFEREE;
use bg_world::{Event, Keeper, Outcome};

/// The largest number of turns in one call of [`HostedMatch::settle`]. The next tick does the rest.
const MOST_TURNS: u32 = 4096;

/// The largest number of datagrams that a party takes in one turn.
const MOST_TAKES: u32 = 64;

/// The largest number of random words that the referee gets in one turn.
const MOST_DUE: u32 = 16;

impl<K: Keeper> HostedMatch<K> {
    ghost use Rattle.bg_hosted.specs.Going.{GoesOn};
    ghost use Rattle.bg_hosted.specs.HostedMatches.{world_of};

    /// Lets the parties take datagrams, add the entries that are due, save what is new, and only
    /// then send it. Repeats this until nothing changes. Notes whether something is left for the
    /// next tick.
    pub(crate) fn settle(&mut self)
        ensures { GoesOn K.is_honest (world_of K.Keeper self.old) (world_of K.Keeper self.new) }
    {
        self.restless = true;
        for _turn in 0..MOST_TURNS {
            if !self.turn() {
                self.restless = !self.is_at_rest();
                return;
            }
        }
    }

    /// Runs one turn, and returns whether anything changed.
    fn turn(&mut self) -> bool
        ensures { GoesOn K.is_honest (world_of K.Keeper self.old) (world_of K.Keeper self.new) }
    {
        let taken = self.take_all(REFEREE);
        let added = self.add_due();
        let saved = self.save_news();
        let told = self.tell();
        taken || added || saved || told
    }

    /// Lets the referee send and the followers take. Returns whether there was anything to send or
    /// take.
    fn tell(&mut self) -> bool
        ensures { GoesOn K.is_honest (world_of K.Keeper self.old) (world_of K.Keeper self.new) }
    {
        let mut moved = matches!(
            self.pass(Event::Tick { party: REFEREE }),
            Outcome::Sent(1..)
        );
        for party in FOLLOWERS {
            moved = self.take_all(party) || moved;
        }
        moved
    }

    /// Returns whether all parties hold what is saved, the last claim is answered, and the referee
    /// has nothing to add.
    fn is_at_rest(&self) -> bool {
        let Some(record) = self.world.held(REFEREE) else {
            return false;
        };
        record.actor() != Actor::Referee
            && record.len() == self.saved
            && record.len() >= self.claimed
            && self.all_hold_saved()
    }

    /// Returns whether each follower holds as many entries as the referee's last save.
    fn all_hold_saved(&self) -> bool {
        for party in FOLLOWERS {
            if self.held_by(party) != self.saved {
                return false;
            }
        }
        true
    }

    /// Lets a party take the datagrams that wait for it, at most 64. Returns whether there were
    /// any.
    fn take_all(&mut self, party: u8) -> bool
        ensures { GoesOn K.is_honest (world_of K.Keeper self.old) (world_of K.Keeper self.new) }
    {
        for count in 0..MOST_TAKES {
            let word = self.dice.keyed_word(&self.key);
            let event = Event::Take {
                party,
                pick: 0,
                word,
            };
            match self.pass(event) {
                Outcome::NoDatagram | Outcome::LinkFault | Outcome::Down => return count > 0,
                _ => {}
            }
        }
        true
    }

    /// Gives the referee random words, at most 16, until it has nothing to add by itself. Returns
    /// whether it had anything to add.
    fn add_due(&mut self) -> bool
        ensures { GoesOn K.is_honest (world_of K.Keeper self.old) (world_of K.Keeper self.new) }
    {
        for count in 0..MOST_DUE {
            let word = self.dice.keyed_word(&self.key);
            match self.pass(Event::Due { word }) {
                Outcome::Due(Ok(_) | Err(DueFault::WordRefused | DueFault::EqualOpening)) => {}
                _ => return count > 0,
            }
        }
        true
    }

    /// Lets the referee save if what it holds differs from its last save. Returns whether it saved.
    /// If the save fails, restarts the referee from its last one.
    fn save_news(&mut self) -> bool
        ensures { GoesOn K.is_honest (world_of K.Keeper self.old) (world_of K.Keeper self.new) }
    {
        let held = self.held_by(REFEREE);
        if held == self.saved {
            return false;
        }
        match self.pass(Event::Save { party: REFEREE }) {
            Outcome::Saved(_) => {
                self.saved = held;
                true
            }
            Outcome::SaveFault => {
                self.restart(REFEREE);
                false
            }
            _ => false,
        }
    }
}
