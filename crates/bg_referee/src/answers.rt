//! The referee's answers to packets.
ghost use Rattle.std.specs.Prelude.{◌≡◌, ◌≤◌, [], List};
ghost use Rattle.std.specs.List.{AllByRecursion};
ghost use Rattle.bg_match.specs.Entry.{IsEntry};
ghost use Rattle.bg_match.specs.Terms.{rules_of};
ghost use Rattle.bg_match.specs.declared.entries.Entry.{Entry};
ghost use Rattle.bg_wire.specs.Packets.PacketText.{IsPacket};

use crate::rulings::Ruling;
use crate::{Referee, TakeOutcome};
use arrayvec::ArrayVec;
use bg_match::{Entry, EntryFault, Number};
use bg_wire::{EntryList, MOST_ENTRIES_IN_PACKET, Packet};

/// The room of a list of entries.
const ENTRY_ROOM: usize = MOST_ENTRIES_IN_PACKET as usize;

impl Referee {
    ghost use Rattle.bg_referee.specs.Referee.{IsShown};
    ghost use Rattle.bg_referee.specs.Takes.{RefereeTakes, TellsSaved};

    /// Takes a packet, and returns what becomes of it (docs/PROTOCOL.md,
    /// "What the referee answers"). The word gives the dice where a roll is claimed. Only
    /// `Accepted` changes the record. The packet must have an encoding, as each that `decode`
    /// returns does.
    pub fn take(&mut self, packet: &Packet, word: u32) -> TakeOutcome
        requires { IsPacket packet.now }
        ensures { RefereeTakes self.old packet.now word result self.new }
    {
        let ruling = self.rule(packet, word);
        self.sessions.hear(self.saved, packet, ruling);
        match ruling {
            Ruling::OtherMatch => TakeOutcome::OtherMatch,
            Ruling::Nothing => TakeOutcome::Nothing,
            Ruling::Shows(party, start) => {
                return TakeOutcome::Answer(party, self.packet_from(start));
            }
            Ruling::Ahead => TakeOutcome::Ahead,
            Ruling::NotYourTurn => TakeOutcome::NotYourTurn,
            Ruling::WordRefused => TakeOutcome::WordRefused,
            Ruling::Refused(EntryFault::Memory) => TakeOutcome::Memory,
            Ruling::Refused(fault) => return TakeOutcome::Illegal(fault),
            Ruling::Accepted(number) => return TakeOutcome::Accepted(number),
        }
    }

    /// Returns the packet that tells the saved entries from a number on.
    #[inline(always)]
    pub(crate) fn packet_from(&self, start: Number) -> Packet
        requires first { 1 ≤ start }
        requires last { start ≤ self.now.saved }
        ensures shows { (list : List Entry) × IsShown self.now start list
            × (result ≡ Packet.Entries self.now.log.id (rules_of self.now.log.terms) start list) }
        ensures tells { TellsSaved self.now result }
        ensures fits { IsPacket result }
    {
        Packet::Entries {
            id: self.log.id(),
            rules: self.log.rules(),
            start,
            list: self.saved_from(start),
        }
    }

    /// Returns the saved entries from a number on, at most eight.
    fn saved_from(&self, start: Number) -> EntryList
        requires first { 1 ≤ start }
        requires last { start ≤ self.now.saved }
        ensures shown { IsShown self.now start result }
        ensures in_range { AllByRecursion IsEntry result }
    {
        let mut list = EntryList {
            entries: ArrayVec::new(),
        };
        self.add_saved(start, &mut list.entries);
        list
    }

    /// Adds the saved entries from a number on, at most eight, to none. It is kept out of its
    /// caller, so that the list is copied into a packet as a whole, and not entry by entry.
    #[inline(never)]
    fn add_saved(&self, start: Number, entries: &mut ArrayVec<Entry, ENTRY_ROOM>)
        requires first { 1 ≤ start }
        requires last { start ≤ self.now.saved }
        requires none { entries.old.items ≡ [] }
        ensures shown { IsShown self.now start entries.new.items }
        ensures in_range { AllByRecursion IsEntry entries.new.items }
    {
        let count = (self.saved - start + 1).min(Number::from(MOST_ENTRIES_IN_PACKET));
        for index in 0..count {
            entries.push(self.log.entry(start + index).unwrap().copy());
        }
    }
}
