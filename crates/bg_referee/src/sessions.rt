//! The progress of each peer: what the parties are known to have, so that the referee can send them
//! what they lack without being asked.
ghost use Rattle.std.specs.Prelude.{◌≡◌, ◌<◌, ◌+◌, ◌++◌, ◌∷◌, [], All, take, min};
ghost use Rattle.bg_wire.specs.Entries.Codes.{most_in_packet};
ghost use Rattle.bg_referee.specs.Sessions.{IsSessions, no_sessions, tell, hear_sender, behind};
ghost use Rattle.bg_referee.specs.Sessions.{pushed, party_after, after_pushes, last_party, most_pushes};
ghost use Rattle.bg_referee.specs.Sessions.{told_to};
ghost use Rattle.bg_referee.specs.Rulings.{IsShowable, hear_ruling};

use crate::rulings::Ruling;
use arrayvec::ArrayVec;
use bg_match::Number;
use bg_wire::{LAST_WATCHER, MOST_ENTRIES_IN_PACKET, Packet, SEAT_OF_X};
use std::marker::Model;

/// The number of parties to which one tick sends entries, at most.
pub(crate) const MOST_PUSHES: usize = 2;

/// The first party that is told of entries.
const FIRST_PARTY: u8 = SEAT_OF_X;

/// The last party that is told of entries.
const LAST_PARTY: u8 = LAST_WATCHER;

/// A place for each number of a party.
const PLACES: usize = LAST_PARTY as usize + 1;

/// The number of the last entry that each party is known to have, and the party with which the next
/// round begins (docs/PROTOCOL.md, "What the referee sends unasked").
///
/// Contracts see both.
#[derive(Debug, Drop)]
pub(crate) struct Sessions {
    /// Whether anything is known of each party. An array of options would take twice the room.
    known: [bool; PLACES],
    /// The number of the last entry that each party is known to have, where anything is known of
    /// it.
    told: [Number; PLACES],
    cursor: u8,
}

impl Model for Sessions {
    ghost use Rattle.bg_referee.specs.KnownNumbers.{known_numbers};
    ghost use Rattle.bg_referee.specs.Sessions.{SessionsView, IsSessions};

    ghost Value = { SessionsView };

    ghost view = { λ s. record { told = known_numbers s.known s.told; cursor = s.cursor } };

    ghost invariant = { λ s. IsSessions (record { told = known_numbers s.known s.told; cursor = s.cursor }) };
}

impl Sessions {
    /// Returns the state where nothing is known of any party.
    pub(crate) fn none() -> Sessions
        ensures value { result ≡ no_sessions }
        ensures sessions { IsSessions result }
    {
        Sessions {
            known: [false; PLACES],
            told: [0; PLACES],
            cursor: FIRST_PARTY,
        }
    }

    /// Learns from the ruling on a packet, while `saved` entries are saved.
    pub(crate) fn hear(&mut self, saved: Number, packet: &Packet, ruling: Ruling)
        requires { IsShowable saved ruling }
        ensures { self.new ≡ hear_ruling self.old saved packet.now ruling }
    {
        match ruling {
            Ruling::Shows(party, start) => self.tell_next(party, start - 1, saved),
            Ruling::Nothing | Ruling::Accepted(_) => self.hear_sender(saved, packet),
            _ => {}
        }
    }

    /// Notes that the sender of a packet has all that is saved.
    fn hear_sender(&mut self, saved: Number, packet: &Packet)
        ensures { self.new ≡ hear_sender self.old saved packet.now }
    {
        match packet {
            Packet::Want { sender, .. } | Packet::Claim { sender, .. } => self.tell(*sender, saved),
            Packet::Entries { .. } => {}
        }
    }

    /// Notes that a party was sent the saved entries behind this number, at most eight, and has
    /// them.
    fn tell_next(&mut self, party: u8, number: Number, saved: Number)
        requires { number < saved }
        ensures { self.new ≡ tell self.old party (min saved (number + most_in_packet)) }
    {
        let count = (saved - number).min(Number::from(MOST_ENTRIES_IN_PACKET));
        self.tell(party, number + count);
    }

    /// Notes that a party has the entries up to this number.
    fn tell(&mut self, party: u8, number: Number)
        ensures { self.new ≡ tell self.old party number }
    {
        let place = usize::from(party);
        self.known[place] = true;
        self.told[place] = number;
    }

    /// Returns the first two parties, once round from the cursor on, that are known to have less
    /// than is saved. Each stands beside the number of its last entry.
    pub(crate) fn pushed(&self, saved: Number) -> ArrayVec<(u8, Number), MOST_PUSHES>
        ensures pushed { result.items ≡ pushed self.now saved }
        ensures behind { All (λ one. one.1 < saved) result.items }
    {
        let mut found = ArrayVec::new();
        for party in usize::from(self.cursor)..PLACES {
            self.add_if_behind(&mut found, party, saved);
        }
        for party in usize::from(FIRST_PARTY)..usize::from(self.cursor) {
            self.add_if_behind(&mut found, party, saved);
        }
        found
    }

    /// Adds a party, if it is known to have less than is saved and there is room.
    fn add_if_behind(
        &self,
        found: &mut ArrayVec<(u8, Number), MOST_PUSHES>,
        party: usize,
        saved: Number,
    )
        requires { party < last_party + 1 }
        ensures { found.new.items ≡ take most_pushes (found.old.items ++ behind self.now saved (party ∷ [])) }
    {
        if found.is_full() {
            return;
        }
        if let Some(number) = self.told_to(party) {
            if number < saved {
                found.push((party as u8, number));
            }
        }
    }

    /// Returns the number of the last entry that a party is known to have, or None where nothing is
    /// known of it.
    fn told_to(&self, party: usize) -> Option<Number>
        requires { party < last_party + 1 }
        ensures { result ≡ told_to self.now party }
    {
        if self.known[party] {
            Some(self.told[party])
        } else {
            None
        }
    }

    /// Notes that each of these parties was sent the entries behind its last one, at most eight.
    pub(crate) fn push(&mut self, saved: Number, some: &[(u8, Number)])
        requires { All (λ one. one.1 < saved) some.now }
        ensures { self.new ≡ after_pushes self.old saved some.now }
    {
        for (party, number) in some {
            self.tell_next(*party, *number, saved);
            self.cursor = party_after(*party);
        }
    }
}

/// Returns the party of the next number; the last one is followed by the first.
fn party_after(party: u8) -> u8
    ensures { result ≡ party_after party }
{
    if party == LAST_PARTY {
        FIRST_PARTY
    } else {
        party + 1
    }
}
