//! Packets and datagrams.
ghost use Rattle.std.specs.Prelude.{◌≡◌, ◌↔◌, IsTrue};

pub(crate) mod codec;
pub(crate) mod layout;
pub(crate) mod writing;

use arrayvec::ArrayVec;
use bg_match::{Action, Entry, Number, Rules};
use std::marker::Model;

/// The greatest number of entries in one packet.
pub const MOST_ENTRIES_IN_PACKET: u8 = 8;

/// The room of an [`EntryList`].
const ENTRY_ROOM: usize = MOST_ENTRIES_IN_PACKET as usize;

/// The greatest length of a datagram in bytes.
pub const MOST_DATAGRAM_BYTES: usize = 128;

/// The greatest length of the encoding of a packet in bytes.
pub const LONGEST_PACKET: usize = 98;

/// At most eight entries that follow each other. Contracts see it as the list of its entries.
#[derive(Debug, PartialEq, Eq, Drop)]
pub struct EntryList {
    /// The entries, in the order of their numbers.
    pub entries: ArrayVec<Entry, ENTRY_ROOM>,
}

impl Model for EntryList {
    ghost use Rattle.std.specs.Prelude.{List};
    ghost use Rattle.bg_match.specs.declared.entries.Entry.{Entry};

    ghost Value = { List Entry };

    ghost view = { λ list. list.entries.items };

    ghost inverse = { λ entries. record { entries = record { items = entries } } };
}

/// A message from one party of a match to another (docs/FORMATS.md, "Packets"). Parties are
/// numbered: 0 is the referee, 1 the seat of X, 2 the seat of O, and the others watch.
#[derive(Debug, PartialEq, Eq, Drop)]
pub enum Packet {
    /// A party asks the referee for the entries after those that it holds.
    Want {
        /// The number of the match.
        id: u64,
        /// The rules of the match.
        rules: Rules,
        /// The party that asks, from 1 to 255.
        sender: u8,
        /// The number of entries it holds, from 0 to 1000000.
        held: Number,
    },
    /// A seat claims an action.
    Claim {
        /// The number of the match.
        id: u64,
        /// The rules of the match.
        rules: Rules,
        /// The seat's party, 1 or 2.
        sender: u8,
        /// The number of the entry that shall answer the action, from 1 to 1000000.
        number: Number,
        /// The action of the seat.
        action: Action,
    },
    /// The referee tells entries.
    Entries {
        /// The number of the match.
        id: u64,
        /// The rules of the match.
        rules: Rules,
        /// The number of the first of these entries, from 1 to 1000000. The number of the last is
        /// at most 1000000.
        start: Number,
        /// The entries, from 1 to 8.
        list: EntryList,
    },
}

impl Packet {
    ghost use Rattle.bg_wire.specs.Packets.PacketText.{id_of, packet_rules, IsOfMatch, is_of_match};

    /// Returns the number of the match that the packet is of.
    pub fn id(&self) -> u64
        ensures { result ≡ id_of self.now }
    {
        match self {
            Packet::Want { id, .. } | Packet::Claim { id, .. } | Packet::Entries { id, .. } => *id,
        }
    }

    /// Returns the rules of that match.
    pub fn rules(&self) -> Rules
        ensures { result ≡ packet_rules self.now }
    {
        match self {
            Packet::Want { rules, .. }
            | Packet::Claim { rules, .. }
            | Packet::Entries { rules, .. } => *rules,
        }
    }

    /// Returns whether the packet is of the match with this number and these rules.
    pub fn is_of(&self, id: u64, rules: Rules) -> bool
        ensures value { result ≡ is_of_match id rules self.now }
        ensures of { IsTrue result ↔ IsOfMatch id rules self.now }
    {
        self.id() == id && self.rules() == rules
    }
}

/// The default fills the unused places of a list. It is a Want of party 1 in match 0, by the first
/// rules, which holds no entry.
impl Default for Packet {
    ghost use Rattle.std.specs.Prelude.{◌≡◌};
    ghost use Rattle.bg_match.specs.declared.limits.Rules.TheVariants.{One};
    ghost use Rattle.bg_wire.specs.declared.packets.Packet.TheVariants.{Want};

    ghost is_default = { λ packet. packet ≡ Want 0 One 1 0 };

    fn default() -> Self {
        Packet::Want {
            id: 0,
            rules: Rules::One,
            sender: 1,
            held: 0,
        }
    }
}

/// The bytes of a datagram, at most 128. Contracts see it as the list of its bytes.
#[derive(Debug, PartialEq, Eq, Drop)]
pub struct PacketBytes {
    /// The bytes, in the order in which they are sent.
    pub bytes: ArrayVec<u8, MOST_DATAGRAM_BYTES>,
}

impl Model for PacketBytes {
    ghost use Rattle.std.specs.Prelude.{List, ℕ};

    ghost Value = { List ℕ };

    ghost view = { λ packet. packet.bytes.items };

    ghost inverse = { λ bytes. record { bytes = record { items = bytes } } };
}

/// Bytes on their way to a party.
#[derive(Debug, PartialEq, Eq, Drop)]
pub struct Datagram {
    /// The party that they go to, from 0 to 255.
    pub to: u8,
    /// The bytes to send.
    pub bytes: PacketBytes,
}

impl Datagram {
    /// Returns the same datagram. It allocates nothing.
    pub fn copy(&self) -> Datagram
        ensures { result ≡ self.now }
    {
        let mut bytes = ArrayVec::new();
        bytes
            .try_extend_from_slice(self.bytes.bytes.as_slice())
            .unwrap();
        Datagram {
            to: self.to,
            bytes: PacketBytes { bytes },
        }
    }
}
