//! The keys of a party, which seal and open its datagrams.
ghost use Rattle.std.specs.Prelude.{◌≡◌, ◌≤◌, length, MatchOption};
ghost use Rattle.bg_seals.specs.Datagrams.{most_packet_bytes};
ghost use Rattle.bg_system.specs.Keyrings.{way};

use crate::files::key_files::KeyFiles;
use bg_seals::{Direction, Key, MasterSecret, SealedDatagram};
use bg_wire::{FIRST_WATCHER, REFEREE, SEAT_OF_O, SEAT_OF_X};

/// The keys of a party (docs/FORMATS.md, "Sealed datagrams").
#[derive(Debug, Drop)]
pub enum Keyring {
    /// The referee's: those of both seats, and that of all watchers.
    OfReferee { x: Key, o: Key, watchers: Key },
    /// A seat's own key, or the key of all watchers.
    OfParty(Key),
}

/// Returns the direction of a datagram from one party to another, and which of them is not the
/// referee. Returns `None` where both are the referee, or neither is.
fn way(from: u8, to: u8) -> Option<(Direction, u8)>
    ensures { result ≡ way from to }
{
    match (from, to) {
        (REFEREE, REFEREE) => None,
        (REFEREE, party) => Some((Direction::FromReferee, party)),
        (party, REFEREE) => Some((Direction::ToReferee, party)),
        _ => None,
    }
}

impl Keyring {
    ghost use Rattle.bg_system.specs.Keyrings.{CannotSeal, IsNotSealedBy, IsSealedBy, key_for, keys_in_files, keys_of_referee};

    /// Returns the keys of the referee of the match with this number, derived from its secret.
    pub fn of_referee(secret: &MasterSecret, id: u64) -> Keyring
        ensures { result ≡ keys_of_referee secret.now id }
    {
        Keyring::OfReferee {
            x: secret.key_of(id, SEAT_OF_X),
            o: secret.key_of(id, SEAT_OF_O),
            watchers: secret.key_of(id, FIRST_WATCHER),
        }
    }

    /// Returns the keys of a referee that has the key file of each party in place of their secret.
    pub fn of_key_files(files: KeyFiles) -> Keyring
        ensures { result ≡ keys_in_files files }
    {
        let KeyFiles { x, o, watchers } = files;
        Keyring::OfReferee {
            x: x.key,
            o: o.key,
            watchers: watchers.key,
        }
    }

    /// Returns the key for datagrams between the referee and a party.
    fn key_for(&self, party: u8) -> &Key
        ensures { result.now ≡ key_for self.now party }
    {
        match self {
            Keyring::OfReferee { x, o, watchers } => match party {
                SEAT_OF_X => x,
                SEAT_OF_O => o,
                _ => watchers,
            },
            Keyring::OfParty(key) => key,
        }
    }

    /// Seals a packet of at most 128 bytes that goes from one party to another. Returns `None`
    /// where not exactly one of them is the referee.
    pub fn seal(&self, from: u8, to: u8, packet: &[u8]) -> Option<SealedDatagram>
        requires { length packet.now ≤ most_packet_bytes }
        ensures { MatchOption result (CannotSeal from to)
            (λ datagram. IsSealedBy self.now from to packet.now datagram.items) }
    {
        let (direction, party) = way(from, to)?;
        Some(self.key_for(party).seal(direction, party, packet))
    }

    /// Returns the packet that was sealed to go from one party to another; `None` where the
    /// datagram is no packet that was sealed so.
    pub fn open<'a>(&self, from: u8, to: u8, datagram: &'a [u8]) -> Option<&'a [u8]>
        ensures { MatchOption result (IsNotSealedBy self.now from to datagram.now)
            (λ packet. IsSealedBy self.now from to packet.now datagram.now) }
    {
        let (direction, party) = way(from, to)?;
        self.key_for(party).open(direction, party, datagram)
    }
}
