//! The parties that come and go, as another one hears of them.

use crate::sockets::party_sockets::PartySocket;
use std::time::Clock;

/// Number of parties.
const PARTIES: usize = 256;

/// A change in a party's attendance.
#[derive(Clone, Copy, Debug, PartialEq, Eq)]
pub enum Change {
    /// It is heard for the first time.
    Came,
    /// Nothing was heard of it for a minute.
    Left,
    /// It is heard again after that.
    Returned,
}

/// The last report on a party.
#[derive(Clone, Copy)]
enum Told {
    Nothing,
    Here,
    Away,
}

/// Keeps what was reported of each party. As a minute of silence counts as leaving, each change of
/// a party is reported at most once a minute.
#[derive(Drop)]
pub struct Attendance {
    told: [Told; PARTIES],
}

impl Attendance {
    /// Creates the attendance of parties of which nothing was reported yet.
    pub fn new() -> Attendance {
        Attendance {
            told: [Told::Nothing; PARTIES],
        }
    }

    /// Returns the change of a party since the last call for it, by what this socket hears.
    pub fn change<C: Clock>(&mut self, socket: &PartySocket<'_, C>, party: u8) -> Option<Change> {
        let told = &mut self.told[usize::from(party)];
        let (now, change) = match (*told, socket.hears(party)) {
            (Told::Nothing, true) => (Told::Here, Change::Came),
            (Told::Here, false) => (Told::Away, Change::Left),
            (Told::Away, true) => (Told::Here, Change::Returned),
            (Told::Nothing | Told::Away, false) | (Told::Here, true) => return None,
        };
        *told = now;
        Some(change)
    }
}
