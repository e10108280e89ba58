//! The store of a server's matches: a folder for each, a database, or whatever the host chooses.

use bg_dice::Secret;
use bg_match::{Record, Terms};
use bg_requests::{Digest, Seats};
use bg_system::Names;
use bg_world::Keepers;

/// The name of a match, which is that of its folder.
pub type MatchName = String;

/// A match that the host has found or made.
#[derive(Drop)]
pub struct Found<K> {
    pub name: MatchName,
    pub names: Names,
    pub id: u64,
    pub terms: Terms,
    /// `None` if nobody may play the match here.
    pub seats: Option<Seats>,
    /// The secret from which its dice are made.
    pub key: Secret,
    /// The SHA-256 of that secret, if it was published before the first roll.
    pub digest: Option<Digest>,
    pub keepers: Keepers<K>,
    /// Whether lists leave the match out.
    pub is_hidden: bool,
    /// The number of minutes for which nobody has acted in it.
    pub quiet_minutes: u64,
}

/// A match that the host has made, and the secrets of its seats, which are stored nowhere.
#[derive(Drop)]
pub struct Made<K> {
    pub found: Found<K>,
    pub x: String,
    pub o: String,
}

/// The counters of the saves of all matches.
#[derive(Clone, Copy)]
pub struct Saves {
    /// The number of saves that were made durable.
    pub done: u64,
    /// The number of saves that failed.
    pub failed: u64,
    /// The time that the saves took, with their syncs, in microseconds.
    pub micros: u64,
}

impl Saves {
    /// The counters at the start: all are 0.
    pub const NONE: Saves = Saves {
        done: 0,
        failed: 0,
        micros: 0,
    };
}

/// The store of the matches.
pub trait Store<K> {
    /// Makes a match durably. Returns `None` if that fails.
    fn make(&mut self, terms: Terms, names: Names) -> Option<Made<K>>;

    /// Reads the record of a match that has ended. Returns `None` if that fails.
    fn load(&self, name: &str) -> Option<Record>;

    /// Returns the counters of the saves of all matches, if they are known.
    fn saves(&self) -> Saves {
        Saves::NONE
    }

    /// Returns whether a match is too long for more of it to be saved.
    fn is_full(&self, _name: &str) -> bool {
        false
    }
}
