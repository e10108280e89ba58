//! The outcomes of the followers' calls.
use bg_match::{EntryFault, Number};

/// The outcome of a packet that a follower takes, in the order in which the cases are tested
/// (docs/PROTOCOL.md, "What a follower learns").
#[derive(Clone, Copy, Debug, PartialEq, Eq)]
pub enum Learned {
    /// The packet is of another match.
    OtherMatch,
    /// It tells nothing new.
    Nothing,
    /// It tells another entry than the one that is held under this number, from 1. This is the
    /// least such number.
    Conflict(Number),
    /// It begins behind the entry that comes next. Its entries are kept, as far as the reorder
    /// buffer reaches.
    Gap,
    /// Its entry of this number is the first that does not follow those before it.
    Illegal(Number),
    /// There is no memory for the new entries.
    Memory,
    /// All its new entries are held now, with the early ones behind them that follow. This is their
    /// number, from 1 to 40.
    Grew(u8),
}

/// The reason why a seat does not claim an action, in the order in which the refusals are tested
/// (docs/PROTOCOL.md, "Claims").
#[derive(Clone, Copy, Debug, PartialEq, Eq)]
pub enum ChooseFault {
    /// By its record another party acts, or nobody.
    NotYourTurn,
    /// The seat has a claim that its record does not answer yet.
    AlreadyClaimed,
    /// The action does not follow its record. The reason is never `Memory`.
    Illegal(EntryFault),
}
