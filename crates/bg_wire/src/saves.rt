//! The state that a party saves.
pub(crate) mod layouts;
pub(crate) mod restoring;
pub(crate) mod saving;
pub(crate) mod slot_laws;
pub(crate) mod slots;
pub(crate) mod writing;

use bg_match::{Action, Number, Record};

/// The number of the first save.
pub const FIRST_SAVE: u32 = 1;
/// The number of the last save.
pub const LAST_SAVE: u32 = u32::MAX;

/// The greatest length of a saved text in bytes.
pub const LONGEST_SAVED_TEXT: usize = 10_000_038;

/// The state that a party keeps over a restart (docs/FORMATS.md, "Saved files").
#[derive(Debug, Drop)]
pub struct Saved {
    /// The party: 0 the referee, 1 the seat of X, 2 the seat of O.
    pub party: u8,
    /// The number of the save, from 1.
    pub save: u32,
    /// The last claim of a seat, with the number of the entry that shall answer it, from 1
    /// to 1000000. The referee has none.
    pub claim: Option<(Number, Action)>,
    /// The match, as far as the party knows it.
    pub log: Record,
}
