//! The parties of a match for a host that keeps their slots and carries their packets. One type
//! stands for the referee, a seat and a watcher, and knows of the save that is under way.
//!
//! ```
//! let terms = Terms {
//!     length: 5,
//!     rules: Rules::One,
//! };
//! // Party 0 is the referee. Its two slots are empty, so it begins afresh.
//! let mut referee = Party::open(alloc, 0, 1, terms, b"", b"")?;
//! assert!(rt; referee.due(12) == Ok(1));
//! // Nothing is told before it is saved: write the text to the slot, and then say so.
//! let (_slot, save, _text) = referee.to_save()?;
//! assert!(rt; referee.mark_saved(save).is_ok());
//! // An entry that comes in between ends the save, so that it can't be marked.
//! let (_slot, save, _text) = referee.to_save()?;
//! let resigns = Packet::Claim {
//!     id: 1,
//!     rules: Rules::One,
//!     sender: 1,
//!     number: 2,
//!     action: Action::Resign(Level::Normal),
//! };
//! assert!(rt; referee.take(&resigns, 0).grows());
//! assert!(rt; referee.mark_saved(save).is_err());
//! ```
#![tactic(auto)]

mod cores;
mod faults;
mod party;

pub use faults::{NotUnderWay, OpenFault, RoleFault, SaveFault};
pub use party::{MOST_SENT, Party, Taken};
