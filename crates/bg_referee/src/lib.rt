//! The referee of a match: it decides which entries the match has, and answers the parties. For a
//! host that carries packets itself (docs/USING.md).
//!
//! ```
//! let mut referee = Referee::fresh(alloc, 1, 5, Rules::One)?;
//! assert!(rt; referee.due(12) == Ok(1));
//! // Nothing is told before it is saved: write the text to the slot, and then say so.
//! let (_slot, save, _text) = referee.to_save()?;
//! referee.mark_saved(save);
//! let want = Packet::Want {
//!     id: 1,
//!     rules: Rules::One,
//!     sender: 3,
//!     held: 0,
//! };
//! // The answer goes to party 3.
//! assert!(rt; matches!(referee.take(&want, 0), TakeOutcome::Answer(3, _)));
//! ```
#![tactic(auto)]

mod answers;
mod fault_words;
mod outcomes;
mod referee;
mod rulings;
mod saves;
mod sessions;
mod ticks;

pub use outcomes::{DueFault, TakeOutcome};
pub use referee::Referee;
