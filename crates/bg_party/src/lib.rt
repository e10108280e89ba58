//! The followers of a match, who learn it from its referee: the two seats and the watchers. For a
//! host that carries packets itself (docs/USING.md).
//!
//! ```
//! let mut seat = Seat::fresh(alloc, Player::X, 1, 5, Rules::One)?;
//! // What it gives is sent to the referee, and what the referee answers is taken.
//! assert!(rt; matches!(seat.tick(), Some(Packet::Want { held: 0, .. })));
//! let bytes = [
//!     66, 71, 2, 3, 0, 0, 0, 0, 0, 0, 0, 1, 1, 0, 0, 0, 1, 1, 1, 3, 1,
//! ];
//! assert!(rt; seat.take(&decode(&bytes)?) == Learned::Grew(1));
//! assert!(rt; seat.choose(Action::Resign(Level::Normal)) == Ok(2));
//! // A claim is sent only once it is saved: write the text to the slot, and then say so.
//! let (_slot, save, _text) = seat.to_save()?;
//! seat.mark_saved(save);
//! assert!(rt; matches!(seat.tick(), Some(Packet::Claim { number: 2, .. })));
//! ```
#![tactic(auto)]

mod fault_words;
mod follower;
mod laws;
mod outcomes;
mod parties;
mod retry;
mod seat;
mod told;
mod watcher;
mod window;

pub use laws::{followers_keep_the_gaps, packets_teach_one_thing};
pub use outcomes::{ChooseFault, Learned};
pub use seat::Seat;
pub use watcher::Watcher;
pub use window::WINDOW;
