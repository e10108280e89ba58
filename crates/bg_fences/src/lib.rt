//! Lets any number of processes of each party run at once, over one store with a fence. The fence
//! takes a save only if its number is one more than that of the newest (docs/PROTOCOL.md, "Many
//! processes of one party"). For hosts that run many servers over one store. Here are the laws,
//! keepers with such a fence, and the saves of nodes over them.
//!
//! ```
//! let terms = Terms {
//!     length: 1,
//!     rules: Rules::One,
//! };
//! let mut keeper = FencedMemoryKeeper::new(alloc, Vec::new(alloc), Vec::new(alloc));
//! // Two processes of the referee begin over the same slots.
//! let (mut first, _) = RefereeNode::begin(alloc, 1, terms, &mut keeper)?;
//! let (mut second, _) = RefereeNode::begin(alloc, 1, terms, &mut keeper)?;
//! assert!(rt; save_referee(&mut first, &mut keeper) == Outcome::Saved(1));
//! // The other one is behind now. It is down until it restarts, from that save.
//! assert!(rt; save_referee(&mut second, &mut keeper) == Outcome::SaveFault);
//! assert!(rt; second.restart(&mut keeper) == Outcome::Restarted);
//! ```
#![tactic(auto)]

mod fenced_keepers;
mod fenced_memory_keepers;
mod fenced_saves;
mod laws;
mod memory_slots;

pub use fenced_keepers::FencedKeeper;
pub use fenced_memory_keepers::FencedMemoryKeeper;
pub use fenced_saves::{save_referee, save_seat};
pub use laws::{fenced_nodes_agree, fenced_processes_agree, fenced_saves_are_calls};
