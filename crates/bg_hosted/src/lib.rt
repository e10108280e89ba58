//! Hosts a whole match in one process: the referee, the two seats and one watcher, over a queue in
//! memory. It is for servers whose players need nothing but a connection.
//!
//! ```
//! let terms = Terms {
//!     length: 1,
//!     rules: Rules::One,
//! };
//! let mut hosted = HostedMatch::begin(alloc, 7, terms, [3; 32], keepers)?;
//! // The opening is there, saved and told, and one of the players is to move.
//! assert!(rt; hosted.told() == 1);
//! // An action has the number of the entry that it is to become, so a repeat acts once.
//! let acted = hosted.act(Player::X, 1, Action::Roll);
//! assert!(rt; acted == Acted::OtherEntry);
//! ```
#![tactic(auto)]

mod acting;
mod hosted_matches;
mod laws;
mod queue_links;
mod settling;
mod waiting;

pub use acting::{Acted, is_answered};
pub use hosted_matches::HostedMatch;
pub use laws::{lives_are_one_run, what_is_told_is_saved};
pub use queue_links::{MOST_WAITING, QueueLink};
