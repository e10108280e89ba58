//! What paths and messages of a match server name, and who may play. For programs that answer them.
//!
//! ```
//! assert!(rt; target_of("/matches/7f3a/state") == Target::Of("7f3a", Part::State));
//! assert!(rt; parse_message("act 12 roll") == Message::Act(12, "roll"));
//! assert!(rt; is_key_of_order("x") && !is_key_of_order("name_x"));
//! ```
#![tactic(auto)]

mod messages;
mod numbers;
mod orders;
mod seats;
mod targets;

pub use messages::{MOST_MESSAGE, Message, parse_act, parse_message};
pub use orders::is_key_of_order;
pub use seats::{Digest, Seats, digest_of};
pub use targets::{Part, Target, is_name, target_of};
