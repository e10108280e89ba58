//! Writes the state of a match as JSON, as a match server sends it to watchers and players
//! (docs/SERVING.md, "State"). It is for programs that draw the match themselves.
//!
//! ```
//! let mut log = Record::new(alloc, 7, 1, Rules::One)?;
//! log.push(Entry::Opening(Die::One, Die::Three))?;
//! let text = state_text(alloc, &log, Some(Player::O))?;
//! assert!(rt; text.starts_with(b"{\"number\":1,\"length\":1,\"rules\":1,\"game\":1,"));
//! ```
#![tactic(auto)]

mod boards;
mod headings;
mod last_lines;
mod laws;
mod lists;
mod may;
mod phases;
mod quoting;
mod states;

pub use headings::{letter_of, truth};
pub use laws::states_are_functions;
pub use quoting::put_quoted;
pub use states::state_text;
