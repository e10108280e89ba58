//! The commands that play, run or watch whole matches: in memory, over sockets and files, those of
//! the referee and of a watcher, and the one that keeps pages of many matches. Each prints its
//! result, reports errors on the standard error, and returns its ending, as an error where it ended
//! early. For a program that exits with the status of that ending.
//!
//! ```
//! // A match of no length is none.
//! let no_match = SimOptions {
//!     seed: 7,
//!     terms: Terms {
//!         length: 0,
//!         rules: Rules::One,
//!     },
//!     watchers: 0,
//!     steps: 10,
//! };
//! let progress = Progress::start(&rt, false);
//! assert!(rt; sim::run(&rt, no_match, progress) == Err(Ending::Failed));
//! ```
#![tactic(auto)]

pub mod board;
pub mod play_loop;
pub mod referee;
pub mod script;
pub mod sim;
pub mod watch;
mod watchers;
