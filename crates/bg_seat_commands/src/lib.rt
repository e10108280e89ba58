//! The commands that play for a player: at a terminal, one action for scripts, and an automatic
//! player. Each plays in the process of the player's seat, and returns its ending. Where it ended
//! early, it returns that as an error, and reports it on the standard error. For a program that
//! exits with the status of that ending.
//!
//! ```
//! let seat = SeatOptions {
//!     player: Some(Player::X),
//!     match_path: "no such file",
//!     folder: "x",
//! };
//! assert!(rt; auto::run(&rt, seat, false) == Err(Ending::Failed));
//! ```
#![tactic(auto)]

pub mod act;
pub mod auto;
mod foreign_entries;
pub mod play;
mod seats;
mod typed_lines;
