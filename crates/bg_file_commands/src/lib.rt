//! The commands that need no other party. They judge, show, draw and convert what files hold, or
//! make a match, its keys, or a referee's folder anew. Each prints its result, reports errors on
//! the standard error, and returns its ending, as an error where it ended early. For a program that
//! exits with the status of that ending.
//!
//! ```
//! let saved = ShowOptions {
//!     path0: "no such folder",
//!     path1: None,
//!     wants_transcript: false,
//! };
//! assert!(rt; show::run(&rt, saved) == Err(Ending::WrongArguments));
//! ```
#![tactic(auto)]

mod attempts;
mod batches;
pub mod check;
mod check_rows;
mod checkers;
pub mod dice;
pub mod export;
mod header_files;
mod header_texts;
mod headers;
mod held_records;
pub mod id;
pub mod import;
mod inputs;
pub mod judge;
pub mod keys;
pub mod list;
mod marks;
mod new_folders;
pub mod new_match;
mod outputs;
pub mod page;
pub mod picture;
mod played_by;
mod ports_beside;
pub mod recover;
mod saved_files;
pub mod show;
mod texts;
mod walks;
