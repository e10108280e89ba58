//! A journal of files, in a SQLite database: the newest texts of files whose own bytes may not be
//! durable yet. One sync of the database makes many files durable.
//!
//! ```
//! let mut journal = Journal::open(&rt, "journal.db")?;
//! let name = String::from_str(alloc, "a/1")?;
//! let text = b"one".to_vec(alloc)?;
//! journal.write(&[Change::Put(FileText { name, text })])?;
//! assert!(rt; journal.find("a/1")?.is_some() && journal.find("a")?.is_none());
//! ```
#![tactic(auto)]

mod changes;
mod journals;

pub use changes::{Change, FileText, Newest, is_below, newest_of};
pub use journals::{Journal, Swap};
pub use sqlite::{Error, ErrorCode};
