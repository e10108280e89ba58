//! A client of an etcd cluster that uses the JSON gateway of its members: it writes requests and
//! parses answers. It has no socket: [`Exchange`] uses the reader and the writer that its caller
//! passes.
//!
//! A store has folders of files. A change of a folder names the revision up to which its author
//! knows the folder. The cluster accepts the change only if nothing in the folder is newer.
//!
//! ```
//! let changes = Changes::new(alloc, "ab12", 7)?;
//! let text = transaction_text(alloc, &[changes])?;
//! assert!(rt; text.as_str().starts_with("{\"compare\":["));
//! assert!(rt; text.as_str().contains("\"mod_revision\":\"8\""));
//! ```
#![tactic(auto)]

mod answers;
mod asking;
mod changes;
mod exchanges;
mod faults;
mod keys;
mod limits;
mod watching;
mod writing;

pub use answers::{Page, Taken, page_in, revision_in, taken_in};
pub use asking::{page_text, put_text, removal_text, transaction_text, watch_text};
pub use changes::{Batches, Changes, File};
pub use exchanges::Exchange;
pub use faults::Fault;
pub use limits::{MOST_ANSWER, MOST_BYTES, MOST_PUTS, MOST_TEXT, NEAR_TEXT, PAGE_FILES};
pub use watching::{Event, News, news_in};
