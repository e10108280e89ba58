//! The command line of the program: its commands, their options with help, and the requests that
//! arguments make. For a program that carries them out.
//!
//! ```
//! // The command line has the command that its first argument names, and its help all of them.
//! let words = ["bg_relay", "page", "--title", "Anna against Otto"];
//! let matches = command_line(alloc, Some("page"))?.try_get_matches_from(words.as_slice())?;
//! let Ok(Request::Page(page)) = Request::read(&matches) else {
//!     return Err(Fail::from("another request"));
//! };
//! assert!(rt; page.title == Some("Anna against Otto") && page.numbering == Numbering::Mover);
//! ```
#![tactic(auto)]

mod arguments;
mod batches;
mod commands;
mod headers;
mod requests;
mod shared;
mod tasks;

pub use batches::BatchOptions;
pub use commands::act::ActOptions;
pub use commands::board::BoardOptions;
pub use commands::check::{CheckFormat, CheckOptions};
pub use commands::export::ExportOptions;
pub use commands::import::ImportOptions;
pub use commands::list::{ListFormat, ListOptions};
pub use commands::manage::{ManageOptions, Management};
pub use commands::new_match::NewOptions;
pub use commands::page::PageOptions;
pub use commands::picture::PictureOptions;
pub use commands::play::{PlayOptions, SeatOptions};
pub use commands::play_loop::LoopOptions;
pub use commands::recover::RecoverOptions;
pub use commands::referee::RefereeOptions;
pub use commands::script::ScriptOptions;
pub use commands::serve::ServeOptions;
pub use commands::show::ShowOptions;
pub use commands::sim::SimOptions;
pub use commands::watch::WatchOptions;
pub use headers::HeaderOptions;
pub use requests::{Request, RequestFault};
pub use tasks::{TASKS, Task, command_line};
