//! The parts of the stores of a match server: the files of its folders, the saves of a turn, and
//! the members of an etcd cluster. `bg_serve` uses them for its matches and clients.
//!
//! ```
//! // A folder counts as known up to the greatest revision that was noted of it.
//! let mut known = Known::nothing(alloc);
//! known.note("anna", 7)?;
//! known.note("anna", 5)?;
//! assert!(rt; known.of("anna") == 7 && known.of("otto") == 0);
//! // The parts of a file's name: its folder, and its name there.
//! assert!(rt; parts_of("anna/party-0.1") == Some(("anna", "party-0.1")));
//! ```
#![tactic(auto)]

mod backups;
mod behind;
mod changes;
mod copies;
mod followers;
mod known;
mod lines;
mod long_texts;
mod marks;
mod members;
mod pending;
mod troubles;
mod turn_saves;
mod watches;

pub use backups::copy_match;
pub use behind::Behind;
pub use changes::{forget_change, take_changes, tell_change};
pub use copies::{BESIDE_SLOTS, Copies, MATCH, SLOTS, is_slot, is_slot_name, parts_of};
pub use followers::overwrite;
pub use known::Known;
pub use lines::Answer;
pub use long_texts::LongTexts;
pub use marks::{hide, is_hidden, quiet_minutes, show};
pub use members::{Members, hosts_in};
pub use pending::Pending;
pub use troubles::Trouble;
pub use turn_saves::{TurnSaves, TurnSlots};
pub use watches::{Told, WATCH, Watch};
