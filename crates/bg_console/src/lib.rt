//! What the program's commands share: messages and progress on standard error, output of a growing
//! record, files kept for others, and startup. A command that can't go on reports why, and ends
//! with an [`Ending`](bg_reports::Ending).
//!
//! ```
//! // A record is printed as a transcript, entry by entry.
//! let mut record = Record::new(alloc, 0, 1, Rules::One)?;
//! let mut telling = Telling::new();
//! assert!(rt; telling.go_on(&rt, &record) == Ok(false));
//! record.push(Entry::Opening(Die::Three, Die::One))?;
//! assert!(rt; telling.go_on(&rt, &record) == Ok(true));
//! // A party that begins again may hold less for a while: nothing is printed twice.
//! let less = Record::new(alloc, 0, 1, Rules::One)?;
//! assert!(rt; telling.go_on(&rt, &less) == Ok(false));
//! assert!(rt; telling.go_on(&rt, &record) == Ok(false));
//! // A folder that can't be used is reported on standard error, and the command ends so.
//! let refused = check_folder(&rt, "no such folder", " is no folder");
//! assert!(rt; refused == Err(Ending::WrongArguments));
//! ```
#![tactic(auto)]

mod below;
mod beside;
mod breaking;
mod colours;
mod entries;
mod folder_keys;
mod handed_files;
mod messages;
mod out_folders;
mod pairings;
mod paths;
mod published;
mod screens;
mod startup;
mod tellings;

pub use below::{Finding, MatchBelow, NO_MATCH, matches_below};
pub use beside::{MatchBeside, matches_beside};
pub use breaking::broken;
pub use colours::{with_bold_offers, with_coloured_checkers};
pub use entries::{FolderEntry, entries_in};
pub use folder_keys::{has_key_secret, key_files_in, key_files_of};
pub use handed_files::{key_file_of, match_in, match_of, seat_key_file_of, table_of};
pub use messages::progress::Progress;
pub use messages::says::{say, say_failures, say_number, say_of, say_why};
pub use messages::{
    allocated, engine_failed, failed, failed_at, failed_barely, failed_for, failed_or, failed_with,
    no_memory, unread, unwritten, written, wrong, wrong_at, wrong_for,
};
pub use out_folders::{check_out_file, check_out_folder};
pub use pairings::{Called, Pairing, page_words, title_of};
pub use paths::{folder_of, not_memory, path_in, slot_path, without_slashes};
pub use published::{Outputs, Published, is_one_file};
pub use screens::{Terminal, columns, output_terminal};
pub use startup::{
    check_folder, check_folder_name, check_writable, lock_of, own_folder, tell_if_open, waited,
    waiting_for,
};
pub use tellings::{Telling, print_board, print_text, put_entries, write_out};
