//! The program's reports on files that were judged and on saved files, and the endings of commands
//! with their exit status. For programs that show the same elsewhere.
//!
//! ```
//! let (text, verdict) = check_text(alloc, "a.txt", b"length 1\nopen 3 1\n", None)?;
//! assert!(rt; text.as_slice() == b"a.txt: ok 1, not over\n".as_slice());
//! assert!(rt; Ending::Judged(verdict).status() == DONE);
//! let (text, loads) = show_text(alloc, b"", b"BGS0")?;
//! assert!(rt; text.as_slice() == b"file 0: short\nfile 1: bad magic\n".as_slice());
//! assert!(rt; Ending::Shown { loads }.status() == REFUSED);
//! ```
#![tactic(auto)]

mod answers;
mod checking;
mod endings;
mod escapes;
mod folders;
mod rows;
mod showing;

pub use answers::ending_of;
pub use checking::lines::{MOST_SHOWN, refused_line};
pub use checking::tallies::Tally;
pub use checking::{
    check_text, import_faults_are_said, is_read_as_match_file, said_of_import_fault,
    said_of_transcript_fault, transcript_faults_are_said,
};
pub use endings::{DONE, Ending, FAILED, Found, REFUSED};
pub use escapes::harmless;
pub use folders::comparing::{Compared, compare};
pub use folders::restored::restored_transcript;
pub use folders::{SlotBytes, folder_text, party_text};
pub use rows::check_row;
pub use rows::fields::RowForm;
pub use showing::show_text;
