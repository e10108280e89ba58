//! Match files of other programs: the `.mat` files that most backgammon programs write and read.
//! This crate is for whoever imports matches from them or exports matches to them.
//!
//! ```
//! let file = b" 1 point match\n\n Game 1\n A : 0   B : 0\n 1) 31: 8/5 6/5\n";
//! let imported = import_mat(alloc, 1, Rules::One, file)?;
//! assert!(rt; imported.record.len() == 2);
//! assert!(rt; imported.lines.as_slice() == [5, 5].as_slice());
//! let text = export_mat(alloc, &imported.record)?;
//! assert!(rt; text.starts_with(b" 1 point match\n\n Game 1\n X : 0 "));
//! ```
#![tactic(auto)]

mod awaiting;
mod exporting;
mod fault_words;
mod faults;
mod importing;
mod marks;
mod movements;
mod playing;
mod rows;
mod tellings;
mod writing;

pub use exporting::export_mat;
pub use faults::{ImportFault, MatFault};
pub use importing::{Imported, import_mat};
pub use movements::alike::{first_moved, first_otherwise};
pub use movements::legs::{Leg, LegFault, Legs, add_word};
pub use movements::turns::{find_turn, turn_fault};
pub use movements::{as_turn, is_hit, same_movement};
pub use rows::words::split_word;
pub use tellings::reading_once::{files_read_once, lines_read_once, row_faults_differ};
pub use tellings::telling_apart::is_match_file;
