//! A turn as a person types it, read in the position in which it is to be played: `8/5 6/5`,
//! `24-14`, `13/8(2)`, `b/20*`, or `move` alone. For programs that let people play.
//!
//! ```
//! let dice = Dice {
//!     first: Die::Six,
//!     second: Die::Four,
//! };
//! let turn = read_turn(alloc, b"24-14", &Board::start(), Player::X, dice)?;
//! let steps = [Step::down(24, 4), Step::down(20, 6)];
//! assert!(rt; turn.steps() == steps.as_slice());
//! let none = read_turn(alloc, b"24/22", &Board::start(), Player::X, dice);
//! assert!(rt; none.err() == Some(TypedFault::NoSuchTurn));
//! ```
#![tactic(auto)]

mod faults;
mod laws;
mod marks;
mod meanings;
mod reading;
mod spelling;
mod words;

pub use faults::TypedFault;
pub use laws::{
    printed_turns_mean_themselves, typed_faults_differ, typed_turns_are_legal, typed_turns_mean_one,
};
pub use marks::fits_marks;
pub use reading::{read_turn, typed_steps};
