//! Dice that can be checked afterwards. The dice of each entry are made from a secret. Its SHA-256
//! is published before the first roll, and the secret itself when the match is over
//! (docs/FORMATS.md, "Dice that can be checked"). The crate is for programs that run matches, and
//! for those that check the rolls of such programs. It doesn't claim that the dice are fair.
//!
//! ```
//! // The first entry opens a game, so the equal dice of an attempt before would have been passed
//! // over.
//! let drawn = drawn_behind(&[3; 32], 0, true).expect(&rt, "one of 65,536 attempts");
//! assert!(rt; drawn.attempt == 0 && !drawn.dice.is_double());
//! let entry = Entry::Opening(drawn.dice.first, drawn.dice.second);
//! assert!(rt; ruling_of(&[3; 32], 0, &entry) == Ruling::Own(0));
//! // What is told of the dice before a match and after it.
//! let before = told_text(alloc, Some(&digest_of(&[3; 32])), None)?;
//! assert!(rt; before.starts_with(b"sha256 ") && before.len() == 72);
//! ```
#![tactic(auto)]

mod checking;
mod files;
mod rolls;
mod rulings;
mod secrets;
mod texts;

pub use checking::{Checked, checked_text};
pub use files::{read_digest, write_digest};
pub use rolls::{Drawn, drawn_behind};
pub use rulings::{Ruling, ruling_of};
pub use secrets::{Digest, Secret, SecretFault, digest_of, secret_in};
pub use texts::told_text;
