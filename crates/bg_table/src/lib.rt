//! The texts for a person who plays at a terminal, for programs that let people play. They show the
//! board from the player's own side, what the player may do now and which turns are legal. They say
//! why a choice is refused, and how a game ended.
//!
//! ```
//! let mut record = Record::new(alloc, 1, 3, Rules::One)?;
//! record.push(Entry::Opening(Die::One, Die::Three))?;
//! let view = seat_view_text(alloc, &record, Player::O, Drawing::fitting(80))?;
//! assert!(rt; view.starts_with(b"length 3, game 1\nscore: O (you) 0 of 3, X 0 of 3\n"));
//! assert!(rt; pip_count(&Board::start(), Player::O) == 167);
//! let offers = offered(&record.standing(), Player::O);
//! assert!(rt; offers.turn && offers.resign && !offers.roll);
//! let standing = record.standing();
//! let (action, fault) = (Action::Roll, EntryFault::WrongPhase);
//! let refusal = refusal_text(alloc, &standing, Player::O, &action, fault)?;
//! assert!(rt; refusal.starts_with(b"the dice are rolled: move them\nyour turn, O: move .."));
//! ```
#![tactic(auto)]

mod board_lines;
mod dice_left;
mod distinct_turns;
mod drawings;
mod drawn_boards;
mod earlier_standings;
mod headings;
mod last_entries;
mod laws;
mod listed_boards;
mod missing_checkers;
mod offers;
mod pips;
mod prompts;
mod refusals;
mod results;
mod seen_boards;
mod seen_players;
mod step_refusals;
mod step_texts;
mod turn_lists;
mod turn_refusals;
mod views;

pub use drawings::Drawing;
pub use laws::laws_of_texts;
pub use offers::{Offers, offered};
pub use pips::pip_count;
pub use prompts::prompt_text;
pub use refusals::{refusal_text, waiting_text};
pub use results::result_text;
pub use turn_lists::legal_turns_text;
pub use turn_refusals::turn_refusal_text;
pub use views::seat_view_text;
