//! Automatic players and their matches. It has the action of a player after a record, the random
//! words of a match, and the schedule of a match in memory. It also plays a match in rounds over
//! any link and any keepers. For hosts that want a player, or a match to try something on.
//!
//! ```
//! // Match 7, of length 3 and with one watcher, after 2,000 events in memory.
//! let text = sim_text(alloc, 7, 3, Rules::One, 1, 2000)?;
//! assert!(rt; text.starts_with(b"length 3\nopen 6 3\nX move "));
//! // In a match of one's own: the dice of its first entry, and what the players do after it.
//! let mut record = Record::new(alloc, 7, 3, Rules::One)?;
//! let dice = dice_of(dice_word(7, 1, 0)).expect(&rt, "all words but the last four have dice");
//! record.push(Entry::Opening(dice.first, dice.second))?;
//! let action = auto_action(alloc, &record, Player::X)?;
//! assert!(rt; matches!(action, Some(Action::Move(_))));
//! assert!(rt; auto_action(alloc, &record, Player::O)?.is_none());
//! ```
#![tactic(auto)]

mod auto_actions;
mod dice_attempts;
mod kept_words;
mod loop_faults;
mod observers;
mod round_schedule;
mod rounds;
mod schedule;
mod simulating;
mod simulation;
mod words;

pub use auto_actions::auto_action;
pub use dice_attempts::DiceAttempts;
pub use loop_faults::LoopFault;
pub use observers::{NoObserver, Observer, party_at};
pub use rounds::{PARTIES, play_rounds, run_rounds};
pub use schedule::{MemoryWorld, event_of};
pub use simulating::{play_sim, sim_text};
pub use simulation::Simulation;
pub use words::{dice_word, event_words};
