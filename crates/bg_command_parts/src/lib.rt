//! What the commands that run one party share: its socket, the observer that reports failed
//! devices, its log, and the messages if the party can't continue.
//!
//! ```
//! // A party that can't save any more is down: a message says why, and what to do.
//! let saves = OwnSaves {
//!     folder,
//!     party: REFEREE,
//!     asked: Asked::Options(7, 3, Rules::One),
//! };
//! assert!(rt; stopped(&rt, saves, &Outcome::SavesSpent) == Ending::Failed);
//! // Where nothing has failed, a reporter has nothing to say.
//! let failures = Failures::new();
//! FailureReporter::new(&rt, &failures, folder).say_failures();
//! ```
#![tactic(auto)]

mod failure_reporters;
mod logbooks;
mod operators;
mod others_saves;
mod own_saves;
mod results;
mod silence_reporters;
mod silences;
mod sockets;

pub use failure_reporters::{FailureReporter, is_out_of_step};
pub use logbooks::Logbook;
pub use operators::Operator;
pub use others_saves::check_seat_folder;
pub use own_saves::{Asked, OwnSaves, begun, stopped};
pub use results::{GameResult, MatchResult, Results};
pub use silence_reporters::{Audience, SilenceReporter};
pub use silences::Silence;
pub use sockets::{no_socket, socket_of};
