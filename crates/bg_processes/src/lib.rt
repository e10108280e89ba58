//! The parties of a match on one machine: their sockets and files as devices, and the process of
//! one party. For hosts that carry a match over the loopback address and keep it in a folder.
//!
//! ```
//! // What all processes of a match agree on is a line; this is one of a match to 3 points.
//! let file = MatchFile::parse("match 7 length 3 rules 1 port 4000\n").expect(&rt, "a good text");
//! assert!(rt; file.terms.length == 3);
//! // The referee's process, over its own socket and a folder, with the keys of all parties and a
//! // secret that its dice go by. Why a call of the socket or of the files failed is noted.
//! let failures = Failures::new();
//! let keys = Keyring::of_referee(&MasterSecret::new(&[8; 32]), file.id);
//! let link = PartySocket::bind(&rt, &rt, file.port, REFEREE, keys, &failures)?;
//! let keeper = FileKeeper::new(&rt, folder, REFEREE, &failures)?;
//! let begun = RefereeProcess::begin(alloc, file.id, file.terms, [7; 32], link, keeper)?;
//! let (mut referee, outcome) = begun;
//! // A round opens the game, and saves that. Between two of them a process waits (`Waiting`,
//! // `Ticking`). Another process may go on from what was saved.
//! let going = referee.round(true, &mut NoObserver);
//! drop(referee);
//! assert!(rt; outcome == Outcome::Restarted && going == Ok(Going::On));
//! assert!(rt; !read_saved(&rt, format!(in alloc; "{folder}/party-0.1")?.as_str())?.is_empty());
//! assert!(rt; failures.drain().next().is_none());
//! ```
#![tactic(auto)]

mod answers;
mod files;
mod loops;
mod processes;
mod sockets;

pub use bg_system::{
    DeviceFailure, DrainedFailures, FailedCall, FailureText, Failures, FolderLock, HIGHEST_PORT,
    KeyFile, Keyring, LOWEST_PORT, MatchFile, NamedMatch, Names, Presence, Printable,
    PrintableLines, Ready, SlotName, Ticking, Waiting, make_key_secret, make_secret, publish,
    read_key_secret, read_saved, read_secret,
};
pub use files::file_keepers::FileKeeper;
pub use loops::{play_loop, run_loop};
pub use processes::laws::{processes_are_instances, silence_is_counted};
pub use processes::referee::RefereeProcess;
pub use processes::rounds::{Going, MOST_PARTIES};
pub use processes::seat::SeatProcess;
pub use processes::watcher::WatcherProcess;
pub use sockets::attendance::{Attendance, Change};
pub use sockets::liveness::{Liveness, LivenessChange};
pub use sockets::opponents::{Opponent, OpponentChange};
pub use sockets::party_sockets::PartySocket;
pub use sockets::udp_links::UdpLink;
