//! The system as the parties of a match use it: sockets on the loopback address, files in a folder,
//! ways to wait, and notes of failed calls. For programs that carry a match between processes of
//! one machine.
//!
//! ```
//! // A socket that hears itself alone, as a party's in a match of one process.
//! let socket = OwnSocket::open(&rt)?;
//! socket.send(b"datagram")?;
//! let heard = socket.receive()?.expect(&rt, "what it sent");
//! assert!(rt; heard.as_slice() == b"datagram".as_slice());
//! // A file that others read at any moment: whole as it was, or as it is now.
//! let path = format!(in alloc; "{folder}/board")?;
//! publish(&rt, path.as_str(), b"board")?;
//! // Why a call failed is noted, and of failures that follow each other the first alone.
//! let failures = Failures::new();
//! let mut reads = FirstFailures::new(&failures);
//! for _ in 0..2 {
//!     let answer = reads.after(FailedCall::Sync, read_saved(&rt, folder));
//!     assert!(rt; answer.is_err());
//! }
//! assert!(rt; failures.drain().count() == 1);
//! ```
#![tactic(auto)]

mod failures;
mod files;
mod printable;
mod sockets;
mod ticking;
mod waiting;

pub use failures::device_failures::{DeviceFailure, FailedCall, FailureText};
pub use failures::first_failures::FirstFailures;
pub use failures::{DrainedFailures, Failures};
pub use files::folder_locks::FolderLock;
pub use files::key_files::{KeyFile, KeyFiles, name_of_key_file};
pub use files::match_files::{HIGHEST_PORT, LOWEST_PORT, MatchFile, number_of_rules};
pub use files::name_lines::Names;
pub use files::named_matches::NamedMatch;
pub use files::names::{MOST_NAME_BYTES, Name, NameFault};
pub use files::party_files::PartyFiles;
pub use files::read_saved;
pub use files::secrets::{make_key_secret, make_secret, read_key_secret, read_secret, secret_of};
pub use files::slot_names::SlotName;
pub use files::whole_files::publish;
pub use printable::{Printable, PrintableLines};
pub use sockets::all_parties::OwnSockets;
pub use sockets::keyrings::Keyring;
pub use sockets::notices::Presence;
pub use sockets::own_sockets::{OwnSocket, Received};
pub use sockets::party_ends::PartyEnd;
pub use sockets::senders::{SIGN_OF_LIFE, heard, told};
pub use ticking::Ticking;
pub use waiting::{Ready, Waiting};
