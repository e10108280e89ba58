//! Handles the requests and messages to a server of matches, and makes the bytes that each peer
//! gets. It opens no socket and no file: the host passes bytes in, and keeps the matches. For
//! `bg_serve`, and for hosts of other kinds.
//!
//! ```
//! let mut site = Site::new(alloc, store);
//! let is_open = site.open(found);
//! assert!(rt; is_open && site.len() == 1);
//! // A connection of http_server calls the site for each request, and a Channel for each message
//! // of a socket.
//! let mut connection = Connection::new(alloc, keys, Config::default());
//! connection.advance(&mut site);
//! ```
#![tactic(auto)]

mod acted;
mod addresses;
mod answering;
mod archives;
mod callers;
mod channels;
mod counts;
mod dice;
mod files;
mod frames;
mod greetings;
mod lists;
mod logs;
mod making;
mod messages;
mod operating;
mod orders;
mod peers;
mod places;
mod presences;
mod quiet;
mod repeats;
mod requests;
mod sending;
mod sites;
mod sockets;
mod stores;
mod summaries;
mod ticks;

pub use addresses::{MOST_CONNECTIONS_OF_ADDRESS, MOST_MADE_BY_ADDRESS, MOST_OF_ADDRESS};
pub use bg_requests::{Digest, MOST_MESSAGE, Seats, digest_of};
pub use callers::Caller;
pub use channels::{Channel, MOST_WAITING, Step};
pub use messages::Reply;
pub use operating::Changed;
pub use peers::Peer;
pub use sites::{MOST_MATCHES, Site};
pub use stores::{Found, Made, MatchName, Saves, Store};
