//! Seals the datagrams of a match, under a key for each party (docs/FORMATS.md,
//! "Sealed datagrams").
//!
//! ```
//! // The referee has the secret of its matches, and each party a key of it.
//! let secret = MasterSecret::new(&[7; KEY_BYTES]);
//! let key = secret.key_of(4711, 1);
//! let datagram = key.seal(Direction::ToReferee, 1, b"packet");
//! assert!(rt; datagram.len() == 22);
//! let opened = key.open(Direction::ToReferee, 1, datagram.as_slice());
//! assert!(rt; opened.is_some_and(|packet| packet == b"packet".as_slice()));
//! // Under the key of another party it is nothing.
//! let other = secret.key_of(4711, 2);
//! let opened = other.open(Direction::ToReferee, 1, datagram.as_slice());
//! assert!(rt; opened.is_none());
//! ```
#![tactic(auto)]

mod directions;
mod keyed_hashing;
mod keys;
mod laws;
mod seals;
mod secrets;
mod tags;

pub use directions::Direction;
pub use keyed_hashing::{HMAC_BYTES, HmacSha256};
pub use keys::{KEY_BYTES, Key};
pub use laws::{laws_of_constants, laws_of_seals};
pub use seals::{MOST_PACKET_BYTES, MOST_SEALED_BYTES, SealedDatagram};
pub use secrets::MasterSecret;
pub use tags::TAG_BYTES;
