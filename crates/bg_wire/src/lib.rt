//! The encodings of the relay: packets and saved texts, read and written exactly. For callers that
//! carry packets or keep saved files.
//!
//! ```
//! let packet = Packet::Want {
//!     id: 1,
//!     rules: Rules::One,
//!     sender: 3,
//!     held: 0,
//! };
//! let bytes = encode(&packet);
//! assert!(rt; bytes.len() == 18 && decode(bytes.as_slice()) == Ok(packet));
//! ```
#![tactic(auto)]

mod entries;
mod fault_words;
mod faults;
mod packets;
mod parties;
mod saves;

pub use faults::{LoadFault, RestoreRefusal, SaveRefusal, WireFault};
pub use packets::codec::{decode, encode, packet_texts_are_prefix_free};
pub use packets::{
    Datagram, EntryList, LONGEST_PACKET, MOST_DATAGRAM_BYTES, MOST_ENTRIES_IN_PACKET, Packet,
    PacketBytes,
};
pub use parties::{FIRST_WATCHER, LAST_WATCHER, REFEREE, SEAT_OF_O, SEAT_OF_X, party_of};
pub use saves::restoring::restore;
pub use saves::saving::{load, next_save, save_text, saved_texts_are_prefix_free};
pub use saves::slot_laws::{
    laws_of_constants, laws_of_faults, laws_of_loading, laws_of_restoring, laws_of_saving,
    laws_of_texts, laws_of_written_texts,
};
pub use saves::slots::Slot;
pub use saves::{FIRST_SAVE, LAST_SAVE, LONGEST_SAVED_TEXT, Saved};
