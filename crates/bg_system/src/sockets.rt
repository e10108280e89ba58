//! UDP sockets.

pub(crate) mod all_parties;
pub(crate) mod hearing_times;
pub(crate) mod keyrings;
pub(crate) mod notices;
pub(crate) mod own_sockets;
pub(crate) mod party_ends;
pub(crate) mod senders;
