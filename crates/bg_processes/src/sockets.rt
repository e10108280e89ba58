//! The UDP sockets of parties, as links.

pub(crate) mod attendance;
pub(crate) mod liveness;
pub(crate) mod opponents;
pub(crate) mod party_sockets;
pub(crate) mod udp_links;
