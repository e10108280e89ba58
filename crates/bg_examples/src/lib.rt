//! Hosts and devices of one's own, as docs/USING.md shows them. They are a referee's host over a
//! socket and two files, the link and the keeper of a world, and processes that run one party each.
#![tactic(auto)]

pub mod lone;
pub mod own_devices;
pub mod post_link;
pub mod referee_host;
pub mod slot_files;
