//! Bytes that are written down, and bytes that are refused.

mod bytes;
mod faults;
mod packets;
mod refused_packets;
mod refused_saves;
mod restoring;
mod rules;
mod saves;
