//! Tests that cross crates: whole worlds under random events and failing devices, bytes that nobody
//! sent, and the hosts and devices that the documents show.

mod actions;
mod altered_bytes;
mod host_tests;
mod hosts;
mod lone;
mod match_files;
mod random_runs;
mod slot_files;
mod stand_ins;
mod uses;
