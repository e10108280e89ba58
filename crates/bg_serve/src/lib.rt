//! A server of matches for browsers: one thread, sockets on the loopback address, and a folder for
//! each match. The crate `bg_site` decides what requests and messages mean. The program calls the
//! commands that serve matches, and that manage those of a server:
//!
//! ```
//! Request::Serve(options) => serve::run(rt, options),
//! Request::Manage(options) => manage::run(rt, options),
//! ```
#![tactic(auto)]

mod arrivals;
mod catching_up;
mod clients;
mod cluster_words;
mod clusters;
mod crowds;
mod database_words;
mod databases;
mod durable;
mod exchanges;
mod fence;
mod folders;
mod joining;
mod limits;
mod lingering;
mod live_clients;
mod making;
pub mod manage;
mod news;
mod notes;
mod pauses;
mod placing;
mod putting;
mod quotas;
mod save_counts;
mod saved_records;
mod seat_files;
pub mod serve;
mod served_files;
mod served_keepers;
mod servers;
mod settling;
mod sharing;
mod sockets;
mod tables;
mod turns;
mod unserved;
mod updates;
mod visitors;

pub use limits::{
    HEAD_SECONDS, HELLO_SECONDS, LINGER_SECONDS, MOST_BODY, MOST_CLIENTS, MOST_HEAD, MOST_MADE,
    PING_SECONDS, SILENT_SECONDS, STALL_SECONDS,
};
