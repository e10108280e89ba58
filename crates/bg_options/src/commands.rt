//! The options and help of each command, each in a file of its own.

pub(crate) mod act;
pub(crate) mod auto;
pub(crate) mod board;
pub(crate) mod check;
pub(crate) mod dice;
pub(crate) mod export;
pub(crate) mod id;
pub(crate) mod import;
pub(crate) mod judge;
pub(crate) mod keys;
pub(crate) mod list;
pub(crate) mod manage;
pub(crate) mod new_match;
pub(crate) mod page;
pub(crate) mod picture;
pub(crate) mod play;
pub(crate) mod play_loop;
pub(crate) mod recover;
pub(crate) mod referee;
pub(crate) mod script;
pub(crate) mod serve;
pub(crate) mod show;
pub(crate) mod sim;
pub(crate) mod watch;
