//! The processes of single parties.

pub(crate) mod laws;
pub(crate) mod referee;
pub(crate) mod rounds;
pub(crate) mod seat;
pub(crate) mod watcher;
