//! The parties of a match, each by itself: its core, while it is up, and the save that is under
//! way.
//!
//! A process that runs one party makes the calls of its node, and a [`World`](crate::World) is made
//! of the same nodes (docs/PROTOCOL.md, "Parties in processes of their own"). Each call is handed
//! the link or the keeper that it is to use. The fields of a node are private: a caller that holds
//! one can only make its events.

mod followers;
pub(crate) mod keeper_calls;
pub(crate) mod link_calls;
mod referee;
pub(crate) mod restarts;
pub(crate) mod saves;
mod seat;
pub(crate) mod takes;
pub(crate) mod ticks;
mod watcher;
mod watchers;

pub use referee::RefereeNode;
pub use saves::Save;
pub use seat::SeatNode;
pub use watcher::WatcherNode;
pub(crate) use watchers::Watchers;
