//! All parties of a match together, over a link and keepers: nodes, worlds, the protocol that every
//! event is a step of, and what holds after any run. `bg_world` offers all of this too, with the
//! texts of events and outcomes, and scripts.
//!
//! ```
//! let setup = Setup {
//!     id: 1,
//!     length: 5,
//!     rules: Rules::One,
//!     watchers: 0,
//! };
//! let no_failures = Plan {
//!     tears: Vec::new(alloc),
//!     sends: Vec::new(alloc),
//!     reads: Vec::new(alloc),
//! };
//! let events = [Event::Due { word: 12 }, Event::Save { party: 0 }];
//! let (mut world, report) = simulate(alloc, setup, &no_failures, &events)?;
//! assert!(rt; report.done == 2 && report.faults == 0);
//! assert!(rt; world.step(Event::Tick { party: 1 }) == Outcome::Sent(1));
//! ```
#![tactic(auto)]

mod devices;
mod events;
mod fault_words;
mod nodes;
mod roles;
mod worlds;

pub use devices::memory_keeper::MemoryKeeper;
pub use devices::memory_net::MemoryNet;
pub use devices::notes::{count_failed, note_taken};
pub use devices::plans::{FailRead, FailSend, Plan, Tear};
pub use devices::sent_histories::SentHistory;
pub use devices::{DeviceFault, Keeper, Link, Taken};
pub use events::{Event, Outcome, RestoreCause};
pub(crate) use nodes::Watchers;
pub use nodes::{RefereeNode, Save, SeatNode, WatcherNode};
pub use roles::Role;
pub use worlds::World;
pub use worlds::laws::{
    claims_are_kept, memory_is_seen_as_any_device, new_worlds_are_at_the_start, nothing_is_refused,
    outcomes_are_fixed, parties_agree, processes_agree, saved_entries_alone_are_shown,
    saves_survive, slots_are_given_back, two_steps_are_a_save,
};
pub use worlds::runs::RunReport;
pub use worlds::setups::{Keepers, MOST_WATCHERS, Setup, WorldFault};
pub use worlds::simulations::simulate;
