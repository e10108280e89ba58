//! All parties of a match together, over a link and keepers. It has the outcome of each event, the
//! protocol that every event is a step of, and what holds after any run. For callers that try
//! schedules, or run a match over devices of their own.
//!
//! ```
//! let setup = Setup {
//!     id: 1,
//!     length: 5,
//!     rules: Rules::One,
//!     watchers: 0,
//! };
//! let no_failures = Plan {
//!     tears: Vec::new(alloc),
//!     sends: Vec::new(alloc),
//!     reads: Vec::new(alloc),
//! };
//! let events = [Event::Due { word: 12 }, Event::Save { party: 0 }];
//! let tick = parse_event(b"tick 1")?;
//! let (mut world, report) = simulate(alloc, setup, &no_failures, &events)?;
//! let outcome = world.step(tick);
//! drop(world);
//! assert!(rt; report.done == 2 && report.faults == 0);
//! assert!(rt; outcome == Outcome::Sent(1) && outcome_text(&outcome).as_str() == "sent 1");
//! ```
#![tactic(auto)]

mod fault_words;
mod texts;

pub use bg_protocol::{
    DeviceFault, Event, FailRead, FailSend, Keeper, Keepers, Link, MOST_WATCHERS, MemoryKeeper,
    MemoryNet, Outcome, Plan, RefereeNode, RestoreCause, Role, RunReport, Save, SeatNode, Setup,
    Taken, Tear, WatcherNode, World, WorldFault, claims_are_kept, count_failed,
    memory_is_seen_as_any_device, new_worlds_are_at_the_start, note_taken, nothing_is_refused,
    outcomes_are_fixed, parties_agree, processes_agree, saved_entries_alone_are_shown,
    saves_survive, simulate, slots_are_given_back, two_steps_are_a_save,
};
pub use texts::event_lines::{event_texts_differ, parse_event};
pub use texts::final_texts::final_text;
pub use texts::outcome_texts::{outcome_text, outcome_texts_differ};
pub use texts::scripts::{ScriptFault, script};
