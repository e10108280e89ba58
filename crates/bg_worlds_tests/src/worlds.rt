//! Worlds and the nodes of their parties, event by event and in lines; the roles of parties, and
//! copies of events.

mod beginnings;
mod device_growths;
mod event_lines;
mod faults;
mod fenced_keepers;
mod fences;
mod final_texts;
mod growths;
mod lines;
mod memory_keepers;
mod memory_nets;
pub(crate) mod memory_worlds;
mod nodes;
mod outcomes;
mod own_links;
mod parties;
mod scripts;
mod setups;
mod simulations;
mod two_steps;
mod worked_matches;

use crate::checks::{check, check_party};
use bg_board::Player;
use bg_world::{Event, Role};
use lines::event;

#[test]
fn parts_of_parties(rt: HostRuntime) {
    for (party, role) in [
        (0, Role::Referee),
        (1, Role::Seat(Player::X)),
        (2, Role::Seat(Player::O)),
        (3, Role::Watcher(0)),
        (255, Role::Watcher(252)),
    ] {
        check_party(&rt, party, Role::of(party) == role);
    }
}

/// Whether the copy of an event is that event.
fn copies(event: &Event) -> bool {
    event.copy() == *event
}

#[test]
fn copies_of_events(rt: HostRuntime) {
    for line in [
        "due 12",
        "take 3 1 2",
        "choose O double",
        "save 1",
        "tick 2",
        "restart 0",
    ] {
        check(&rt, line, copies(&event(&rt, line)));
    }
}
