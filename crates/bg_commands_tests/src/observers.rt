//! What one who looks on is told of a match over sockets and files.
use crate::checks::{check, check_number};
use crate::folders::{lasting_folder, path_in};
use crate::lasting::lasting;
use crate::loops::play;
use bg_auto::{LoopFault, Observer, party_at};
use bg_board::Player;
use bg_match::{Action, Number};
use bg_processes::Failures;
use bg_world::{Event, Outcome, RestoreCause};
use std::fs;
use std::process::Abort;

/// Keeps the last event that it is told of, by its party and whether the slots were damaged, and
/// counts rounds.
#[derive(Drop)]
struct Heard {
    last: Option<(u8, bool)>,
    rounds: u32,
    /// Whether the rounds were told one after the other, from 1.
    in_order: bool,
}

impl Observer for Heard {
    fn happened(&mut self, event: &Event, outcome: &Outcome, _held: Option<Number>) {
        let damaged = matches!(outcome, Outcome::RestoreFault(RestoreCause::Damaged));
        self.last = Some((party_at(event), damaged));
    }

    fn played(&mut self, done: u32) {
        self.rounds = self.rounds.saturating_add(1);
        self.in_order = self.in_order && done == self.rounds;
    }
}

/// Three rounds over a folder come to this, and are told one after the other, as many as there are,
/// with this event last. The folder is removed then.
fn check_heard(
    rt: &(impl AllocGlobal + Abort),
    host: &HostRuntime,
    folder: &str,
    wanted: Result<(), LoopFault>,
    rounds: u32,
    last: (u8, bool),
) {
    let failures: &Failures = lasting(rt, Failures::new());
    let mut heard = Heard {
        last: None,
        rounds: 0,
        in_order: true,
    };
    let played = play(rt, host, folder, 3, failures, &mut heard);
    check(rt, played == wanted, "what three rounds come to");
    let are_told = heard.rounds == rounds && heard.in_order;
    check_number(rt, are_told, "rounds that are told:", heard.rounds);
    check(rt, heard.last == Some(last), "the event that is told last");
    fs::remove_dir_all(host, folder).expect(rt, "the folder is removed");
}

#[test]
fn rounds_are_told_from_the_first(rt: HostRuntime) {
    check_rounds(&rt, &rt);
}

/// Three rounds are told.
fn check_rounds(rt: &(impl AllocGlobal + Abort), host: &HostRuntime) {
    let folder = lasting_folder(rt, host, "told-rounds");
    // A round ends with the tick of the watcher.
    check_heard(rt, host, folder, Ok(()), 3, (3, false));
}

/// A file has bytes that are no saved text.
fn damage(rt: &impl Abort, host: &HostRuntime, path: &str) {
    fs::write(host, path, b"rubbish").expect(rt, "a file is written");
}

#[test]
fn the_event_that_ends_a_match_is_told(rt: HostRuntime) {
    check_end(&rt, &rt);
}

/// A match ends at damaged files.
fn check_end(rt: &(impl AllocGlobal + Abort), host: &HostRuntime) {
    let folder = lasting_folder(rt, host, "told-end");
    damage(rt, host, path_in(rt, folder, "party-0.0"));
    damage(rt, host, path_in(rt, folder, "party-0.1"));
    let damaged = LoopFault::Stopped(Outcome::RestoreFault(RestoreCause::Damaged));
    check_heard(rt, host, folder, Err(damaged), 0, (0, true));
}

#[test]
fn parties_of_events(rt: HostRuntime) {
    let word = 5;
    let action = Action::Roll;
    let seat = Player::X;
    for (event, party) in [
        (Event::Due { word }, 0),
        (
            Event::Take {
                party: 4,
                pick: 0,
                word,
            },
            4,
        ),
        (Event::Choose { seat, action }, 1),
        (
            Event::Choose {
                seat: Player::O,
                action: Action::Double,
            },
            2,
        ),
        (Event::Save { party: 2 }, 2),
        (Event::Tick { party: 255 }, 255),
        (Event::Restart { party: 1 }, 1),
    ] {
        let is_so = party_at(&event) == party;
        check_number(&rt, is_so, "an event of party", u32::from(party));
    }
}
