//! Lines of events of each kind, and lines of each fault.
use crate::checks::check;
use bg_board::{Player, Step};
use bg_match::{Action, Level};
use bg_text::TextFault;
use bg_turns::Turn;
use bg_world::{Event, parse_event};
use std::process::Abort;

/// What a line is read as.
fn parsed(line: &str) -> Result<Event, TextFault> {
    parse_event(line.as_bytes())
}

/// The line is read as this event.
fn check_event(rt: &impl Abort, line: &str, event: &Event) {
    check(rt, line, parsed(line).as_ref() == Ok(event));
}

/// The line is read as this event of a party.
fn check_take(rt: &impl Abort, line: &str, party: u8, pick: u32, word: u32) {
    check_event(rt, line, &Event::Take { party, pick, word });
}

#[test]
fn lines_of_numbers(rt: HostRuntime) {
    check_event(&rt, "due 12", &Event::Due { word: 12 });
    check_event(&rt, "due 0", &Event::Due { word: 0 });
    check_event(&rt, "due 4294967295", &Event::Due { word: u32::MAX });
    check_take(&rt, "take 3 1 20", 3, 1, 20);
    check_take(
        &rt,
        "take 255 4294967295 4294967295",
        255,
        u32::MAX,
        u32::MAX,
    );
    check_event(&rt, "save 0", &Event::Save { party: 0 });
    check_event(&rt, "tick 255", &Event::Tick { party: 255 });
    check_event(&rt, "restart 10", &Event::Restart { party: 10 });
}

/// The line is read as this choice of a player.
fn check_choice(rt: &impl Abort, line: &str, seat: Player, action: Action) {
    check_event(rt, line, &Event::Choose { seat, action });
}

/// Adds a step to a turn; whether it is one, and has room.
fn push_step(turn: &mut Turn, from: u8, to: u8) -> bool {
    match Step::new(from, to) {
        Some(step) if turn.steps().len() < 4 => {
            turn.push(step);
            true
        }
        _ => false,
    }
}

#[test]
fn lines_of_choices(rt: HostRuntime) {
    let resignation = Action::Resign(Level::Gammon);
    let mut turn = Turn::new();
    check_choice(&rt, "choose O roll", Player::O, Action::Roll);
    check_choice(&rt, "choose X double", Player::X, Action::Double);
    check_choice(&rt, "choose O resign gammon", Player::O, resignation);
    check_choice(&rt, "choose X move", Player::X, Action::Move(turn.copy()));
    check(
        &rt,
        "a turn",
        push_step(&mut turn, 8, 5) && push_step(&mut turn, 6, 5),
    );
    check_choice(&rt, "choose X move 8-5 6-5", Player::X, Action::Move(turn));
}

/// Lines of another shape than that of any event; the second one is empty.
const NO_LINES: &str = "\
due

due\x20
due x
due 1\x20
due  1
 due 1
due 1\r
due 1\0
due +1
due -1
due 12345678901
due 00000000001
Due 1
take 0 0
take 256 0
take 256 01 x
take 0 0 0 0
save
tick X
restart 1 2
reset 1
choose roll
choose x roll
choose X
choose X open 3 1
choose X roll 3 1";

const BAD_NUMBERS: &str = "\
due 4294967296
due 9999999999
due 00
due 0000000001
take 256 0 0
take 0 01 0
restart 256
choose X move 8-9 6-5 4-3 3-2 2-1";

/// All of these many lines are refused for this.
fn check_refused(rt: &impl Abort, lines: &str, count: u32, fault: TextFault) {
    let mut refused = 0u32;
    for line in lines.split('\n') {
        check(rt, line, parsed(line) == Err(fault));
        refused = refused.saturating_add(1);
    }
    assert!(rt; refused == count, "{refused} lines");
}

#[test]
fn lines_of_no_event(rt: HostRuntime) {
    check_refused(&rt, NO_LINES, 27, TextFault::NotALine);
    check_refused(&rt, BAD_NUMBERS, 8, TextFault::BadNumber);
    let five_steps = "choose X move 8-7 6-5 4-3 3-2 2-1";
    check_refused(&rt, five_steps, 1, TextFault::TooManySteps);
}
