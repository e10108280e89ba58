//! Actions of all kinds, few of which may follow at a time.
use bg_match::{Action, Phase};
use bg_text::parse_action;
use std::process::Abort;

/// Turns that may follow an opening or an early roll.
const TURNS: [&str; 8] = [
    "move 8-5 6-5",
    "move 24-23 24-21",
    "move 13-11 13-10",
    "move 13-10 24-23",
    "move 24-18 24-23",
    "move 13-7 8-7",
    "move 24-20 13-11",
    "move 13-8 13-9",
];

/// A turn by a random word.
fn turn(word: u32) -> &'static str {
    TURNS[(word % 8) as usize]
}

/// The line of an action by a random word, whatever may follow.
fn any_line(word: u32) -> &'static str {
    match word % 8 {
        0 => "roll",
        1 => "double",
        2 => "take",
        3 => "drop",
        4 => "resign backgammon",
        5 => "accept",
        6 => "reject",
        _ => turn(word / 8),
    }
}

/// The line of an action that may follow in this phase, of one or the other kind; of any where the
/// referee is to act.
fn line_of(phase: Phase, is_first: bool, word: u32) -> &'static str {
    match (phase, is_first) {
        (Phase::ToAct(_), true) => "double",
        (Phase::ToAct(_), false) => "roll",
        (Phase::Doubled(_), true) => "drop",
        (Phase::Doubled(_), false) => "take",
        (Phase::ToMove(..), true) => "resign normal",
        (Phase::ToMove(..), false) => turn(word),
        (Phase::Resigned(..), true) => "accept",
        (Phase::Resigned(..), false) => "reject",
        (Phase::Opening | Phase::Over(_), _) => any_line(word),
    }
}

/// The action of a random word in this phase: more often than not one that may follow.
pub(crate) fn action_of(rt: &impl Abort, phase: Phase, word: u32) -> Action {
    let line = match word % 4 {
        0 => any_line(word / 4),
        kind => line_of(phase, kind == 1, word / 4),
    };
    parse_action(line.as_bytes()).expect(rt, line)
}
