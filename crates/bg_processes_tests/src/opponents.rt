//! What is said of the other player's coming and going.
//!
//! A play has lines of what happens around the seat of X, with ticks from the first on and before
//! the last; ten ticks are a second:
//! - "x 0-600": when X is there, and asks the referee once a second;
//! - "o 60-100 250-310": when O asks, once a second too;
//! - "referee 0-600": when the referee is there, who begins anew each time;
//! - "awaited 0-600": when the match waits for O.
//!
//! All other lines say at which tick what is said to X.
use crate::checks::check_number;
use crate::helpers::hosts::Host;
use crate::helpers::lasting::lasting;
use crate::helpers::party_scripts::{Sockets, lasting_sockets};
use crate::helpers::words::number;
use bg_processes::{Opponent, OpponentChange};
use std::process::Abort;

/// What stands behind the first word of a line of a play; nothing where it has no such line.
fn words_behind<'a>(play: &'a str, what: &str) -> &'a str {
    for line in play.lines() {
        if let Some((first, words)) = line.split_once(' ') {
            if first == what {
                return words;
            }
        }
    }
    ""
}

/// The first tick of two, and the one behind the last.
fn ends(rt: &impl Abort, ticks: &str) -> Option<(u32, u32)> {
    let (start, end) = ticks.split_once('-')?;
    Some((number(rt, start), number(rt, end)))
}

fn is_within(rt: &impl Abort, ticks: &str, tick: u32) -> bool {
    match ends(rt, ticks) {
        Some((start, end)) => start <= tick && tick < end,
        None => false,
    }
}

/// Whether something is so at a tick.
fn is_so(rt: &impl Abort, play: &str, what: &str, tick: u32) -> bool {
    for ticks in words_behind(play, what).split(' ') {
        if is_within(rt, ticks, tick) {
            return true;
        }
    }
    false
}

/// Whether it begins to be so.
fn begins(rt: &impl Abort, play: &str, what: &str, tick: u32) -> bool {
    for ticks in words_behind(play, what).split(' ') {
        if let Some((start, _)) = ends(rt, ticks) {
            if start == tick {
                return true;
            }
        }
    }
    false
}

/// What a play says of a tick; nothing where nothing is said.
fn said_at<'a>(play: &'a str, tick: u32) -> &'a str {
    for line in play.lines() {
        if let Some((first, change)) = line.split_once(' ') {
            if first.parse() == Ok(tick) {
                return change;
            }
        }
    }
    ""
}

fn word_of(change: Option<OpponentChange>) -> &'static str {
    match change {
        None => "",
        Some(OpponentChange::Missing) => "missing",
        Some(OpponentChange::Came) => "came",
        Some(OpponentChange::Left) => "left",
        Some(OpponentChange::Returned) => "returned",
    }
}

/// What a tick brings to the sockets. O asks half a second behind X.
fn let_be<R: Host>(sockets: &mut Sockets<'_, R>, play: &str, tick: u32) {
    let rt = sockets.rt;
    let time = u64::from(tick).saturating_mul(100);
    sockets.clock.milliseconds.set(time);
    if begins(rt, play, "referee", tick) {
        sockets.play("rebind 0 0");
    }
    if tick % 10 == 0 && is_so(rt, play, "x", tick) {
        sockets.play("ask 1");
    }
    if tick % 10 == 5 && is_so(rt, play, "o", tick) {
        sockets.play("ask 2");
    }
    if is_so(rt, play, "referee", tick) {
        sockets.play("take 0 nothing");
    }
    sockets.play("take 1 nothing\ntake 2 nothing");
}

/// X is told after a round what the play says of the tick.
fn check_said<R: Host>(
    sockets: &mut Sockets<'_, R>,
    opponent: &mut Opponent,
    play: &str,
    tick: u32,
) {
    let (rt, clock) = (sockets.rt, sockets.clock);
    let is_awaited = is_so(rt, play, "awaited", tick);
    let said = word_of(opponent.after_round(clock, sockets.of(1), is_awaited));
    check_number(
        rt,
        "what is said at tick",
        tick.into(),
        said == said_at(play, tick),
    );
}

fn check(rt: &impl Host, play: &str) {
    let sockets = lasting_sockets(rt);
    let opponent = lasting(rt, Opponent::new());
    let (start, end) = ends(rt, words_behind(play, "x")).expect(rt, "when X is there");
    for tick in 0..end {
        let_be(sockets, play, tick);
        if tick >= start {
            check_said(sockets, opponent, play, tick);
        }
    }
}

/// O comes late, leaves and returns twice, as X is told within a second.
const WAITS: &str = "\
x 0-600
o 60-100 250-310 420-600
referee 0-600
awaited 0-600
30 missing
70 came
200 left
260 returned
410 left
430 returned
";

#[test]
fn who_waits_is_told(rt: HostRuntime) {
    check(&rt, WAITS);
}

/// X, on turn, is told that O is not there at first, and then nothing until he has moved. O returns
/// to move.
const ON_TURN: &str = "\
x 0-600
o 60-100 250-300 450-600
referee 0-600
awaited 230-250 320-600
30 missing
70 came
230 left
400 left
460 returned
";

#[test]
fn who_is_on_turn_is_not(rt: HostRuntime) {
    check(&rt, ON_TURN);
}

/// X comes while O is away.
const COMES_ALONE: &str = "\
x 150-300
o 0-40 250-300
referee 0-300
awaited 0-300
150 left
260 returned
";

/// X comes while O is there.
const COMES_SECOND: &str = "\
x 150-300
o 0-300
referee 0-300
awaited 0-300
";

/// O comes within three seconds behind X.
const COMES_FIRST: &str = "\
x 150-300
o 170-300
referee 0-300
awaited 0-300
";

#[test]
fn a_seat_that_begins(rt: HostRuntime) {
    for play in [COMES_ALONE, COMES_SECOND, COMES_FIRST] {
        check(&rt, play);
    }
}

/// A referee that begins again has heard of nobody. O is there when it does so first, and has left
/// the second time.
const BEGINS_AGAIN: &str = "\
x 0-600
o 0-290 500-600
referee 0-100 150-300 350-600
awaited 0-600
450 left
510 returned
";

/// No referee is there.
const NO_REFEREE: &str = "\
x 0-600
o 0-290 500-600
awaited 0-600
";

#[test]
fn referees_that_begin_again(rt: HostRuntime) {
    for play in [BEGINS_AGAIN, NO_REFEREE] {
        check(&rt, play);
    }
}
