//! Seats and watchers of a match by the second rules, in which X is hit, and rolls double sixes
//! with which he can't enter.
ghost use Rattle.std.specs.Prelude.{IfSome};
ghost use Rattle.bg_wire.specs.Packets.PacketText.{IsPacket};

use super::seats::{chooses, fresh};
use super::want;
use super::watchers::fresh_by;
use crate::checks::{check_number, check_row};
use arrayvec::ArrayVec;
use bg_board::Player;
use bg_match::{Action, Actor, Entry, Level, Number, Rules};
use bg_party::{ChooseFault, Learned, Seat, Watcher};
use bg_turns::Turn;
use bg_wire::{FIRST_WATCHER, Packet, decode};
use std::process::Abort;

/// Five entries of match 1: the opening 2 1, X's 13-11 6-5, O's roll 4 3 and 24-20 13-10, and X's
/// roll 6 6.
const FIVE: [u8; 21] = [
    1, 2, 1, 6, 2, 13, 11, 6, 5, 2, 4, 3, 6, 2, 24, 20, 13, 10, 2, 6, 6,
];

/// A call of a seat and what it gives, or what the seat then has.
#[derive(Clone, Copy)]
enum Row {
    /// It is told the five entries in a match by the rules of this number.
    TheFive(u8, Learned),
    /// It is told a pass behind them.
    ThePass(u8, Learned),
    /// It claims an empty move.
    NoStep(Result<Number, ChooseFault>),
    /// It offers to resign.
    Resign(Result<Number, ChooseFault>),
    /// It claims to roll.
    Roll(Result<Number, ChooseFault>),
    /// It holds so many entries, and this one acts.
    Held(Number, Actor),
    /// Its entry 6 is a pass.
    Passed,
    /// Its tick sends what a party wants that holds nothing of a match by the first rules.
    Asks,
}

/// So many entries of match 1 from a number on, by these rules.
fn entries(rules: u8, start: u8, count: u8, entries: &[u8]) -> Option<Packet>
    ensures { IfSome result IsPacket }
{
    let mut bytes: ArrayVec<u8, 128> = ArrayVec::new();
    for part in [
        &[
            0x42, 0x47, 2, 3, 0, 0, 0, 0, 0, 0, 0, 1, rules, 0, 0, 0, start, count,
        ],
        entries,
    ] {
        bytes.try_extend_from_slice(part).ok()?;
    }
    decode(bytes.as_slice()).ok()
}

/// What a seat learns of the five entries, in a match by these rules.
fn taught(seat: &mut Seat, rules: u8) -> Option<Learned> {
    let packet = entries(rules, 1, 5, &FIVE)?;
    Some(seat.take(&packet))
}

/// What a seat learns of a pass behind them.
fn passed(seat: &mut Seat, rules: u8) -> Option<Learned> {
    let packet = entries(rules, 6, 1, &[10])?;
    Some(seat.take(&packet))
}

/// Whether the call gives what the row says.
fn gives(seat: &mut Seat, row: &Row) -> bool {
    match row {
        Row::TheFive(rules, learned) => taught(seat, *rules) == Some(*learned),
        Row::ThePass(rules, learned) => passed(seat, *rules) == Some(*learned),
        Row::NoStep(expected) => chooses(seat, Action::Move(Turn::new()), *expected),
        Row::Resign(expected) => chooses(seat, Action::Resign(Level::Normal), *expected),
        Row::Roll(expected) => chooses(seat, Action::Roll, *expected),
        Row::Held(count, actor) => has(seat, *count, *actor),
        Row::Passed => holds_the_pass(seat),
        Row::Asks => asks(seat),
    }
}

/// Whether a seat holds so many entries, and this one acts.
fn has(seat: &Seat, count: Number, actor: Actor) -> bool {
    seat.held().len() == count && seat.held().actor() == actor
}

fn holds_the_pass(seat: &Seat) -> bool {
    seat.held().entry(6) == Some(&Entry::Passed)
}

/// Whether a seat sends what party 2 wants that holds nothing.
fn asks(seat: &mut Seat) -> bool {
    seat.tick() == Some(want(2, 0))
}

/// Every call gives what its row says.
fn check_rows(rt: &impl Abort, seat: &mut Seat, rows: &[Row]) {
    for (i, row) in rows.iter().enumerate() {
        check_number(rt, "row", i, gives(seat, row));
    }
}

const TO_THE_PASS: [Row; 6] = [
    Row::TheFive(2, Learned::Grew(5)),
    Row::Held(5, Actor::Referee),
    Row::NoStep(Err(ChooseFault::NotYourTurn)),
    Row::Resign(Err(ChooseFault::NotYourTurn)),
    Row::ThePass(2, Learned::Grew(1)),
    Row::Passed,
];

const NOT_THE_TURN_OF_X: [Row; 1] = [Row::Roll(Err(ChooseFault::NotYourTurn))];

const THE_TURN_OF_O: [Row; 1] = [Row::Roll(Ok(7))];

#[test]
fn nobody_claims_where_a_turn_is_to_be_passed(rt: HostRuntime) {
    let seat = fresh(&rt, Player::X, Rules::Two);
    check_rows(&rt, seat, &TO_THE_PASS);
    check_rows(&rt, seat, &NOT_THE_TURN_OF_X);
    let seat = fresh(&rt, Player::O, Rules::Two);
    check_rows(&rt, seat, &TO_THE_PASS);
    check_rows(&rt, seat, &THE_TURN_OF_O);
}

const NO_PASS: [Row; 4] = [
    Row::TheFive(1, Learned::Grew(5)),
    Row::ThePass(1, Learned::Illegal(6)),
    Row::Held(5, Actor::Seat(Player::X)),
    Row::NoStep(Ok(6)),
];

#[test]
fn first_rules_have_no_pass(rt: HostRuntime) {
    check_rows(&rt, fresh(&rt, Player::X, Rules::One), &NO_PASS);
}

/// What a watcher learns of the five entries, in a match by these rules, and how many entries it
/// then holds.
fn shown(watcher: &mut Watcher, rules: u8) -> Option<(Learned, Number)> {
    let packet = entries(rules, 1, 5, &FIVE)?;
    let learned = watcher.take(&packet);
    Some((learned, watcher.held().len()))
}

const OTHER_RULES: [Row; 2] = [Row::TheFive(2, Learned::OtherMatch), Row::Asks];

#[test]
fn other_rules_are_another_match(rt: HostRuntime) {
    let watcher = fresh_by(&rt, FIRST_WATCHER, Rules::Two);
    let first = shown(watcher, 1) == Some((Learned::OtherMatch, 0));
    check_row(&rt, "the first rules", first);
    let second = shown(watcher, 2) == Some((Learned::Grew(5), 5));
    check_row(&rt, "the second rules", second);
    check_rows(&rt, fresh(&rt, Player::O, Rules::One), &OTHER_RULES);
}
