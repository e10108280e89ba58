//! A referee of match 1, of length 1, by the second rules: X is hit, and rolls double sixes with
//! which he can't enter.
use super::packets::{O, OFFER, ROLL, X};
use super::referees::fresh_by;
use super::rows::{Gives, Row, Told, check_rows};
use bg_match::{EntryFault, Rules};
use bg_referee::{DueFault, Referee};
use bg_turns::TurnFault;
use std::process::Abort;

/// Words with the dice 2 1, 4 3 and 6 6.
const TWO_ONE: u32 = 6;

const FOUR_THREE: u32 = 20;

const SIX_SIX: u32 = 35;

/// Actions as bytes: to play nothing, 13-11 6-5 or 24-20 13-10.
const NO_STEP: [u8; 2] = [6, 0];

const MOVE_OF_X: [u8; 6] = [6, 2, 13, 11, 6, 5];

const MOVE_OF_O: [u8; 6] = [6, 2, 24, 20, 13, 10];

const TO_THE_SIXES: [Row; 6] = [
    Row::Due(TWO_ONE, Ok(1)),
    Row::Claim(X, 2, &MOVE_OF_X, 0, Gives::Accepted(2)),
    Row::Claim(O, 3, &ROLL, FOUR_THREE, Gives::Accepted(3)),
    Row::Claim(O, 4, &MOVE_OF_O, 0, Gives::Accepted(4)),
    Row::Claim(X, 5, &ROLL, SIX_SIX, Gives::Accepted(5)),
    Row::Held(5),
];

/// A referee of these rules, when X has rolled the sixes.
fn before_the_pass(rt: &(impl AllocGlobal + Abort), rules: Rules) -> &'static mut Referee {
    let referee = fresh_by(rt, rules);
    check_rows(rt, referee, &TO_THE_SIXES);
    referee
}

/// No seat may claim entry 6, whatever it claims.
const OF_NO_SEAT: [Row; 7] = [
    Row::RefereeActs,
    Row::Claim(X, 6, &NO_STEP, u32::MAX, Gives::NotYourTurn),
    Row::Claim(O, 6, &NO_STEP, u32::MAX, Gives::NotYourTurn),
    Row::Claim(X, 6, &OFFER, u32::MAX, Gives::NotYourTurn),
    Row::Claim(O, 6, &OFFER, u32::MAX, Gives::NotYourTurn),
    Row::Claim(X, 6, &ROLL, u32::MAX, Gives::NotYourTurn),
    Row::Claim(O, 6, &ROLL, u32::MAX, Gives::NotYourTurn),
];

const PASSED: [Row; 5] = [
    // A word without dice does, and one with equal dice.
    Row::Due(u32::MAX, Ok(6)),
    Row::Holds(6, Told::Pass),
    Row::ByNoSeat(6),
    Row::Due(u32::MAX, Err(DueFault::NothingDue)),
    Row::Claim(O, 7, &ROLL, FOUR_THREE, Gives::Accepted(7)),
];

#[test]
fn turn_is_passed(rt: HostRuntime) {
    let referee = before_the_pass(&rt, Rules::Two);
    check_rows(&rt, referee, &OF_NO_SEAT);
    check_rows(&rt, referee, &PASSED);
    check_rows(&rt, before_the_pass(&rt, Rules::Two), &[Row::Due(0, Ok(6))]);
}

const NOT_PASSED: [Row; 2] = [
    Row::Due(u32::MAX, Err(DueFault::NothingDue)),
    Row::Claim(X, 6, &NO_STEP, 0, Gives::Accepted(6)),
];

#[test]
fn first_rules_pass_nothing(rt: HostRuntime) {
    check_rows(&rt, before_the_pass(&rt, Rules::One), &NOT_PASSED);
}

const A_TURN_WITH_A_STEP: [Row; 4] = [
    Row::Due(u32::MAX, Err(DueFault::WordRefused)),
    Row::Due(TWO_ONE, Ok(1)),
    Row::Due(TWO_ONE, Err(DueFault::NothingDue)),
    Row::Claim(
        X,
        2,
        &NO_STEP,
        0,
        Gives::Illegal(EntryFault::Turn(TurnFault::MoreCanBePlayed)),
    ),
];

#[test]
fn turn_with_a_step_is_not_passed(rt: HostRuntime) {
    check_rows(&rt, fresh_by(&rt, Rules::Two), &A_TURN_WITH_A_STEP);
}

/// Packets by the first rules.
const BY_THE_FIRST: [Row; 4] = [
    Row::Packet(1, 2, 1, &[X, 0, 0, 0, 6], &NO_STEP, 0, Gives::OtherMatch),
    Row::Packet(1, 1, 1, &[3, 0, 0, 0, 0], &[], 0, Gives::OtherMatch),
    Row::Packet(1, 3, 1, &[0, 0, 0, 1, 1], &[1, 2, 1], 0, Gives::OtherMatch),
    Row::Held(5),
];

/// And by the second.
const BY_THE_SECOND: [Row; 2] = [
    Row::Packet(2, 2, 1, &[X, 0, 0, 0, 6], &NO_STEP, 0, Gives::OtherMatch),
    Row::Held(5),
];

#[test]
fn other_rules_are_another_match(rt: HostRuntime) {
    check_rows(&rt, before_the_pass(&rt, Rules::Two), &BY_THE_FIRST);
    check_rows(&rt, before_the_pass(&rt, Rules::One), &BY_THE_SECOND);
}
