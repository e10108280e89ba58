//! The order of the calls of a match that is played round by round (docs/PROTOCOL.md, "Rounds").
//! What each match is about is said with its calls.
use super::round_calls::BEFORE_THE_DROP;
use super::round_setups::{Devices, ONE_BYTE, UNUSED, check_rounds, first_save};
use crate::devices::{NO_FAILURE, tearing};
use bg_auto::LoopFault;
use bg_world::{Outcome, RestoreCause};
use std::process::Abort;

/// The first word of this match opens it with 6 3, so that X begins.
const X_BEGINS: u64 = 7;

/// The first word of this match opens it with 2 4, so that O begins.
const O_BEGINS: u64 = 1;

/// The first words of this match have the dice 5 5, 4 4 and 3 2.
const TWO_IN_VAIN: u64 = 8;

/// So many rounds of a match of length 1 make the calls of this name.
fn check(
    rt: &(impl AllocGlobal + Abort),
    name: &str,
    seed: u64,
    rounds: u32,
    devices: &Devices<'_>,
) {
    check_rounds(rt, name, seed, 1, rounds, devices, &Ok(()));
}

#[test]
fn calls_of_rounds(rt: HostRuntime) {
    for (name, seed, rounds) in [
        ("calls_of_no_round", X_BEGINS, 0),
        ("calls_of_the_first_round", X_BEGINS, 1),
        ("calls_of_the_first_rounds", X_BEGINS, 4),
        ("game_is_opened_in_the_third_round", TWO_IN_VAIN, 3),
    ] {
        check(&rt, name, seed, rounds, &UNUSED);
    }
}

#[test]
fn what_is_taken_second_counts_in_its_round(rt: HostRuntime) {
    let devices = Devices {
        garbled: [0, 3, 3],
        ..UNUSED
    };
    let (of_x, of_o) = (
        "what_is_taken_second_counts_for_x",
        "what_is_taken_second_counts_for_o",
    );
    check(&rt, of_x, X_BEGINS, 2, &devices);
    check(&rt, of_o, O_BEGINS, 2, &devices);
}

/// The word for entry 11 of match 7 opens a game with 1 2.
#[test]
fn game_is_opened_in_the_round_that_ends_the_last(rt: HostRuntime) {
    let (mut of_x, mut of_o) = (BEFORE_THE_DROP, BEFORE_THE_DROP);
    of_x[4] = 1;
    of_o[4] = 2;
    let devices = Devices {
        of_referee: first_save(&BEFORE_THE_DROP),
        of_x: first_save(&of_x),
        of_o: first_save(&of_o),
        garbled: [7, 0, 0],
        failing: NO_FAILURE,
    };
    let name = "game_is_opened_in_the_round_that_ends_the_last";
    check_rounds(&rt, name, 7, 3, 2, &devices, &Ok(()));
}

fn check_party_restarts_where_its_save_fails(rt: &(impl AllocGlobal + Abort)) {
    for (name, party) in [
        ("referee_restarts_where_its_save_fails", 0),
        ("x_restarts_where_its_save_fails", 1),
        ("o_restarts_where_its_save_fails", 2),
    ] {
        let devices = Devices {
            failing: tearing(party, 2, None),
            ..UNUSED
        };
        check(rt, name, X_BEGINS, 2, &devices);
    }
}

#[test]
fn party_restarts_where_its_save_fails(rt: HostRuntime) {
    check_party_restarts_where_its_save_fails(&rt);
}

fn check_slots_of_one_byte_stop_the_match(rt: &(impl AllocGlobal + Abort)) {
    let damaged = Outcome::RestoreFault(RestoreCause::Damaged);
    let stopped = Err(LoopFault::Stopped(damaged));
    for (name, party) in [
        ("slots_of_one_byte_stop_the_referee", 0),
        ("slots_of_one_byte_stop_x", 1),
        ("slots_of_one_byte_stop_o", 2),
    ] {
        let mut devices = UNUSED;
        match party {
            0 => devices.of_referee = ONE_BYTE,
            1 => devices.of_x = ONE_BYTE,
            _ => devices.of_o = ONE_BYTE,
        }
        check_rounds(rt, name, X_BEGINS, 1, 4, &devices, &stopped);
    }
}

#[test]
fn slots_of_one_byte_stop_the_match(rt: HostRuntime) {
    check_slots_of_one_byte_stop_the_match(&rt);
}
