//! Claims that are refused, packets of other matches, and claims that are repeated.
use super::packets::{HALF_A_MOVE, MOVE, NO_DICE, O, ROLL, TAKE, THREE_ONE, TWO_THREE, WATCHER, X};
use super::referees::{after_the_move, after_the_opening, fresh};
use super::rows::{Gives, Row, check_rows};
use bg_match::EntryFault;
use bg_turns::TurnFault;
use bg_wire::Slot;

const MORE: Gives = Gives::Illegal(EntryFault::Turn(TurnFault::MoreCanBePlayed));

const WRONG_PHASE: Gives = Gives::Illegal(EntryFault::WrongPhase);

const REFUSED: [Row; 8] = [
    Row::Claim(O, 2, &MOVE, NO_DICE, Gives::NotYourTurn),
    Row::Claim(X, 2, &HALF_A_MOVE, NO_DICE, MORE),
    Row::Claim(X, 2, &TAKE, NO_DICE, WRONG_PHASE),
    Row::Claim(X, 2, &ROLL, NO_DICE, Gives::WordRefused),
    Row::Claim(X, 2, &ROLL, THREE_ONE, WRONG_PHASE),
    Row::Claim(X, 3, &MOVE, NO_DICE, Gives::Ahead),
    // The opening, told by the referee.
    Row::Packet(1, 3, 1, &[0, 0, 0, 1, 1], &[3], NO_DICE, Gives::Nothing),
    Row::Held(1),
];

#[test]
fn refused_claims(rt: HostRuntime) {
    check_rows(&rt, after_the_opening(&rt), &REFUSED);
}

const BEFORE_THE_OPENING: [Row; 3] = [
    Row::Claim(X, 1, &ROLL, THREE_ONE, Gives::NotYourTurn),
    Row::Claim(O, 1, &ROLL, THREE_ONE, Gives::NotYourTurn),
    Row::Held(0),
];

#[test]
fn no_seat_acts_before_the_opening(rt: HostRuntime) {
    check_rows(&rt, fresh(&rt), &BEFORE_THE_OPENING);
}

const OF_MATCH_2: [Row; 4] = [
    Row::Packet(
        1,
        1,
        2,
        &[WATCHER, 0, 0, 0, 0],
        &[],
        THREE_ONE,
        Gives::OtherMatch,
    ),
    Row::Packet(
        1,
        2,
        2,
        &[X, 0, 0, 0, 2],
        &MOVE,
        THREE_ONE,
        Gives::OtherMatch,
    ),
    Row::Packet(
        1,
        3,
        2,
        &[0, 0, 0, 1, 1],
        &[3],
        THREE_ONE,
        Gives::OtherMatch,
    ),
    Row::Held(1),
];

#[test]
fn other_matches(rt: HostRuntime) {
    check_rows(&rt, after_the_opening(&rt), &OF_MATCH_2);
}

const REPEATED: [Row; 6] = [
    Row::Claim(O, 3, &ROLL, THREE_ONE, Gives::Accepted(3)),
    // Not saved yet, so it is not told: neither these dice nor others.
    Row::Claim(O, 3, &ROLL, TWO_THREE, Gives::Nothing),
    Row::Save(Slot::Zero, 2),
    Row::Claim(O, 3, &ROLL, TWO_THREE, Gives::TheRoll(O)),
    Row::Claim(X, 2, &MOVE, 0, Gives::TheMoveAndTheRoll(X)),
    Row::Held(3),
];

#[test]
fn repeated_claims_count_once(rt: HostRuntime) {
    check_rows(&rt, after_the_move(&rt), &REPEATED);
}
