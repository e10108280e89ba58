//! What a seat claims and sends.
use super::saves::FIRST_SAVE;
use super::seats::{Row, after_the_opening, check_rows, fresh};
use super::{MOVED, NONE};
use bg_board::Player;
use bg_match::{EntryFault, Rules};
use bg_party::{ChooseFault, Learned};
use bg_turns::TurnFault;
use bg_wire::Slot;

const OF_X: [Row; 8] = [
    Row::Roll(Err(ChooseFault::Illegal(EntryFault::WrongPhase))),
    Row::HalfAMove(Err(ChooseFault::Illegal(EntryFault::Turn(TurnFault::MoreCanBePlayed)))),
    Row::NoClaim,
    Row::Move(Ok(2)),
    Row::TheClaim,
    Row::Roll(Err(ChooseFault::AlreadyClaimed)),
    Row::Move(Err(ChooseFault::AlreadyClaimed)),
    Row::TheClaim,
];

#[test]
fn what_a_seat_claims(rt: HostRuntime) {
    check_rows(&rt, after_the_opening(&rt, Player::X), &OF_X);
}

#[test]
fn nobody_claims_before_the_opening(rt: HostRuntime) {
    let seat = fresh(&rt, Player::X, Rules::One);
    check_rows(&rt, seat, &[Row::Roll(Err(ChooseFault::NotYourTurn))]);
}

const OF_O: [Row; 4] = [
    Row::Move(Err(ChooseFault::NotYourTurn)),
    Row::NoClaim,
    Row::Told(2, &MOVED, &NONE, Learned::Grew(1)),
    Row::Roll(Ok(3)),
];

#[test]
fn whose_turn_it_is(rt: HostRuntime) {
    check_rows(&rt, after_the_opening(&rt, Player::O), &OF_O);
}

const SENT_ONCE_SAVED: [Row; 18] = [
    Row::Asks(1),
    Row::Move(Ok(2)),
    Row::Asks(1),
    Row::Silence,
    Row::NextSave(Slot::One, 1, &FIRST_SAVE),
    // A claim that is saved is sent on the next tick.
    Row::Save(Slot::One, 1),
    Row::Claims,
    Row::Claims,
    Row::Silence,
    Row::Claims,
    Row::Silence,
    // Once the record answers it the claim stays, and is no longer sent.
    Row::Told(2, &MOVED, &NONE, Learned::Grew(1)),
    Row::Asks(2),
    Row::TheClaim,
    // There is no claim to be saved now, so this starts nothing anew.
    Row::Asks(2),
    Row::Save(Slot::Zero, 2),
    Row::Silence,
    Row::Asks(2),
];

#[test]
fn claims_are_sent_once_they_are_saved(rt: HostRuntime) {
    check_rows(&rt, after_the_opening(&rt, Player::X), &SENT_ONCE_SAVED);
}
