//! What ends a save that is under way, and what does not.
use crate::checks::check_row;
use crate::parties::rows::{Gives, Row, check_rows};
use crate::parties::{fresh, want};
use bg_parties::{NotUnderWay, Party, RoleFault, Taken};
use bg_referee::{DueFault, TakeOutcome};
use bg_wire::Slot;
use std::process::Abort;

/// A referee who has opened the match with 3 1, for X.
fn opened(rt: &(impl AllocGlobal + Abort)) -> &'static mut Party {
    let referee = fresh(rt, 0);
    check_row(rt, "the opening", referee.due(12) == Ok(1));
    referee
}

/// What does not change the record leaves the save under way.
const MARKED: [Row; 8] = [
    Row::Want(1, Gives::Nothing),
    Row::Save(Slot::One, 1),
    Row::Saved(Some(0)),
    Row::Want(1, Gives::Nothing),
    Row::Silence,
    Row::Mark(1, Ok(())),
    Row::Saved(Some(1)),
    Row::Want(1, Gives::Answer(3)),
];

#[test]
fn marked_save_is_told(rt: HostRuntime) {
    check_rows(&rt, opened(&rt), &MARKED);
}

const MARKED_ONCE: [Row; 6] = [
    Row::Mark(1, Err(NotUnderWay)),
    Row::Save(Slot::One, 1),
    Row::Mark(2, Err(NotUnderWay)),
    Row::Mark(1, Ok(())),
    Row::Mark(1, Err(NotUnderWay)),
    Row::Save(Slot::Zero, 2),
];

#[test]
fn save_is_marked_once(rt: HostRuntime) {
    check_rows(&rt, opened(&rt), &MARKED_ONCE);
}

/// An entry that comes while a save is written is not in its text, and is not told.
const ENDED_BY_A_CLAIM: [Row; 7] = [
    Row::Save(Slot::One, 1),
    Row::Claim(1, Gives::Accepted(2)),
    Row::Mark(1, Err(NotUnderWay)),
    Row::Saved(Some(0)),
    Row::Save(Slot::One, 1),
    Row::Mark(1, Ok(())),
    Row::Saved(Some(2)),
];

#[test]
fn accepted_claim_ends_the_save(rt: HostRuntime) {
    check_rows(&rt, opened(&rt), &ENDED_BY_A_CLAIM);
}

const LEFT_BY_A_REFUSAL: [Row; 4] = [
    Row::Save(Slot::One, 1),
    Row::Claim(2, Gives::NotYourTurn),
    Row::Due(Err(RoleFault::Core(DueFault::NothingDue))),
    Row::Mark(1, Ok(())),
];

#[test]
fn refused_claim_leaves_the_save(rt: HostRuntime) {
    check_rows(&rt, opened(&rt), &LEFT_BY_A_REFUSAL);
}

const ABANDONED: [Row; 5] = [
    Row::Save(Slot::One, 1),
    Row::Abandon,
    Row::Mark(1, Err(NotUnderWay)),
    Row::Saved(Some(0)),
    Row::Held(1),
];

#[test]
fn abandoned_save_is_not_marked(rt: HostRuntime) {
    check_rows(&rt, opened(&rt), &ABANDONED);
}

const ENDED_BY_THE_OPENING: [Row; 3] = [
    Row::Save(Slot::One, 1),
    Row::Due(Ok(1)),
    Row::Mark(1, Err(NotUnderWay)),
];

#[test]
fn opening_ends_the_save(rt: HostRuntime) {
    check_rows(&rt, fresh(&rt, 0), &ENDED_BY_THE_OPENING);
}

const THE_OPENING_SAVED: [Row; 2] = [Row::Save(Slot::One, 1), Row::Mark(1, Ok(()))];

/// A claim that comes while a save is written is not in its text, and is not sent.
const OF_A_SEAT: [Row; 7] = [
    Row::Mark(1, Err(NotUnderWay)),
    Row::Save(Slot::One, 1),
    Row::Resign(Ok(2)),
    Row::Mark(1, Err(NotUnderWay)),
    Row::Save(Slot::One, 1),
    Row::Mark(1, Ok(())),
    Row::Claims(1),
];

/// Whether the record of a seat grows by what this referee tells watcher 3.
fn grows_by_what_is_told(seat: &mut Party, referee: &mut Party) -> bool {
    match referee.take(&want(1, 3), 0) {
        Taken::Referee(TakeOutcome::Answer(_, told)) => seat.take(&told, 0).grows(),
        _ => false,
    }
}

#[test]
fn claim_ends_the_save_of_a_seat(rt: HostRuntime) {
    let referee = opened(&rt);
    check_rows(&rt, referee, &THE_OPENING_SAVED);
    let seat = fresh(&rt, 1);
    check_rows(&rt, seat, &[Row::Save(Slot::One, 1)]);
    check_row(&rt, "what is told", grows_by_what_is_told(seat, referee));
    check_rows(&rt, seat, &OF_A_SEAT);
}
