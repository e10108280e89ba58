//! What each role does, and what is another role's.
use crate::parties::fresh;
use crate::parties::rows::{Gives, Row, check_rows};
use bg_parties::{NotUnderWay, RoleFault};
use bg_party::ChooseFault;
use bg_referee::DueFault;

const OF_THE_REFEREE: [Row; 5] = [
    Row::Roll(Err(RoleFault::OtherRole)),
    Row::NoClaim,
    Row::Due(Ok(1)),
    Row::Due(Err(RoleFault::Core(DueFault::NothingDue))),
    Row::Held(1),
];

#[test]
fn referee_claims_nothing(rt: HostRuntime) {
    check_rows(&rt, fresh(&rt, 0), &OF_THE_REFEREE);
}

#[test]
fn followers_open_nothing(rt: HostRuntime) {
    for number in [1, 2, 3, 255] {
        let rows = [
            Row::Due(Err(RoleFault::OtherRole)),
            Row::Saved(None),
            Row::Asks(number),
            Row::Want(2, Gives::OtherMatch),
        ];
        check_rows(&rt, fresh(&rt, number), &rows);
    }
}

const OF_A_WATCHER: [Row; 3] = [
    Row::Roll(Err(RoleFault::OtherRole)),
    Row::NoSave,
    Row::Mark(1, Err(NotUnderWay)),
];

#[test]
fn watchers_neither_claim_nor_save(rt: HostRuntime) {
    check_rows(&rt, fresh(&rt, 3), &OF_A_WATCHER);
}

const OF_A_SEAT: [Row; 2] = [
    Row::Roll(Err(RoleFault::Core(ChooseFault::NotYourTurn))),
    Row::NoClaim,
];

#[test]
fn seat_waits_for_its_turn(rt: HostRuntime) {
    check_rows(&rt, fresh(&rt, 2), &OF_A_SEAT);
}
