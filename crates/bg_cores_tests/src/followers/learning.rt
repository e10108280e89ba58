//! What followers learn, and refused growths.
use super::seats::{Row, after_the_opening, check_rows, learns_the_opening, told};
use super::watchers::{Row as WatcherRow, check_rows as check_watcher, fresh_by};
use super::{
    DOUBLED, HALF_A_MOVE, MOVED, NONE, OFFERED, OFFERED_A_GAMMON, OPENING, OTHER_OPENING, REJECTED,
};
use crate::checks::{check_number, check_row};
use bg_board::Player;
use bg_match::{LengthFault, Number, Rules};
use bg_party::{Learned, Seat, Watcher};
use bg_wire::{FIRST_WATCHER, Slot};
use std::alloc::Global;
use std::process::Abort;
use std::test::Fail;

const NO_NEW_ENTRIES: [Row; 8] = [
    Row::Told(1, &OTHER_OPENING, &NONE, Learned::Conflict(1)),
    Row::Told(1, &OTHER_OPENING, &MOVED, Learned::Conflict(1)),
    Row::Told(2, &HALF_A_MOVE, &NONE, Learned::Illegal(2)),
    Row::Told(2, &MOVED, &REJECTED, Learned::Illegal(3)),
    Row::Told(3, &DOUBLED, &NONE, Learned::Gap),
    Row::Told(255, &DOUBLED, &NONE, Learned::Gap),
    Row::Told(1, &OPENING, &NONE, Learned::Nothing),
    Row::TheOpening,
];

#[test]
fn entries_that_change_no_record(rt: HostRuntime) {
    check_rows(&rt, after_the_opening(&rt, Player::X), &NO_NEW_ENTRIES);
}

const NO_ENTRIES: [Row; 5] = [
    Row::Takes(1, 1, &[3, 0, 0, 0, 0], &NONE, Learned::Nothing),
    Row::Takes(2, 1, &[1, 0, 0, 0, 2], &MOVED, Learned::Nothing),
    Row::Takes(1, 2, &[3, 0, 0, 0, 0], &NONE, Learned::OtherMatch),
    Row::Takes(3, 2, &[0, 0, 0, 2, 1], &MOVED, Learned::OtherMatch),
    Row::TheOpening,
];

#[test]
fn packets_that_change_no_record(rt: HostRuntime) {
    check_rows(&rt, after_the_opening(&rt, Player::X), &NO_ENTRIES);
}

const OVERLAPS: [WatcherRow; 6] = [
    WatcherRow::Told(1, &OPENING, &NONE, Learned::Grew(1)),
    WatcherRow::Told(1, &OPENING, &MOVED, Learned::Grew(1)),
    WatcherRow::Told(1, &OPENING, &MOVED, Learned::Nothing),
    WatcherRow::Told(2, &MOVED, &OFFERED, Learned::Grew(1)),
    WatcherRow::Told(2, &MOVED, &OFFERED_A_GAMMON, Learned::Conflict(3)),
    WatcherRow::Held(3),
];

/// Who acted by an entry of a watcher's record.
fn by(watcher: &Watcher, number: Number) -> Option<Player> {
    watcher.held().by(number)
}

#[test]
fn packets_that_overlap(rt: HostRuntime) {
    let watcher = fresh_by(&rt, 255, Rules::One);
    check_watcher(&rt, watcher, &OVERLAPS);
    check_row(
        &rt,
        "who acted by entry 3",
        by(watcher, 3) == Some(Player::O),
    );
}

/// Whether there is neither a watcher nor a seat of a match of this length, since it is out of range.
fn is_refused(alloc: Global, length: u8) -> bool {
    let refused = LengthFault::LengthOutOfRange;
    Watcher::fresh(alloc, FIRST_WATCHER, 1, length, Rules::One).err() == Some(refused)
        && id_of_a_seat(alloc, length) == Err(refused)
}

/// The id of a seat's match 7, of this length.
fn id_of_a_seat(alloc: Global, length: u8) -> Result<u64, LengthFault> {
    Ok(
        Seat::fresh(alloc, Player::O, 7, length, Rules::One)?
            .held()
            .id(),
    )
}

#[test]
fn lengths(rt: HostRuntime) {
    check_number(&rt, "length", 0, is_refused(rt.alloc(), 0));
    check_number(&rt, "length", 100, is_refused(rt.alloc(), 100));
    check_number(&rt, "length", 99, id_of_a_seat(rt.alloc(), 99) == Ok(7));
}

/// Whether a seat learns an offer to resign under this number, and its rejection, which may have
/// come before it. Entries that lack memory are told again.
fn learns_an_offer(seat: &mut Seat, number: u8, rejection_first: bool) -> bool {
    let mut rejection = REJECTED.as_slice();
    if rejection_first {
        if told(seat, number.wrapping_add(1), rejection, &NONE) != Some(Learned::Gap) {
            return false;
        }
        rejection = &NONE;
    }
    let grew = Some(Learned::Grew(2));
    let learned = told(seat, number, &OFFERED, rejection);
    if learned == Some(Learned::Memory) {
        let unchanged = seat.held().len() == Number::from(number).wrapping_sub(1);
        return unchanged && told(seat, number, &OFFERED, rejection) == grew;
    }
    learned == grew
}

/// Whether a seat that holds the opening learns eleven offers to resign, each rejected.
fn learns_eleven_offers(seat: &mut Seat) -> bool {
    for offers in 1..12 {
        if !learns_an_offer(seat, 2 * offers, offers % 2 == 0) {
            return false;
        }
    }
    true
}

/// What a seat has that holds the opening and eleven offers to resign, each rejected. Of its save,
/// what stands before the entries has 34 bytes, the opening three, each of eleven offers two, each
/// rejection one.
const AFTER_ELEVEN_OFFERS: [Row; 3] = [
    Row::Move(Ok(24)),
    Row::SizeOfSave(Ok((Slot::One, 1, 70))),
    Row::Asks(23),
];

/// Where memory is refused nothing has changed, and the same call then succeeds. No run of the
/// tests refuses any, but `tools/checks/refuse_growths` refuses each growth in turn.
#[test]
fn refused_growths(rt: HostRuntime) -> Result<(), Fail> {
    let mut seat = Seat::fresh(rt.alloc(), Player::X, 1, 1, Rules::One)?;
    check_growths(&rt, &mut seat);
    Ok(())
}

fn check_growths(rt: &impl Abort, seat: &mut Seat) {
    check_row(rt, "the opening", learns_the_opening(seat));
    check_row(rt, "eleven offers", learns_eleven_offers(seat));
    check_rows(rt, seat, &AFTER_ELEVEN_OFFERS);
}
