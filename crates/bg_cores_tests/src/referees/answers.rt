//! What parties are told that want entries: nothing that is not saved, and eight entries at once.
use super::packets::{O, ROLL, WATCHER, X};
use super::referees::{after_the_opening, with_the_opening};
use super::rows::{Gives, Row, Told, check_rows};
use bg_wire::Slot;

const UNSAVED: [Row; 11] = [
    Row::Want(WATCHER, 0, Gives::Nothing),
    Row::Want(WATCHER, 1, Gives::Ahead),
    Row::Claim(X, 1, &ROLL, 0, Gives::Nothing),
    Row::Save(Slot::One, 1),
    Row::Saved(1),
    Row::Want(WATCHER, 0, Gives::TheOpening(WATCHER)),
    Row::Claim(O, 1, &ROLL, 0, Gives::TheOpening(O)),
    Row::Want(WATCHER, 1, Gives::Nothing),
    Row::Want(WATCHER, 2, Gives::Ahead),
    // The seat of X is not known to have the opening, as nothing was saved when it was heard of
    // last.
    Row::Push(X, 1, Told::Opening),
    Row::Silence,
];

#[test]
fn nothing_unsaved_is_told(rt: HostRuntime) {
    check_rows(&rt, with_the_opening(&rt), &UNSAVED);
}

const TWELVE_ENTRIES: [Row; 7] = [
    Row::Offers(12),
    Row::Save(Slot::Zero, 2),
    Row::Want(255, 0, Gives::TheNext(0, 8)),
    Row::Want(255, 3, Gives::TheNext(3, 8)),
    Row::Want(255, 4, Gives::TheNext(4, 8)),
    Row::Want(255, 5, Gives::TheNext(5, 7)),
    Row::Want(255, 11, Gives::TheNext(11, 1)),
];

#[test]
fn eight_entries_at_once(rt: HostRuntime) {
    check_rows(&rt, after_the_opening(&rt), &TWELVE_ENTRIES);
}
