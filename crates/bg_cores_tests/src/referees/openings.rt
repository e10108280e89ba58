//! Words that open a game, words that do not, and the lengths of matches.
use super::packets::{NO_DICE, SIX_SIX, THREE_ONE};
use super::referees::fresh;
use super::rows::{Row, Told, check_rows};
use crate::checks::check_number;
use bg_match::{LengthFault, Rules};
use bg_referee::{DueFault, Referee};
use std::alloc::Global;

const OPENINGS: [Row; 11] = [
    Row::Due(0, Err(DueFault::EqualOpening)),
    Row::Due(SIX_SIX, Err(DueFault::EqualOpening)),
    Row::Due(NO_DICE, Err(DueFault::WordRefused)),
    Row::Due(u32::MAX, Err(DueFault::WordRefused)),
    Row::Held(0),
    Row::Due(THREE_ONE, Ok(1)),
    Row::Holds(1, Told::Opening),
    Row::Due(THREE_ONE, Err(DueFault::NothingDue)),
    Row::Due(NO_DICE, Err(DueFault::NothingDue)),
    Row::Held(1),
    Row::Saved(0),
];

#[test]
fn openings(rt: HostRuntime) {
    check_rows(&rt, fresh(&rt), &OPENINGS);
}

/// The length of a match of this length.
fn length_of(alloc: Global, length: u8) -> Result<u8, LengthFault> {
    Ok(
        Referee::fresh(alloc, 7, length, Rules::One)?
            .held()
            .length(),
    )
}

#[test]
fn lengths(rt: HostRuntime) {
    let refused = Err(LengthFault::LengthOutOfRange);
    check_number(&rt, "length", 0, length_of(rt.alloc(), 0) == refused);
    check_number(&rt, "length", 100, length_of(rt.alloc(), 100) == refused);
    check_number(&rt, "length", 99, length_of(rt.alloc(), 99) == Ok(99));
}
