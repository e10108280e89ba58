//! Saved files of a match of length 1, the boards of what they restore, and the comparison of what
//! is shown of them.
use crate::checks::{check_row, check_told, text_of};
use std::alloc::{AllocError, Global};
use std::process::Abort;

/// Save 2 of the referee of match 1, length 1: an opening and its move.
pub(super) const REFEREE: [u8; 33] = [
    0x42, 0x47, 0x53, 0x32, 0, 0, 0, 0, 0, 0, 0, 0, 1, 1, 1, 0, 0, 0, 2, 0, 0, 0, 0, 2, 1, 3, 1, 6,
    2, 8, 5, 6, 5,
];

/// The same in the layout that is read, and no longer written.
pub(super) const REFEREE_OF_OLD: [u8; 30] = [
    0x42, 0x47, 0x53, 0x31, 0, 0, 0, 0, 0, 0, 0, 0, 1, 1, 0, 0, 0, 2, 0, 0, 2, 1, 3, 1, 6, 2, 8, 5,
    6, 5,
];

/// Save 3 of the referee of the same match, which has the opening alone.
pub(super) const OPENING: [u8; 27] = [
    0x42, 0x47, 0x53, 0x32, 0, 0, 0, 0, 0, 0, 0, 0, 1, 1, 1, 0, 0, 0, 3, 0, 0, 0, 0, 1, 1, 3, 1,
];

/// Save 1 of the seat of X, which has the opening and claims its move as entry 2, in the layout
/// that is no longer written.
pub(super) const SEAT: [u8; 32] = [
    0x42, 0x47, 0x53, 0x31, 1, 0, 0, 0, 0, 0, 0, 0, 1, 1, 0, 0, 0, 1, 1, 0, 2, 6, 2, 8, 5, 6, 5, 0,
    1, 1, 3, 1,
];

/// The referee's save 2, and a byte behind it.
pub(super) const LONGER: [u8; 34] = [
    0x42, 0x47, 0x53, 0x32, 0, 0, 0, 0, 0, 0, 0, 0, 1, 1, 1, 0, 0, 0, 2, 0, 0, 0, 0, 2, 1, 3, 1, 6,
    2, 8, 5, 6, 5, 0,
];

/// The referee's save 2 by the second rules.
pub(super) const BY_SECOND_RULES: [u8; 33] = [
    0x42, 0x47, 0x53, 0x32, 0, 0, 0, 0, 0, 0, 0, 0, 1, 1, 2, 0, 0, 0, 2, 0, 0, 0, 0, 2, 1, 3, 1, 6,
    2, 8, 5, 6, 5,
];

/// The opening alone, as save 2.
pub(super) const EARLIER_OPENING: [u8; 27] = [
    0x42, 0x47, 0x53, 0x32, 0, 0, 0, 0, 0, 0, 0, 0, 1, 1, 1, 0, 0, 0, 2, 0, 0, 0, 0, 1, 1, 3, 1,
];

/// The referee's save 2 as it would be of X.
pub(super) const OF_X: [u8; 33] = [
    0x42, 0x47, 0x53, 0x32, 1, 0, 0, 0, 0, 0, 0, 0, 1, 1, 1, 0, 0, 0, 2, 0, 0, 0, 0, 2, 1, 3, 1, 6,
    2, 8, 5, 6, 5,
];

/// The same of O.
pub(super) const OF_O: [u8; 33] = [
    0x42, 0x47, 0x53, 0x32, 2, 0, 0, 0, 0, 0, 0, 0, 1, 1, 1, 0, 0, 0, 2, 0, 0, 0, 0, 2, 1, 3, 1, 6,
    2, 8, 5, 6, 5,
];

/// The same of X, with another turn.
pub(super) const OTHER_TURN: [u8; 33] = [
    0x42, 0x47, 0x53, 0x32, 1, 0, 0, 0, 0, 0, 0, 0, 1, 1, 1, 0, 0, 0, 2, 0, 0, 0, 0, 2, 1, 3, 1, 6,
    2, 24, 21, 24, 23,
];

/// Save 3 of O, with another opening.
pub(super) const OTHER_OPENING: [u8; 27] = [
    0x42, 0x47, 0x53, 0x32, 2, 0, 0, 0, 0, 0, 0, 0, 1, 1, 1, 0, 0, 0, 3, 0, 0, 0, 0, 1, 1, 4, 1,
];

/// Save 2 of X, of match 2.
pub(super) const OTHER_NUMBER: [u8; 33] = [
    0x42, 0x47, 0x53, 0x32, 1, 0, 0, 0, 0, 0, 0, 0, 2, 1, 1, 0, 0, 0, 2, 0, 0, 0, 0, 2, 1, 3, 1, 6,
    2, 8, 5, 6, 5,
];

/// Save 2 of O, by the second rules.
pub(super) const OTHER_RULES: [u8; 33] = [
    0x42, 0x47, 0x53, 0x32, 2, 0, 0, 0, 0, 0, 0, 0, 1, 1, 2, 0, 0, 0, 2, 0, 0, 0, 0, 2, 1, 3, 1, 6,
    2, 8, 5, 6, 5,
];

/// Save 2 of X, of length 3.
pub(super) const OTHER_LENGTH: [u8; 33] = [
    0x42, 0x47, 0x53, 0x32, 1, 0, 0, 0, 0, 0, 0, 0, 1, 3, 1, 0, 0, 0, 2, 0, 0, 0, 0, 2, 1, 3, 1, 6,
    2, 8, 5, 6, 5,
];

/// The seat's save with an opening that may not be.
pub(super) const ILLEGAL_ENTRY: [u8; 32] = [
    0x42, 0x47, 0x53, 0x31, 1, 0, 0, 0, 0, 0, 0, 0, 1, 1, 0, 0, 0, 1, 1, 0, 2, 6, 2, 8, 5, 6, 5, 0,
    1, 1, 3, 3,
];

/// The seat's save with a length that may not be.
pub(super) const BAD_FIELD: [u8; 32] = [
    0x42, 0x47, 0x53, 0x31, 1, 0, 0, 0, 0, 0, 0, 0, 1, 0, 0, 0, 0, 1, 1, 0, 2, 6, 2, 8, 5, 6, 5, 0,
    1, 1, 3, 1,
];

pub(super) const AFTER_THE_MOVE: &str = "length 1 game 1 score 0-0 cube 1 middle crawford
  13  14  15  16  17  18  19  20  21  22  23  24
  X5   .   .   .  O3   .  O5   .   .   .   .  X2
  O5   .   .   .  X2   .  X4  X2   .   .   .  O2
  12  11  10   9   8   7   6   5   4   3   2   1
bar X 0 O 0 off X 0 O 0
O to roll
";

pub(super) const AFTER_THE_OPENING: &str = "length 1 game 1 score 0-0 cube 1 middle crawford
  13  14  15  16  17  18  19  20  21  22  23  24
  X5   .   .   .  O3   .  O5   .   .   .   .  X2
  O5   .   .   .  X3   .  X5   .   .   .   .  O2
  12  11  10   9   8   7   6   5   4   3   2   1
bar X 0 O 0 off X 0 O 0
X to move 3 1
";

/// What is shown has these lines and the board, and a file loads or none.
pub(super) fn check_shown(
    rt: &impl Abort,
    alloc: Global,
    shown: Result<(Vec<u8>, bool), AllocError>,
    lines: &str,
    board: &str,
    loads: bool,
) {
    let shown = shown.expect(rt, "memory");
    let text = text_of(&shown.0);
    let wanted = format!(in alloc; "{lines}{board}").expect(rt, "memory");
    check_told(rt, lines, text, wanted.as_str());
    check_row(rt, lines, shown.1 == loads);
}
