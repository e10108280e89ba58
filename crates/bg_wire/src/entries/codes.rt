//! The codes and ranges that all layouts share (docs/FORMATS.md, "Entries and actions in bytes").
//! An action has the code of the entry that answers it.
use bg_match::Number;

/// An opening of a game: X's die and O's die follow.
pub(crate) const OPENING: u8 = 1;
/// A roll: of an entry the first die and the second die follow, of an action nothing.
pub(crate) const ROLLED: u8 = 2;
/// A double.
pub(crate) const DOUBLED: u8 = 3;
/// A double is taken.
pub(crate) const TAKEN: u8 = 4;
/// A double is dropped.
pub(crate) const DROPPED: u8 = 5;
/// A turn: the count of its steps follows, then from and to of each.
pub(crate) const MOVED: u8 = 6;
/// An offer to resign: its level follows.
pub(crate) const RESIGNED: u8 = 7;
/// An offer to resign is accepted.
pub(crate) const ACCEPTED: u8 = 8;
/// An offer to resign is rejected.
pub(crate) const REJECTED: u8 = 9;
/// A turn is passed, which answers no action.
pub(crate) const PASSED: u8 = 10;

/// The level of a normal win.
pub(crate) const NORMAL: u8 = 1;
/// The level of a gammon.
pub(crate) const GAMMON: u8 = 2;
/// The level of a backgammon.
pub(crate) const BACKGAMMON: u8 = 3;

/// The least number that a die shows.
pub(crate) const LEAST_PIPS: u8 = 1;
/// The greatest number that a die shows.
pub(crate) const MOST_PIPS: u8 = 6;
/// The lowest point where a step begins.
pub(crate) const LOWEST_START: u8 = 1;
/// The highest point where a step begins, which is the bar.
pub(crate) const BAR: u8 = 25;
/// The greatest number of steps of a turn.
pub(crate) const MOST_STEPS: u8 = 4;

/// The number of the first entry of a match.
pub(crate) const FIRST_ENTRY: Number = 1;

/// The first rules of a match.
pub(crate) const RULES_ONE: u8 = 1;
/// The second rules of a match.
pub(crate) const RULES_TWO: u8 = 2;
