//! The Position ID of a board.
ghost use Rattle.std.specs.Prelude.{◌≡◌, ◌≤◌, ◌<◌, ◌+◌, ◌++◌, length, sum};
ghost use Rattle.std.specs.List.{flat_map};
ghost use Rattle.arrayvec.specs.ArrayVec.{array_vec_len};
ghost use Rattle.bg_ids.specs.PositionIds.{point_bits, side_bits, position_text};
ghost use Rattle.bg_ids.specs.Turns.{on_roll as player_on_roll};

use crate::bits::{Bits, MOST_CHARACTERS, text_of};
use crate::turns::on_roll;
use arrayvec::{ArrayString, ArrayVec};
use bg_board::{Board, Player};
use bg_match::Standing;
use std::fmt;

/// How many bytes a Position ID has.
const BYTES: usize = 10;

/// The Position ID of a board: the checkers of both players, as the player on roll sees them. It
/// does not tell who that is.
#[derive(Clone, Copy, Debug, PartialEq, Eq)]
pub struct PositionId {
    text: ArrayString<MOST_CHARACTERS>,
}

impl PositionId {
    /// Returns the Position ID of the board of a standing.
    pub fn of(standing: &Standing) -> PositionId
        ensures { result.text.bytes ≡ position_text standing.now.board (player_on_roll standing.now.phase) }
    {
        PositionId::of_board(&standing.board(), on_roll(standing.phase()))
    }

    /// Returns the Position ID of a board, where this player is on roll.
    pub fn of_board(board: &Board, on_roll: Player) -> PositionId
        ensures { result.text.bytes ≡ position_text board.now on_roll }
    {
        let mut bits = ArrayVec::new();
        put_side(&mut bits, board.checkers(on_roll.opponent()));
        put_side(&mut bits, board.checkers(on_roll));
        PositionId {
            text: text_of(&bits, BYTES),
        }
    }

    /// Returns its text, which has 14 characters.
    pub fn as_str(&self) -> &str
        ensures { result.now ≡ self.now.text.bytes }
    {
        self.text.as_str()
    }
}

impl fmt::Display for PositionId {
    ghost use Rattle.std.specs.Prelude.{Some};

    ghost output = { λ id. Some id.text.bytes };

    fn fmt<W: fmt::Write>(&self, f: &mut fmt::Formatter<W>) -> fmt::Result {
        f.write_str(self.as_str())
    }
}

/// Adds the points of a player, from his 1 to his bar.
fn put_side(bits: &mut Bits, counts: &[u8])
    requires points { length counts.now ≡ 26 }
    requires room { array_vec_len bits.old ≤ 40 }
    requires fifteen { sum counts.now ≡ 15 }
    ensures items { bits.new.items ≡ bits.old.items ++ side_bits counts.now }
    ensures len { array_vec_len bits.new ≤ array_vec_len bits.old + 40 }
{
    put_points(bits, &counts[1..]);
}

/// Adds points in their order.
fn put_points(bits: &mut Bits, counts: &[u8])
    requires { array_vec_len bits.old + length counts.now + sum counts.now ≤ 80 }
    ensures items { bits.new.items ≡ bits.old.items ++ flat_map point_bits counts.now }
    ensures len { array_vec_len bits.new ≡ array_vec_len bits.old + length counts.now + sum counts.now }
{
    for count in counts {
        put_point(bits, *count);
    }
}

/// Adds the checkers on a point.
fn put_point(bits: &mut Bits, count: u8)
    requires { array_vec_len bits.old + count < 80 }
    ensures items { bits.new.items ≡ bits.old.items ++ point_bits count }
    ensures len { array_vec_len bits.new ≡ array_vec_len bits.old + count + 1 }
{
    for _ in 0..count {
        bits.push(true);
    }
    bits.push(false);
}
