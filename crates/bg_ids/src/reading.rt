//! Boards of Position IDs.
ghost use Rattle.std.specs.Prelude.{◌≡◌, ◌≤◌, ◌<◌, ◌+◌, ◌*◌, ◌++◌, ℕ, Bool, List, Ok, Some, length, sum};
ghost use Rattle.std.specs.Prelude.{IfOk, IfErr, IfSome, IfNone, IsTrue, ◌↔◌};
ghost use Rattle.std.specs.List.{flat_map};
ghost use Rattle.arrayvec.specs.ArrayVec.{array_vec_len};
ghost use Rattle.base64.specs.GeneralPurpose.{IsBytes};
ghost use Rattle.bg_board.specs.Position.{Position, IsPosition};
ghost use Rattle.bg_ids.specs.Bits.{number_bits};
ghost use Rattle.bg_ids.specs.PositionIds.{point_bits, side_bits, position_text, IsPositionIdFault};
ghost use Rattle.bg_ids.specs.PositionIds.{position_bits, IsOfTenBytes, HasBits};

use crate::PositionId;
use crate::bits::{Bits, MOST_CHARACTERS, put_number};
use arrayvec::ArrayVec;
use base64::engine::general_purpose::STANDARD_NO_PAD;
use bg_board::{BAR, Board, CHECKERS, Player};
use std::fmt;

/// How many points a side has, with the bar.
const SIDE_POINTS: u8 = BAR;

/// Why a text is not the Position ID of a board.
#[derive(Clone, Copy, Debug, PartialEq, Eq)]
pub enum PositionIdFault {
    /// It is not ten bytes in base64.
    NotTenBytes,
    /// It is ten bytes in base64, and no board has them.
    NoBoard,
}

impl fmt::Display for PositionIdFault {
    ghost use Rattle.std.specs.Prelude.{Some};
    ghost use Rattle.bg_ids.specs.PositionIds.{position_id_fault_words};

    ghost output = { λ fault. Some (position_id_fault_words fault) };

    fn fmt<W: fmt::Write>(&self, f: &mut fmt::Formatter<W>) -> fmt::Result {
        f.write_str(match self {
            PositionIdFault::NotTenBytes => "not ten bytes in base64",
            PositionIdFault::NoBoard => "no board has this ID",
        })
    }
}

impl std::error::Error for PositionIdFault {}

impl PositionId {
    /// Returns the board that has this Position ID, where this player is on roll.
    ///
    /// # Errors
    /// [`PositionIdFault::NotTenBytes`] where the text is not ten bytes in base64, and
    /// [`PositionIdFault::NoBoard`] where no board has it.
    pub fn board_of(text: &[u8], on_roll: Player) -> Result<Board, PositionIdFault>
        ensures value { IfOk result (λ board. text.now ≡ position_text board on_roll) }
        ensures only { (b : Position) → IsPosition b → text.now ≡ position_text b on_roll → result ≡ Ok b }
        ensures fault { IfErr result (λ fault. IsPositionIdFault fault text.now on_roll) }
    {
        let Some(bits) = bits_of(text) else {
            return Err(PositionIdFault::NotTenBytes);
        };
        let Some(board) = read_board(bits.as_slice(), on_roll) else {
            return Err(PositionIdFault::NoBoard);
        };
        if has_text(&board, on_roll, text) {
            Ok(board)
        } else {
            Err(PositionIdFault::NoBoard)
        }
    }
}

/// Returns whether this is the Position ID of a board.
fn has_text(board: &Board, on_roll: Player, text: &[u8]) -> bool
    ensures { IsTrue result ↔ (text.now ≡ position_text board.now on_roll) }
{
    PositionId::of_board(board, on_roll).as_str().as_bytes() == text
}

/// Returns the bits of ten bytes in base64.
fn bits_of(text: &[u8]) -> Option<Bits>
    ensures some { IfSome result (λ bits. HasBits text.now bits.items) }
    ensures none { IfNone result (IsOfTenBytes text.now → ⊥) }
{
    if text.len() != MOST_CHARACTERS {
        return None;
    }
    let mut bytes = [0; 12];
    match STANDARD_NO_PAD.decode_slice_unchecked(text, &mut bytes) {
        Ok(count) => {
            let mut bits = ArrayVec::new();
            put_bytes(&mut bits, &bytes[..count]);
            Some(bits)
        }
        Err(_) => None,
    }
}

/// Adds the bits of bytes.
fn put_bytes(bits: &mut Bits, bytes: &[u8])
    requires { array_vec_len bits.old + 8 * length bytes.now ≤ 80 }
    ensures items { bits.new.items ≡ bits.old.items ++ flat_map (number_bits 8) bytes.now }
    ensures small { IsBytes bytes.now }
{
    for byte in bytes {
        put_number(bits, u16::from(*byte), 8);
    }
}

/// Returns the board of the bits of a position, whatever follows them.
fn read_board(bits: &[bool], on_roll: Player) -> Option<Board>
    ensures { (b : Position) (rest : List Bool) → IsPosition b → bits.now ≡ position_bits b on_roll ++ rest
        → result ≡ Some b }
{
    let (other, used) = read_side(bits)?;
    let (own, _) = read_side(&bits[used..])?;
    match on_roll {
        Player::X => Board::from_counts(own, other),
        Player::O => Board::from_counts(other, own),
    }
    .ok()
}

/// Returns the checkers of a player by the bits of his side, and how many bits these are.
fn read_side(bits: &[bool]) -> Option<([u8; 26], usize)>
    ensures side { (counts : List ℕ) (rest : List Bool) → length counts ≡ 26 → sum counts ≡ 15
        → bits.now ≡ side_bits counts ++ rest → result ≡ Some (counts, length (side_bits counts)) }
    ensures room { IfSome result (λ read. read.1 ≤ length bits.now) }
{
    let mut counts = ArrayVec::new();
    let mut off = CHECKERS;
    let mut used = 0;
    for _ in 0..SIDE_POINTS {
        let count = ones(&bits[used..])?;
        off = off.checked_sub(count)?;
        counts.push(count);
        used += usize::from(count) + 1;
    }
    counts.insert(0, off);
    Some((counts.into_inner().ok()?, used))
}

/// Returns how many ones stand before the first zero, where these are at most fifteen.
fn ones(bits: &[bool]) -> Option<u8>
    ensures point { (n : ℕ) (rest : List Bool) → n ≤ 15 → bits.now ≡ point_bits n ++ rest → result ≡ Some n }
    ensures room { IfSome result (λ n. n < length bits.now) }
{
    for count in 0..CHECKERS + 1 {
        if !*bits.get(usize::from(count))? {
            return Some(count);
        }
    }
    None
}
