//! The Match ID of a standing.
ghost use Rattle.std.specs.Prelude.{◌≡◌, ◌≤◌, ◌+◌, ◌++◌};
ghost use Rattle.std.specs.List.{flat_map, sum_by};
ghost use Rattle.arrayvec.specs.ArrayVec.{array_vec_len};
ghost use Rattle.bg_ids.specs.MatchIds.{doublings as doublings_of, player_number as number_of_player};
ghost use Rattle.bg_ids.specs.MatchIds.{owner_number as number_of_owner, is_crawford as plays_crawford};
ghost use Rattle.bg_ids.specs.MatchIds.{stage_number as number_of_stage, is_doubled as answers_double};
ghost use Rattle.bg_ids.specs.MatchIds.{resigned_number as number_of_offer, dice_of as dice_in};
ghost use Rattle.bg_ids.specs.MatchIds.{greater_number as number_of_greater, lesser_number as number_of_lesser};
ghost use Rattle.bg_ids.specs.MatchIds.{field as number_in, width, field_bits, smaller_die, match_fields, match_text};

use crate::bits::{Bits, MOST_CHARACTERS, put_number, text_of};
use crate::turns::{on_roll, to_act};
use arrayvec::{ArrayString, ArrayVec};
use bg_board::Player;
use bg_match::{Level, Phase, Standing};
use bg_turns::Dice;
use std::fmt;

/// How many bytes a Match ID has.
const BYTES: usize = 9;

/// A number of a Match ID, and how many bits it has there.
#[derive(Clone, Copy)]
struct BitField {
    number: u16,
    width: u8,
}

/// The Match ID of a standing: all that it says but for the board.
#[derive(Clone, Copy, Debug, PartialEq, Eq)]
pub struct MatchId {
    text: ArrayString<MOST_CHARACTERS>,
}

impl MatchId {
    /// Returns the Match ID of a standing.
    pub fn of(standing: &Standing) -> MatchId
        ensures { result.text.bytes ≡ match_text standing.now }
    {
        let mut bits = ArrayVec::new();
        put_fields(&mut bits, &fields(standing));
        MatchId {
            text: text_of(&bits, BYTES),
        }
    }

    /// Returns its text, which has 12 characters.
    pub fn as_str(&self) -> &str
        ensures { result.now ≡ self.now.text.bytes }
    {
        self.text.as_str()
    }
}

impl fmt::Display for MatchId {
    ghost use Rattle.std.specs.Prelude.{Some};

    ghost output = { λ id. Some id.text.bytes };

    fn fmt<W: fmt::Write>(&self, f: &mut fmt::Formatter<W>) -> fmt::Result {
        f.write_str(self.as_str())
    }
}

/// Adds fields in their order.
fn put_fields(bits: &mut Bits, fields: &[BitField])
    requires { array_vec_len bits.old + sum_by width fields.now ≤ 80 }
    ensures { bits.new.items ≡ bits.old.items ++ flat_map field_bits fields.now }
{
    for field in fields {
        put_number(bits, field.number, field.width);
    }
}

/// Returns the fields in their order. The last says that the Jacoby rule is not used, which no
/// match has.
fn fields(standing: &Standing) -> [BitField; 14]
    ensures { result ≡ match_fields standing.now }
{
    let phase = standing.phase();
    let cube = standing.cube();
    let dice = dice_of(phase);
    let (x_score, o_score) = standing.score();
    [
        field(doublings(cube.value), 4),
        field(owner_number(cube.owner), 2),
        field(player_number(on_roll(phase)), 1),
        field(is_crawford(standing).into(), 1),
        field(stage_number(phase), 3),
        field(player_number(to_act(phase)), 1),
        field(is_doubled(phase).into(), 1),
        field(resigned_number(phase), 2),
        field(greater_number(dice), 3),
        field(lesser_number(dice), 3),
        field(standing.length().into(), 15),
        field(o_score, 15),
        field(x_score, 15),
        field(1, 1),
    ]
}

fn field(number: u16, width: u8) -> BitField
    ensures { result ≡ number_in number width }
{
    BitField { number, width }
}

/// Returns how often the cube was doubled, where it shows this.
pub(crate) fn doublings(value: u8) -> u16
    ensures { result ≡ doublings_of value }
{
    value.trailing_zeros() as u16
}

fn player_number(player: Player) -> u16
    ensures { result ≡ number_of_player player }
{
    match player {
        Player::O => 0,
        Player::X => 1,
    }
}

/// Returns whose the cube is; 3 in the middle.
fn owner_number(owner: Option<Player>) -> u16
    ensures { result ≡ number_of_owner owner }
{
    match owner {
        None => 3,
        Some(player) => player_number(player),
    }
}

/// Returns whether the game is the Crawford game. In a match of one point that is not told.
pub(crate) fn is_crawford(standing: &Standing) -> bool
    ensures { result ≡ plays_crawford standing.now }
{
    standing.crawford() && standing.length() > 1
}

/// Returns 0 for no game, 1 for a game that is played, and 2 for one that has ended.
fn stage_number(phase: Phase) -> u16
    ensures { result ≡ number_of_stage phase }
{
    match phase {
        Phase::Opening => 0,
        Phase::Over(_) => 2,
        _ => 1,
    }
}

/// Returns whether a double is answered.
fn is_doubled(phase: Phase) -> bool
    ensures { result ≡ answers_double phase }
{
    matches!(phase, Phase::Doubled(_))
}

/// Returns the level of an offer to resign; 0 where there is none.
fn resigned_number(phase: Phase) -> u16
    ensures { result ≡ number_of_offer phase }
{
    match phase {
        Phase::Resigned(_, Level::Normal, _) => 1,
        Phase::Resigned(_, Level::Gammon, _) => 2,
        Phase::Resigned(_, Level::Backgammon, _) => 3,
        _ => 0,
    }
}

/// Returns the dice that are still to be moved, where they were rolled.
fn dice_of(phase: Phase) -> Option<Dice>
    ensures { result ≡ dice_in phase }
{
    match phase {
        Phase::ToMove(_, dice) => Some(dice),
        Phase::Resigned(_, _, back) => back,
        _ => None,
    }
}

/// Returns the greater die; 0 where none was rolled.
fn greater_number(dice: Option<Dice>) -> u16
    ensures { result ≡ number_of_greater dice }
{
    match dice {
        None => 0,
        Some(dice) => dice.larger().pips().into(),
    }
}

/// Returns the lesser die; 0 where none was rolled.
fn lesser_number(dice: Option<Dice>) -> u16
    ensures { result ≡ number_of_lesser dice }
{
    match dice {
        None => 0,
        Some(dice) => smaller_pips(dice).into(),
    }
}

/// Returns what the die shows that shows less.
pub(crate) fn smaller_pips(dice: Dice) -> u8
    ensures { result ≡ smaller_die dice }
{
    dice.first.pips().min(dice.second.pips())
}
