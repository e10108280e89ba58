//! The XGID of a standing.
ghost use Rattle.std.specs.Prelude.{◌≡◌, ◌<◌, ◌≤◌, ◌+◌, ◌++◌, length, IfOk, IfErr, IsOk, None, Some, ◌↔◌};
ghost use Rattle.std.specs.Fmt.{decimal};
ghost use Rattle.arrayvec.specs.ArrayString.{array_string_len};
ghost use Rattle.bg_ids.specs.Xgids.{place_mark as mark_at, places_text, owner_sign as sign_of_owner};
ghost use Rattle.bg_ids.specs.Xgids.{dice_sign, xgid_fault, xgid_text};
ghost use Rattle.bg_ids.specs.Xgids.{behind_colon, cube_text, turn_text, score_text, terms_text};

use crate::match_ids::{doublings, is_crawford, smaller_pips};
use crate::turns::on_roll;
use arrayvec::ArrayString;
use bg_board::{BAR, Board, OFF, Player};
use bg_match::{Cube, GREATEST_CUBE, Phase, Standing};
use itoa::Buffer;
use std::fmt;

/// Room for the characters of an XGID: five, 26 places, and nine fields of at most six with their
/// colons.
const MOST_CHARACTERS: usize = 85;

/// How many places an XGID has: the points and both bars.
const PLACES: u8 = 26;

/// Why a standing has no XGID.
#[derive(Clone, Copy, Debug, PartialEq, Eq)]
pub enum XgidFault {
    /// A game is to be opened, and nobody is on roll.
    NoGame,
    /// An offer to resign is to be answered, which an XGID has no sign for.
    Resigned,
    /// The match is over.
    Over,
}

impl fmt::Display for XgidFault {
    ghost use Rattle.std.specs.Prelude.{Some};
    ghost use Rattle.bg_ids.specs.Xgids.{xgid_fault_words};

    ghost output = { λ fault. Some (xgid_fault_words fault) };

    fn fmt<W: fmt::Write>(&self, f: &mut fmt::Formatter<W>) -> fmt::Result {
        f.write_str(match self {
            XgidFault::NoGame => "no game is open",
            XgidFault::Resigned => "an offer to resign is not told",
            XgidFault::Over => "the match is over",
        })
    }
}

impl std::error::Error for XgidFault {}

/// The XGID of a standing, with X as the player at the bottom.
#[derive(Clone, Copy, Debug, PartialEq, Eq)]
pub struct Xgid {
    text: ArrayString<MOST_CHARACTERS>,
}

impl Xgid {
    /// Returns the XGID of a standing.
    ///
    /// # Errors
    /// [`XgidFault::NoGame`] where a game is to be opened, [`XgidFault::Resigned`] while an offer
    /// to resign is answered, [`XgidFault::Over`] after the match.
    pub fn of(standing: &Standing) -> Result<Xgid, XgidFault>
        ensures ok { IsOk result ↔ (xgid_fault standing.now.phase ≡ None) }
        ensures value { IfOk result (λ id. id.text.bytes ≡ xgid_text standing.now) }
        ensures fault { IfErr result (λ fault. xgid_fault standing.now.phase ≡ Some fault) }
    {
        match fault_in(standing.phase()) {
            Some(fault) => Err(fault),
            None => Ok(Xgid {
                text: text_of(standing),
            }),
        }
    }

    /// Returns its text, which has 47 to 55 characters.
    pub fn as_str(&self) -> &str
        ensures { result.now ≡ self.now.text.bytes }
    {
        self.text.as_str()
    }
}

impl fmt::Display for Xgid {
    ghost use Rattle.std.specs.Prelude.{Some};

    ghost output = { λ id. Some id.text.bytes };

    fn fmt<W: fmt::Write>(&self, f: &mut fmt::Formatter<W>) -> fmt::Result {
        f.write_str(self.as_str())
    }
}

/// The text of an XGID, as it grows.
type Text = ArrayString<MOST_CHARACTERS>;

/// Returns why a standing in this phase has no XGID.
fn fault_in(phase: Phase) -> Option<XgidFault>
    ensures { result ≡ xgid_fault phase }
{
    match phase {
        Phase::Opening => Some(XgidFault::NoGame),
        Phase::Resigned(_, _, _) => Some(XgidFault::Resigned),
        Phase::Over(_) => Some(XgidFault::Over),
        _ => None,
    }
}

/// Returns the text of a standing that has one.
fn text_of(standing: &Standing) -> Text
    requires { xgid_fault standing.now.phase ≡ None }
    ensures { result.bytes ≡ xgid_text standing.now }
{
    let mut text = ArrayString::new();
    text.push_str("XGID=");
    put_places(&mut text, &standing.board());
    put_cube(&mut text, standing.cube());
    put_turn(&mut text, standing.phase());
    put_score(&mut text, standing.score());
    put_terms(&mut text, standing);
    text
}

/// Adds how often the cube was doubled, and whose it is.
#[tactic(auto, unfolding(crate::specs::Xgids::cube_text))]
fn put_cube(text: &mut Text, cube: Cube)
    requires { array_string_len text.old ≤ 31 }
    ensures bytes { text.new.bytes ≡ text.old.bytes ++ cube_text cube }
    ensures fits { array_string_len text.new ≤ array_string_len text.old + 12 }
{
    put_number(text, doublings(cube.value));
    put_sign(text, owner_sign(cube.owner));
}

/// Adds who is on roll, and the dice.
#[tactic(auto, unfolding(crate::specs::Xgids::turn_text))]
fn put_turn(text: &mut Text, phase: Phase)
    requires { array_string_len text.old ≤ 43 }
    ensures bytes { text.new.bytes ≡ text.old.bytes ++ turn_text phase }
    ensures fits { array_string_len text.new ≤ array_string_len text.old + 12 }
{
    put_sign(text, owner_sign(Some(on_roll(phase))));
    put_dice(text, phase);
}

/// Adds the score, that of X first.
#[tactic(auto, unfolding(crate::specs::Xgids::score_text))]
fn put_score(text: &mut Text, score: (u16, u16))
    requires { array_string_len text.old ≤ 55 }
    ensures bytes { text.new.bytes ≡ text.old.bytes ++ score_text score.0 score.1 }
    ensures fits { array_string_len text.new ≤ array_string_len text.old + 12 }
{
    put_number(text, score.0);
    put_number(text, score.1);
}

/// Adds whether the game is the Crawford game, the length of the match, and how often a cube can be
/// doubled.
#[tactic(auto, using(crate::proofs::Places::yes_byte), unfolding(crate::specs::Xgids::terms_text))]
fn put_terms(text: &mut Text, standing: &Standing)
    requires { array_string_len text.old ≤ 67 }
    ensures bytes { text.new.bytes ≡ text.old.bytes ++ terms_text standing.now }
{
    put_number(text, is_crawford(standing).into());
    put_number(text, standing.length().into());
    put_number(text, doublings(GREATEST_CUBE));
}

/// Adds the 26 places: the bar of O, the points of X from 1 to 24, and the bar of X.
fn put_places(text: &mut Text, board: &Board)
    requires { array_string_len text.old ≤ 5 }
    ensures bytes { text.new.bytes ≡ text.old.bytes ++ places_text board.now }
    ensures fits { array_string_len text.new ≤ array_string_len text.old + 26 }
{
    for place in 0..PLACES {
        text.push(char::from(place_mark(board, place)));
    }
}

/// Returns the sign of the checkers at a place.
fn place_mark(board: &Board, place: u8) -> u8
    requires { place ≤ 25 }
    ensures mark { result ≡ mark_at board.now place }
    ensures ascii { result < 128 }
{
    if place != OFF && board.count(Player::X, place) > 0 {
        b'@' + board.count(Player::X, place)
    } else if place != BAR && board.count(Player::O, BAR - place) > 0 {
        b'`' + board.count(Player::O, BAR - place)
    } else {
        b'-'
    }
}

/// Returns whose the cube is: 1 for X, -1 for O, 0 in the middle.
fn owner_sign(owner: Option<Player>) -> &'static str
    ensures sign { result.now ≡ sign_of_owner owner }
    ensures fits { length result.now ≤ 2 }
{
    match owner {
        None => "0",
        Some(Player::X) => "1",
        Some(Player::O) => "-1",
    }
}

/// Adds a sign behind a colon.
fn put_sign(text: &mut Text, sign: &str)
    requires room { array_string_len text.old ≤ 79 }
    requires short { length sign.now ≤ 5 }
    ensures bytes { text.new.bytes ≡ text.old.bytes ++ behind_colon sign.now }
    ensures fits { array_string_len text.new ≤ array_string_len text.old + 6 }
{
    text.push_str(":");
    text.push_str(sign);
}

/// Adds a number behind a colon.
fn put_number(text: &mut Text, number: u16)
    requires { array_string_len text.old ≤ 79 }
    ensures bytes { text.new.bytes ≡ text.old.bytes ++ behind_colon (decimal number) }
    ensures fits { array_string_len text.new ≤ array_string_len text.old + 6 }
{
    put_sign(text, Buffer::new().format(number));
}

/// Adds the dice behind a colon, the greater one first, or 00 before the roll, or D while a double
/// is answered.
fn put_dice(text: &mut Text, phase: Phase)
    requires { array_string_len text.old ≤ 79 }
    ensures bytes { text.new.bytes ≡ text.old.bytes ++ behind_colon (dice_sign phase) }
    ensures fits { array_string_len text.new ≤ array_string_len text.old + 6 }
{
    match phase {
        Phase::Doubled(_) => put_sign(text, "D"),
        Phase::ToMove(_, dice) => {
            put_number(
                text,
                u16::from(10 * dice.larger().pips() + smaller_pips(dice)),
            );
        }
        _ => put_sign(text, "00"),
    }
}
