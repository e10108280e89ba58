//! A word of a movement, as in `24/18*/15` or `8/5(2)`.
ghost use Rattle.std.specs.Prelude.{◌≡◌, ◌≢◌, ◌+◌, ◌<◌, ◌≤◌, ◌++◌, [], ℕ, List, length, MatchOption, IfErr, IfOk, OnErr, OnOk, Err, false, true};
ghost use Rattle.bg_mat.specs.Legs.{AddsLegs, IsCounted, IsPointText, TellsLeg, TellsLegs, TellsPath, TellsWord};
ghost use Rattle.bg_mat.specs.Legs.{BeginsSlash, IsBracketed, IsPart, RefusesLegs, mark, repeated};
ghost use Rattle.bg_mat.specs.declared.movements.legs.Leg.{Leg as LegOf};

use crate::rows::headings::front_before;
use crate::rows::numbers::read_number;
use arrayvec::ArrayVec;
use bg_board::{BAR, OFF, Step};

/// A part of a movement: one checker moves from a point to a lower one, with one die or several,
/// and may hit there.
#[derive(Clone, Copy, Debug, PartialEq, Eq)]
pub struct Leg {
    /// The points, in the player's own numbering.
    pub step: Step,
    /// Whether a hit is marked on the point where the leg ends.
    pub hits: bool,
}

/// The default is the leg from 1 to 0, which fills the spare places of a list of legs.
impl Default for Leg {
    fn default() -> Self {
        Leg {
            step: Step::default(),
            hits: false,
        }
    }
}

/// The legs of a movement, in the order in which they are written, at most four.
pub type Legs = ArrayVec<Leg, 4>;

/// Why a word can't be added to a movement.
#[derive(Clone, Copy, Debug, PartialEq, Eq)]
pub enum LegFault {
    /// The word has another shape.
    NotAMovement,
    /// The word describes legs, but with them the movement has more than four.
    TooMany,
}

/// Returns the point that a word names, from 0 to 25.
fn read_point(word: &[u8]) -> Option<u8>
    ensures { MatchOption result ((point : ℕ) → point ≤ 25 → IsPointText word.now point → ⊥) (IsPointText word.now) }
{
    if word.eq_ignore_ascii_case(b"bar") {
        return Some(BAR);
    }
    if word.eq_ignore_ascii_case(b"off") {
        return Some(OFF);
    }
    let number = read_number(word)?;
    if number <= u16::from(BAR) {
        Some(number as u8)
    } else {
        None
    }
}

/// Returns a word without the mark of a hit at its end, and whether it has one.
fn split_mark(word: &[u8]) -> (&[u8], bool)
    ensures marked { word.now ≡ result.0.now ++ mark result.1 }
    ensures none { result.1 ≡ false → (point : List ℕ) → word.now ≡ point ++ mark true → ⊥ }
{
    match front_before(word, b"*") {
        Some(point) => (point, true),
        None => (word, false),
    }
}

/// Returns the leg from a point to the one that a word names.
fn read_leg(from: u8, word: &[u8]) -> Option<Leg>
    ensures { MatchOption result ((leg : LegOf) → TellsLeg from word.now leg → ⊥) (TellsLeg from word.now) }
{
    let (point, hits) = split_mark(word);
    let Some(to) = read_point(point) else {
        return None;
    };
    let Some(step) = Step::new(from, to) else {
        return None;
    };
    Some(Leg { step, hits })
}

/// Returns the bytes of a text before its first slash, and what follows them.
fn split_slash(text: &[u8]) -> (&[u8], &[u8])
    ensures { IsPart result.0.now × (text.now ≡ result.0.now ++ result.1.now) × BeginsSlash result.1.now }
{
    match text.iter().position(|byte| *byte == b'/') {
        Some(end) => (&text[..end], &text[end..]),
        None => (text, &[]),
    }
}

/// Appends the legs that a text describes from a point on, each behind a slash.
fn add_legs(legs: &mut Legs, from: u8, text: &[u8]) -> Result<(), LegFault>
    ensures added { OnOk result (AddsLegs (TellsLegs from text.now) legs.old.items legs.new.items) }
    ensures fault { IfErr result (RefusesLegs (TellsLegs from text.now) legs.old.items) }
{
    if text.is_empty() {
        return Ok(());
    }
    let Some(text) = text.strip_prefix(b"/") else {
        return Err(LegFault::NotAMovement);
    };
    let (word, rest) = split_slash(text);
    let Some(leg) = read_leg(from, word) else {
        return Err(LegFault::NotAMovement);
    };
    let to = leg.step.to();
    if legs.is_full() {
        add_legs(legs, to, rest)?;
        return Err(LegFault::TooMany);
    }
    legs.push(leg);
    add_legs(legs, to, rest)
}

/// Reads the legs that one checker moves.
fn read_path(text: &[u8]) -> Result<Legs, LegFault>
    ensures told { IfOk result (λ legs. TellsPath text.now legs.items) }
    ensures fault { IfErr result (RefusesLegs (TellsPath text.now) []) }
{
    let (start, rest) = split_slash(text);
    let Some(from) = read_point(start) else {
        return Err(LegFault::NotAMovement);
    };
    let mut legs = ArrayVec::new();
    add_legs(&mut legs, from, rest)?;
    if legs.is_empty() {
        return Err(LegFault::NotAMovement);
    }
    Ok(legs)
}

/// Returns the path of a word, and the number of checkers that take it: 2 where `(2)` follows the
/// path, and 1 where nothing does.
fn split_count(word: &[u8]) -> (&[u8], u8)
    ensures counted { IsCounted word.now result.0.now result.1 }
    ensures bracketed { (path : List ℕ) (count : ℕ) → IsBracketed word.now path count
        → IsBracketed word.now result.0.now result.1 }
{
    match word {
        [path @ .., b'(', count @ b'1'..=b'4', b')'] => (path, count - b'0'),
        _ => (word, 1),
    }
}

/// Appends these legs `count` times.
fn add_times(legs: &mut Legs, path: &[Leg], count: u8) -> Result<(), LegFault>
    ensures added { OnOk result (legs.new.items ≡ legs.old.items ++ repeated count path.now) }
    ensures fault { result ≢ Err LegFault.NotAMovement }
    ensures many { OnErr result (4 < length legs.old.items + length (repeated count path.now)) }
{
    if count == 0 {
        return Ok(());
    }
    if legs.try_extend_from_slice(path).is_err() {
        return Err(LegFault::TooMany);
    }
    add_times(legs, path, count - 1)
}

/// Appends the legs that a word of a movement describes (docs/FORMATS.md,
/// "Match files of other programs"). Such words are `24/18*/15`, `8/5(2)`, `bar/20` and `6/off`.
///
/// # Errors
/// `NotAMovement` where the word describes no legs; then nothing is appended. `TooMany` where with
/// its legs there are more than four; some of them may have been appended.
pub fn add_word(legs: &mut Legs, word: &[u8]) -> Result<(), LegFault>
    ensures added { OnOk result (AddsLegs (TellsWord word.now) legs.old.items legs.new.items) }
    ensures same { result ≡ Err LegFault.NotAMovement → legs.new ≡ legs.old }
    ensures fault { IfErr result (RefusesLegs (TellsWord word.now) legs.old.items) }
{
    let (path, count) = split_count(word);
    let path = read_path(path)?;
    add_times(legs, path.as_slice(), count)
}
