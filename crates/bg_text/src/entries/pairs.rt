//! The pairs of a move, and the numbers of two dice.
ghost use Rattle.std.specs.Prelude.{◌≡◌, ◌≤◌, ◌+◌, ℕ, Ok, List, [], ◌∷◌, ◌++◌, length, IfSome};
ghost use Rattle.std.specs.Prelude.{MatchResult};
ghost use Rattle.std.specs.List.{AllByRecursion};
ghost use Rattle.bg_board.specs.Die.{pips};
ghost use Rattle.bg_text.specs.Entries.Words.{words_of};
ghost use Rattle.bg_text.specs.Entries.EntryText.{dice_words};
ghost use Rattle.bg_text.specs.Entries.EntryShape.{IsPairShape};
ghost use Rattle.bg_text.specs.Entries.Pairs.{both_of, turn_or, IsNumberOf, IsPointOf, IsSourceOf, IsTargetOf};
ghost use Rattle.bg_text.specs.Entries.Pairs.{IsPairOf, IsTurnOf, IsDiceFault};

use crate::TextFault;
use crate::entries::words::{Pieces, halves};
use bg_board::{BAR, Die, OFF, Step};
use bg_turns::Turn;

/// Reads the turn that the pairs of a move spell, separated by single spaces. A wrong number takes
/// precedence over too many steps.
pub(crate) fn read_turn(pairs: &[u8]) -> Result<Turn, TextFault>
    ensures { IsTurnOf (words_of pairs.now) result }
{
    let mut words = Pieces::new(pairs, b' ');
    let mut turn = Turn::new();
    let mut fault = None;
    while let Some(word) = words.next_piece() {
        match read_pair(word) {
            Ok(step) => fault = add_step(&mut turn, fault, step),
            Err(TextFault::NotALine) => return Err(TextFault::NotALine),
            Err(TextFault::BadNumber) => fault = Some(TextFault::BadNumber),
            // no single pair is too many
            Err(TextFault::TooManySteps) => fault = Some(TextFault::TooManySteps),
        }
    }
    match fault {
        Some(why) => Err(why),
        None => Ok(turn),
    }
}

/// Appends the step of one more pair to a turn, unless an earlier pair has a fault. Returns the
/// fault of all these pairs, if there is one.
fn add_step(turn: &mut Turn, fault: Option<TextFault>, step: Step) -> Option<TextFault>
    requires { length turn.old ≤ 4 }
    ensures turn { (pairs : List (List ℕ)) (pair : List ℕ) → AllByRecursion IsPairShape pairs
        → IsTurnOf pairs (turn_or fault turn.old) → IsPairOf pair (Ok step)
        → IsTurnOf (pairs ++ pair ∷ []) (turn_or result turn.new) }
    ensures few { length turn.new ≤ 4 }
{
    if fault.is_some() {
        return fault;
    }
    if turn.is_full() {
        return Some(TextFault::TooManySteps);
    }
    turn.push(step);
    None
}

/// Reads the step of a pair.
fn read_pair(word: &[u8]) -> Result<Step, TextFault>
    ensures { IsPairOf word.now result }
{
    let Some((start, end)) = halves(word, b'-') else {
        return Err(TextFault::NotALine);
    };
    let (from, to) = both(read_source(start), read_target(end))?;
    match Step::new(from, to) {
        Some(step) => Ok(step),
        None => Err(TextFault::BadNumber),
    }
}

/// Reads the point where a step begins, 25 for the bar.
fn read_source(word: &[u8]) -> Result<u8, TextFault>
    ensures { IsSourceOf word.now result }
{
    match word {
        b"bar" => Ok(BAR),
        _ => read_point(word),
    }
}

/// Reads the point where a step ends, 0 for off.
fn read_target(word: &[u8]) -> Result<u8, TextFault>
    ensures { IsTargetOf word.now result }
{
    match word {
        b"off" => Ok(OFF),
        _ => read_point(word),
    }
}

/// Reads the point that a numeral names, 1 to 24.
fn read_point(word: &[u8]) -> Result<u8, TextFault>
    ensures { IsPointOf word.now result }
{
    let number = read_two_digits(word)?;
    if number < BAR {
        Ok(number)
    } else {
        Err(TextFault::BadNumber)
    }
}

/// Returns both numbers, or the graver of the faults: a wrong shape of one word takes precedence
/// over a wrong number in the other.
fn both(first: Result<u8, TextFault>, second: Result<u8, TextFault>) -> Result<(u8, u8), TextFault>
    ensures { result ≡ both_of first second }
{
    match (first, second) {
        (Err(TextFault::NotALine), _) | (_, Err(TextFault::NotALine)) => Err(TextFault::NotALine),
        (first, second) => Ok((first?, second?)),
    }
}

/// Returns the die that a digit names.
fn die_of(digit: u8) -> Option<Die>
    ensures { IfSome result (λ die. digit ≡ 48 + pips die) }
{
    Die::new(digit.checked_sub(b'0')?)
}

/// Reads the dice that two digits name, separated by one space.
fn read_digits(numbers: &[u8]) -> Option<(Die, Die)>
    ensures { IfSome result (λ dice. words_of numbers.now ≡ dice_words dice.0 dice.1) }
{
    match numbers {
        [first, b' ', second] => Some((die_of(*first)?, die_of(*second)?)),
        _ => None,
    }
}

/// Reads the dice that two numbers name, separated by one space.
pub(crate) fn read_dice(numbers: &[u8]) -> Result<(Die, Die), TextFault>
    ensures { MatchResult result (λ dice. words_of numbers.now ≡ dice_words dice.0 dice.1)
        (λ fault. IsDiceFault fault (words_of numbers.now)) }
{
    if let Some(dice) = read_digits(numbers) {
        return Ok(dice);
    }
    let Some((first, second)) = halves(numbers, b' ') else {
        return Err(TextFault::NotALine);
    };
    let (first, second) = both(read_two_digits(first), read_two_digits(second))?;
    match (Die::new(first), Die::new(second)) {
        (Some(first), Some(second)) => Ok((first, second)),
        _ => Err(TextFault::BadNumber),
    }
}

/// Reads the number, 1 to 99, that one or two digits spell. A leading zero is a wrong number, as
/// is 0.
pub(crate) fn read_two_digits(word: &[u8]) -> Result<u8, TextFault>
    ensures { IsNumberOf word.now result }
{
    match word {
        [b'0'] | [b'0', b'0'..=b'9'] => Err(TextFault::BadNumber),
        [ones @ b'1'..=b'9'] => Ok(ones - b'0'),
        [tens @ b'1'..=b'9', ones @ b'0'..=b'9'] => Ok(10 * (tens - b'0') + (ones - b'0')),
        _ => Err(TextFault::NotALine),
    }
}
