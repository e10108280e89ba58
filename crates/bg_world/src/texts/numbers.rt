//! The numbers of event lines.
ghost use Rattle.std.specs.Prelude.{◌≡◌, ◌↔◌, IsTrue, MatchOption};
ghost use Rattle.std.specs.Str.Parse.{digits_value};
ghost use Rattle.std.specs.Fmt.{decimal};
ghost use Rattle.bg_world.specs.Texts.EventText.{IsLongNumeral};
ghost use Rattle.bg_world.specs.Texts.EventLines.{IsNumberUpTo};

use bg_text::TextFault;

/// The greatest number of digits of a number.
const MOST_DIGITS: usize = 10;

/// Returns the value of one to ten digits.
fn value_of(word: &[u8]) -> Option<u64>
    ensures { MatchOption result (IsLongNumeral word.now → ⊥)
        (λ value. IsLongNumeral word.now × (value ≡ digits_value 10 word.now)) }
{
    if word.is_empty() || word.len() > MOST_DIGITS {
        return None;
    }
    let mut value: u64 = 0;
    for byte in word {
        if !byte.is_ascii_digit() {
            return None;
        }
        value = value * 10 + u64::from(*byte - b'0');
    }
    Some(value)
}

/// Returns whether these digits are as their number is written: no zero stands before another one.
fn is_written(word: &[u8], number: u64) -> bool
    requires digits { IsLongNumeral word.now }
    requires value { number ≡ digits_value 10 word.now }
    ensures { IsTrue result ↔ (word.now ≡ decimal number) }
{
    word.len() == 1 || word[0] != b'0'
}

/// Reads the number, up to `most`, that one to ten digits write. A leading zero before another
/// digit is a wrong number.
pub(crate) fn read_up_to(word: &[u8], most: u64) -> Result<u64, TextFault>
    ensures { IsNumberUpTo most word.now result }
{
    let Some(value) = value_of(word) else {
        return Err(TextFault::NotALine);
    };
    if value > most {
        return Err(TextFault::BadNumber);
    }
    if is_written(word, value) {
        return Ok(value);
    }
    Err(TextFault::BadNumber)
}
