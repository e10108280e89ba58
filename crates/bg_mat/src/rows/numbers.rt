//! Numbers of up to four digits.
ghost use Rattle.std.specs.Prelude.{ℕ, MatchOption};
ghost use Rattle.bg_mat.specs.Rows.Numbers.{IsNumber};

/// The greatest number of digits in a number.
const MOST_DIGITS: usize = 4;

/// Reads a number from a word of one to four digits.
pub(crate) fn read_number(word: &[u8]) -> Option<u16>
    ensures { MatchOption result ((n : ℕ) → IsNumber word.now n → ⊥) (λ number. IsNumber word.now number) }
{
    if word.is_empty() || word.len() > MOST_DIGITS {
        return None;
    }
    let mut value: u16 = 0;
    for byte in word {
        if !byte.is_ascii_digit() {
            return None;
        }
        value = value * 10 + u16::from(*byte - b'0');
    }
    Some(value)
}
