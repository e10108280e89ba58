//! Numbers in texts.
ghost use Rattle.std.specs.Prelude.{◌≡◌, ◌<◌, ◌↔◌, ◌^◌, ℕ, List, Some, IsTrue, IfSome, MatchOption};
ghost use Rattle.std.specs.Fmt.{decimal};
ghost use Rattle.std.specs.Int.{IsInRange};
ghost use Rattle.bg_system.specs.Numbers.{BeginsWith};

use itoa::Buffer;

/// Returns whether a number is written with these digits: without a sign and without leading zeros.
fn is_written(digits: &str, number: u64) -> bool
    ensures { IsTrue result ↔ (digits.now ≡ decimal number) }
{
    let mut buffer = Buffer::new();
    buffer.format(number).as_bytes() == digits.as_bytes()
}

/// Reads the number that digits spell.
fn read_number(digits: &str) -> Option<u64>
    ensures only { IfSome result (λ number. digits.now ≡ decimal number) }
    ensures all { (n : ℕ) → n < 2 ^ 64 → digits.now ≡ decimal n → result ≡ Some n }
{
    let number = digits.parse::<u64>().ok()?;
    is_written(digits, number).then_some(number)
}

/// Splits off the number behind a word, where it is in the range `from` to `to`, and returns it
/// with what follows the mark that ends it. Returns `None` where the text doesn't begin so.
pub(crate) fn split_number<'a>(
    text: &'a str,
    word: &str,
    from: u64,
    to: u64,
    mark: char,
) -> Option<(u64, &'a str)>
    requires { mark < 48 }
    ensures only { IfSome result (λ found. IsInRange from to found.0
        × BeginsWith text.now word.now found.0 mark found.1.now) }
    ensures all { (n : ℕ) (rest : List ℕ) → IsInRange from to n → BeginsWith text.now word.now n mark rest
        → MatchOption result ⊥ (λ found. (found.0 ≡ n) × (found.1.now ≡ rest)) }
{
    let (digits, rest) = text.strip_prefix(word)?.split_once(mark)?;
    let number = read_number(digits)?;
    if number < from || to < number {
        return None;
    }
    Some((number, rest))
}
