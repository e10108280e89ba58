//! Numbers in paths and messages: plain decimal digits.
ghost use Rattle.std.specs.Prelude.{◌≡◌, ℕ, ◌^◌, ◌<◌, IfSome, IsSome};
ghost use Rattle.std.specs.Fmt.{decimal};

use itoa::Buffer;

/// Returns the number that these digits are, from 0 to 4294967295. Returns `None` if there is a
/// sign, or a zero before other digits.
pub(crate) fn number_of(digits: &str) -> Option<u32>
    ensures said { IfSome result (λ number. digits.now ≡ decimal number) }
    ensures total { (number : ℕ) → number < 2 ^ 32 → digits.now ≡ decimal number → IsSome result }
{
    let Ok(number) = digits.parse::<u32>() else {
        return None;
    };
    if Buffer::new().format(number) != digits {
        return None;
    }
    Some(number)
}
