//! Keys in hexadecimal digits.
ghost use Rattle.std.specs.Prelude.{◌≡◌, ◌↔◌, ◌++◌, ℕ, List, Some, IfSome, IsTrue, length, codes};
ghost use Rattle.hex.specs.Hex.{IsBytes, encode_lower};

use bg_seals::KEY_BYTES;
use hex::FromHex;

/// Number of digits of a key.
pub(crate) const KEY_DIGITS: usize = 2 * KEY_BYTES;

/// Returns the digits of a key: two for each byte, in lower case.
pub(crate) fn digits_of(key: &[u8; KEY_BYTES]) -> [u8; KEY_DIGITS]
    ensures { result ≡ encode_lower key.now }
{
    let mut digits = [0; KEY_DIGITS];
    hex::encode_to_slice(key, &mut digits).unwrap();
    digits
}

/// Returns whether these are the digits of a key.
fn are_digits_of(digits: &str, key: &[u8; KEY_BYTES]) -> bool
    ensures { IsTrue result ↔ (digits.now ≡ encode_lower key.now) }
{
    digits.as_bytes() == digits_of(key).as_slice()
}

/// Returns the key that a text of its digits and a line feed encodes; `None` for any other text.
pub(crate) fn key_in(text: &str) -> Option<[u8; KEY_BYTES]>
    ensures bytes { IfSome result IsBytes }
    ensures only { IfSome result (λ key. text.now ≡ encode_lower key ++ codes "\n") }
    ensures all { (key : List ℕ) → length key ≡ KEY_BYTES → IsBytes key → text.now ≡ encode_lower key ++ codes "\n"
        → result ≡ Some key }
{
    let digits = text.strip_suffix('\n')?;
    let key = <[u8; KEY_BYTES]>::from_hex(digits).ok()?;
    are_digits_of(digits, &key).then_some(key)
}
