//! Bits, and the text of an identifier made of them.
ghost use Rattle.std.specs.Prelude.{◌≡◌, ◌≤◌, ◌+◌, ◌++◌, length};
ghost use Rattle.arrayvec.specs.ArrayVec.{array_vec_len};
ghost use Rattle.bg_ids.specs.Bits.{number_bits, bits_number, bits_bytes, bits_text};

use arrayvec::{ArrayString, ArrayVec};
use base64::engine::general_purpose::STANDARD_NO_PAD;
use std::str;

/// The greatest number of bits in an identifier.
const MOST_BITS: usize = 80;

/// The number of bits in a byte.
const BYTE_BITS: usize = 8;

/// The greatest number of bytes in an identifier.
const MOST_BYTES: usize = 10;

/// The greatest number of characters in an identifier of bits.
pub(crate) const MOST_CHARACTERS: usize = 14;

/// The bits of an identifier, in their order.
pub(crate) type Bits = ArrayVec<bool, MOST_BITS>;

/// Appends a number as `width` bits, the lowest first.
pub(crate) fn put_number(bits: &mut Bits, number: u16, width: u8)
    requires { array_vec_len bits.old + width ≤ 80 }
    ensures items { bits.new.items ≡ bits.old.items ++ number_bits width number }
    ensures len { array_vec_len bits.new ≡ array_vec_len bits.old + width }
{
    let mut rest = number;
    for _ in 0..width {
        bits.push(rest % 2 == 1);
        rest /= 2;
    }
}

/// Returns the number with these bits, at most eight, the lowest first.
fn byte_of(bits: &[bool]) -> u8
    requires { length bits.now ≤ 8 }
    ensures { result ≡ bits_number bits.now }
{
    let mut number = 0;
    let mut weight = 1;
    for bit in bits {
        number += weight * u16::from(*bit);
        weight *= 2;
    }
    number as u8
}

/// Returns `count` bytes of the bits, with zeros where the bits run out.
fn bytes_of(bits: &Bits, count: usize) -> ArrayVec<u8, MOST_BYTES>
    requires { count ≤ 10 }
    ensures { result.items ≡ bits_bytes count bits.now.items }
{
    let mut bytes = ArrayVec::new();
    let mut rest = bits.as_slice();
    for _ in 0..count {
        let (front, back) = rest.split_at(BYTE_BITS.min(rest.len()));
        bytes.push(byte_of(front));
        rest = back;
    }
    bytes
}

/// Returns the text of `count` bytes of the bits.
pub(crate) fn text_of(bits: &Bits, count: usize) -> ArrayString<MOST_CHARACTERS>
    requires { count ≤ 10 }
    ensures { result.bytes ≡ bits_text count bits.now.items }
{
    let bytes = bytes_of(bits, count);
    let mut symbols = [0; MOST_CHARACTERS];
    let len = STANDARD_NO_PAD
        .encode_slice(bytes.as_slice(), &mut symbols)
        .unwrap();
    let text = str::from_utf8(&symbols[..len]).unwrap();
    ArrayString::from(text).unwrap()
}
