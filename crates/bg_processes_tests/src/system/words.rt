//! What the words of rows say. A word that says nothing of the kind ends the test.
use crate::checks::check;
use crate::helpers::words::small_number;
use std::process::Abort;

/// The number that a word says.
pub(crate) fn number(rt: &impl Abort, word: &str) -> u64 {
    word.parse().expect(rt, "a number")
}

/// The port that a word says.
pub(crate) fn port(rt: &impl Abort, word: &str) -> u16 {
    word.parse().expect(rt, "a port")
}

fn push(rt: &impl Abort, bytes: &mut Vec<u8>, byte: u8) {
    check(rt, bytes.push(byte).is_ok(), "memory for a byte");
}

/// Adds the bytes of so many digits, two for each.
fn push_digits(rt: &impl Abort, bytes: &mut Vec<u8>, digits: &str) {
    let mut high = 0;
    for (place, digit) in digits.chars().enumerate() {
        let value = digit.to_digit(16).expect(rt, "a digit") as u8;
        if place % 2 == 0 {
            high = value << 4;
        } else {
            push(rt, bytes, high | value);
        }
    }
}

/// Adds the bytes of a word: "0b" is one, "0b*20" is it twenty times, and "-" is none.
fn push_word(rt: &impl Abort, bytes: &mut Vec<u8>, word: &str) {
    let (digits, times) = match word.split_once('*') {
        Some((digits, times)) => (digits, small_number(rt, times)),
        None => (word, u8::from(word != "-")),
    };
    for _ in 0..times {
        push_digits(rt, bytes, digits);
    }
}

/// The bytes of a word, which last as long as the process: what has nothing to drop is cheap to
/// prove.
pub(crate) fn bytes_of(rt: &(impl AllocGlobal + Abort), word: &str) -> &'static [u8] {
    bytes_of_both(rt, word, "-")
}

/// The bytes of a word, and behind them those of another.
pub(crate) fn bytes_of_both(
    rt: &(impl AllocGlobal + Abort),
    word: &str,
    other: &str,
) -> &'static [u8] {
    let mut bytes = Vec::new(rt.alloc());
    push_word(rt, &mut bytes, word);
    push_word(rt, &mut bytes, other);
    bytes.leak()
}
