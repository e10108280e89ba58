//! The text of a double.
ghost use Rattle.std.specs.Prelude.{◌≡◌, ◌++◌, ℕ, List, Option, MatchOption};
ghost use Rattle.bg_mat.specs.Rows.Cells.{BeginsArrow, EndsName, IsNameText, SaysDouble, TellsDouble};
ghost use Rattle.bg_mat.specs.Rows.Cells.{ends_name as ends_name_byte};

use crate::rows::numbers::read_number;
use crate::rows::words::{is_blank, is_either, split_blanks, split_word};

/// Returns whether a byte ends the name of an action: a blank, or an equals sign.
fn ends_name(byte: u8) -> bool
    ensures { result ≡ ends_name_byte byte }
{
    is_blank(byte) || byte == b'='
}

/// Returns the bytes of a text before the first one that ends a name, and what follows them.
fn split_name(text: &[u8]) -> (&[u8], &[u8])
    ensures { IsNameText result.0.now × (text.now ≡ result.0.now ++ result.1.now) × EndsName result.1.now }
{
    match text.iter().position(|byte| ends_name(*byte)) {
        Some(end) => (&text[..end], &text[end..]),
        None => (text, &[]),
    }
}

/// Returns what follows the word `Double` or `Doubles` at the start of a text.
fn skip_double(text: &[u8]) -> Option<&[u8]>
    ensures { MatchOption result ((rest : List ℕ) → SaysDouble text.now rest → ⊥)
        (λ rest. SaysDouble text.now rest.now) }
{
    let (word, rest) = split_name(split_blanks(text).1);
    if is_either(word, b"Double", b"Doubles") {
        Some(rest)
    } else {
        None
    }
}

/// Returns what follows an arrow, as in `=>`, at the start of a text.
fn skip_arrow(text: &[u8]) -> Option<&[u8]>
    ensures { MatchOption result ((rest : List ℕ) → BeginsArrow text.now rest → ⊥)
        (λ rest. BeginsArrow text.now rest.now) }
{
    split_blanks(text).1.strip_prefix(b"=>")
}

/// Reads the double that a text begins with. Returns the new value of the cube where the file
/// states it, and what follows.
pub(crate) fn split_double(text: &[u8]) -> Option<(Option<u16>, &[u8])>
    ensures { MatchOption result ((shows : Option ℕ) (rest : List ℕ) → TellsDouble text.now shows rest → ⊥)
        (λ found. TellsDouble text.now found.0 found.1.now) }
{
    let rest = skip_double(text)?;
    let Some(behind) = skip_arrow(rest) else {
        return Some((None, rest));
    };
    let (number, rest) = split_word(behind)?;
    Some((Some(read_number(number)?), rest))
}
