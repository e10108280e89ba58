//! The words of a line: its longest runs of bytes that are not blank.
ghost use Rattle.std.specs.Prelude.{◌≡◌, ◌↔◌, ◌++◌, ℕ, List, IsTrue, MatchOption};
ghost use Rattle.bg_mat.specs.Rows.Words.{is_blank as is_blank_byte, leading_blanks, BeginsSolid, EndsWord};
ghost use Rattle.bg_mat.specs.Rows.Words.{IsBlankText};
ghost use Rattle.bg_mat.specs.Rows.Words.{IsEither, IsFirstWord, IsSolid, Says, SaysEither};
ghost use Rattle.bg_mat.specs.Rows.Headings.{IsPoints};

/// Returns whether a byte is blank: a space, a tab, or the carriage return before a line feed.
pub(crate) fn is_blank(byte: u8) -> bool
    ensures { result ≡ is_blank_byte byte }
{
    byte == b' ' || byte == b'\t' || byte == b'\r'
}

/// Returns the blanks that a text begins with, and what follows them.
pub(crate) fn split_blanks(text: &[u8]) -> (&[u8], &[u8])
    ensures { IsBlankText result.0.now × (text.now ≡ result.0.now ++ result.1.now) × BeginsSolid result.1.now }
{
    match text.iter().position(|byte| !is_blank(*byte)) {
        Some(end) => (&text[..end], &text[end..]),
        None => (text, &[]),
    }
}

/// Returns the number of blanks that a text begins with.
pub(crate) fn count_blanks(text: &[u8]) -> usize
    ensures { result ≡ leading_blanks text.now }
{
    split_blanks(text).0.len()
}

/// Returns the bytes of a text before its first blank, and what follows them.
fn split_solid(text: &[u8]) -> (&[u8], &[u8])
    ensures { IsSolid result.0.now × (text.now ≡ result.0.now ++ result.1.now) × EndsWord result.1.now }
{
    match text.iter().position(|byte| is_blank(*byte)) {
        Some(end) => (&text[..end], &text[end..]),
        None => (text, &[]),
    }
}

/// Returns the first word of a text, and what follows it. A word is one of the longest runs of
/// bytes other than space, tab and carriage return. `None` where the text is blank.
pub fn split_word(text: &[u8]) -> Option<(&[u8], &[u8])>
    ensures { MatchOption result (IsBlankText text.now) (λ parts. IsFirstWord text.now parts.0.now parts.1.now) }
{
    let (_, text) = split_blanks(text);
    if text.is_empty() {
        return None;
    }
    Some(split_solid(text))
}

/// Returns whether a text has no word.
pub(crate) fn is_blank_text(text: &[u8]) -> bool
    ensures { IsTrue result ↔ IsBlankText text.now }
{
    split_blanks(text).1.is_empty()
}

/// Returns what follows the first word of a text, where that is the expected one, ignoring case.
pub(crate) fn skip_word<'a>(text: &'a [u8], expected: &[u8]) -> Option<&'a [u8]>
    ensures { MatchOption result ((rest : List ℕ) → Says text.now expected.now rest → ⊥)
        (λ rest. Says text.now expected.now rest.now) }
{
    let Some((word, rest)) = split_word(text) else {
        return None;
    };
    if word.eq_ignore_ascii_case(expected) {
        Some(rest)
    } else {
        None
    }
}

/// Returns what follows the first word of a text, where that is one of these two, ignoring case.
pub(crate) fn skip_either<'a>(text: &'a [u8], one: &[u8], other: &[u8]) -> Option<&'a [u8]>
    ensures { MatchOption result ((rest : List ℕ) → SaysEither text.now one.now other.now rest → ⊥)
        (λ rest. SaysEither text.now one.now other.now rest.now) }
{
    match skip_word(text, one) {
        Some(rest) => Some(rest),
        None => skip_word(text, other),
    }
}

/// Returns whether a word is one of these two, ignoring case.
pub(crate) fn is_either(word: &[u8], one: &[u8], other: &[u8]) -> bool
    ensures { IsTrue result ↔ IsEither word.now one.now other.now }
{
    word.eq_ignore_ascii_case(one) || word.eq_ignore_ascii_case(other)
}

/// Returns whether a word is `point` or `points`.
pub(crate) fn is_points(word: &[u8]) -> bool
    ensures { IsTrue result ↔ IsPoints word.now }
{
    is_either(word, b"point", b"points")
}
