//! The lines that head a match and its games.
ghost use Rattle.std.specs.Prelude.{◌≡◌, ◌++◌, ◌↔◌, ℕ, List, IsTrue, MatchOption};
ghost use Rattle.bg_mat.specs.Rows.Headings.{BeginsWithScore, EndsLength, EndsWithScore, HasScore, IsComment, IsFiller};
ghost use Rattle.bg_mat.specs.Rows.Headings.{IsGameNumber, IsHeader, IsHeaderWord};
ghost use Rattle.bg_mat.specs.Rows.Headings.{IsGameLine, IsLengthLine, IsScoresLine};
ghost use Rattle.bg_mat.specs.Rows.Words.{EndsSolid, EndsWord, IsBlankText};

use crate::rows::numbers::read_number;
use crate::rows::words::{is_blank, is_blank_text, is_points, skip_word, split_blanks, split_word};
use itoa::Buffer;

/// Returns whether a line may stand before the length of a match: it is blank, or belongs to a
/// header.
pub(crate) fn is_header(line: &[u8]) -> bool
    ensures { IsTrue result ↔ IsHeader line.now }
{
    match split_word(line) {
        Some((word, _)) => begins_header(word),
        None => true,
    }
}

/// Returns whether a word begins a line of a header.
fn begins_header(word: &[u8]) -> bool
    ensures { IsTrue result ↔ IsHeaderWord word.now }
{
    match word.split_first() {
        Some((first, _)) => matches!(*first, b';' | b'#' | b'['),
        None => false,
    }
}

/// Returns whether a line has no content: it is blank, or a comment.
pub(crate) fn is_filler(line: &[u8]) -> bool
    ensures { IsTrue result ↔ IsFiller line.now }
{
    match split_word(line) {
        Some((word, _)) => is_comment(word),
        None => true,
    }
}

/// Returns whether a word begins a comment.
fn is_comment(word: &[u8]) -> bool
    ensures { IsTrue result ↔ IsComment word.now }
{
    match word.split_first() {
        Some((first, _)) => *first == b';',
        None => false,
    }
}

/// Reads the length of a match from the line `N point match`.
pub(crate) fn read_length(line: &[u8]) -> Option<u16>
    ensures { MatchOption result ((n : ℕ) → IsLengthLine line.now n → ⊥) (IsLengthLine line.now) }
{
    let Some((number, rest)) = split_word(line) else {
        return None;
    };
    let Some(length) = read_number(number) else {
        return None;
    };
    if ends_length(rest) {
        Some(length)
    } else {
        None
    }
}

/// Returns whether a text is what follows the number in a length line: `point match`.
fn ends_length(text: &[u8]) -> bool
    ensures { IsTrue result ↔ EndsLength text.now }
{
    let Some((word, rest)) = split_word(text) else {
        return false;
    };
    match skip_word(rest, b"match") {
        Some(end) => is_points(word) && is_blank_text(end),
        None => false,
    }
}

/// Returns whether a line states the length of a match.
pub(crate) fn tells_length(line: &[u8]) -> bool
    ensures { IsTrue result ↔ ((n : ℕ) × IsLengthLine line.now n) }
{
    read_length(line).is_some()
}

/// Reads the number of a game, with or without a colon behind it.
fn read_game_number(word: &[u8]) -> Option<u16>
    ensures { MatchOption result ((n : ℕ) → IsGameNumber word.now n → ⊥) (IsGameNumber word.now) }
{
    match front_before(word, b":") {
        Some(digits) => read_number(digits),
        None => read_number(word),
    }
}

/// Reads the number of a game from the line `Game N`.
pub(crate) fn read_game(line: &[u8]) -> Option<u16>
    ensures { MatchOption result ((n : ℕ) → IsGameLine line.now n → ⊥) (IsGameLine line.now) }
{
    let Some(behind) = skip_word(line, b"Game") else {
        return None;
    };
    let Some((number, rest)) = split_word(behind) else {
        return None;
    };
    let Some(game) = read_game_number(number) else {
        return None;
    };
    if is_blank_text(rest) {
        Some(game)
    } else {
        None
    }
}

/// Returns a text without the blanks at its end, and these blanks.
fn trim_end(text: &[u8]) -> (&[u8], &[u8])
    ensures cut { (text.now ≡ result.0.now ++ result.1.now) × IsBlankText result.1.now }
    ensures solid { EndsSolid result.0.now }
{
    let mut end = text.len();
    while end > 0 && is_blank(text[end - 1]) {
        end -= 1;
    }
    (&text[..end], &text[end..])
}

/// Returns what stands before the end of a text, where it ends with these bytes.
pub(crate) fn front_before<'a>(text: &'a [u8], end: &[u8]) -> Option<&'a [u8]>
    ensures { MatchOption result ((front : List ℕ) → text.now ≡ front ++ end.now → ⊥)
        (λ front. text.now ≡ front.now ++ end.now) }
{
    text.strip_suffix(end)
}

/// Returns what follows the start of a text, where it begins with these bytes.
fn rest_behind<'a>(text: &'a [u8], start: &[u8]) -> Option<&'a [u8]>
    ensures { MatchOption result ((rest : List ℕ) → text.now ≡ start.now ++ rest → ⊥)
        (λ rest. text.now ≡ start.now ++ rest.now) }
{
    text.strip_prefix(start)
}

/// Returns what stands before a colon and this score at the end of a text.
fn before_score(text: &[u8], score: u16) -> Option<&[u8]>
    ensures { MatchOption result ((front : List ℕ) → EndsWithScore text.now score front → ⊥)
        (λ front. EndsWithScore text.now score front.now
        × ((other : List ℕ) → EndsWithScore text.now score other → other ≡ front.now)) }
{
    let mut digits = Buffer::new();
    let scored = trim_end(text);
    let Some(front) = front_before(scored.0, digits.format(score).as_bytes()) else {
        return None;
    };
    let named = trim_end(front);
    front_before(named.0, b":")
}

/// Returns whether a text begins with this score, after any blanks, and a blank or the end follows.
fn begins_with_score(text: &[u8], score: u16) -> bool
    ensures { IsTrue result ↔ BeginsWithScore text.now score }
{
    let mut digits = Buffer::new();
    let parts = split_blanks(text);
    match rest_behind(parts.1, digits.format(score).as_bytes()) {
        Some(rest) => ends_word(rest),
        None => false,
    }
}

/// Returns whether a word ends where a text begins: the text is empty, or begins with a blank.
fn ends_word(text: &[u8]) -> bool
    ensures { IsTrue result ↔ EndsWord text.now }
{
    match text {
        [] => true,
        [next, ..] => is_blank(*next),
    }
}

/// Returns whether a text has a colon and this score somewhere.
fn has_score(text: &[u8], score: u16) -> bool
    ensures { IsTrue result ↔ HasScore text.now score }
{
    let mut rest = text;
    while let Some((first, after)) = rest.split_first() {
        if *first == b':' && begins_with_score(after, score) {
            return true;
        }
        rest = after;
    }
    false
}

/// Returns whether a line names both players, each with their score, and X first.
pub(crate) fn has_scores(line: &[u8], x: u16, o: u16) -> bool
    ensures { IsTrue result ↔ IsScoresLine line.now x o }
{
    match before_score(line, o) {
        Some(front) => has_score(front, x),
        None => false,
    }
}
