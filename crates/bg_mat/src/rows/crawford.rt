//! Headers that take the Crawford game away.
ghost use Rattle.std.specs.Prelude.{◌≡◌, ◌<◌, ◌↔◌, ℕ, IsTrue, true};
ghost use Rattle.bg_mat.specs.Files.{HasCrawford};
ghost use Rattle.bg_mat.specs.Rows.Headings.{IsLengthLine, SaysNoCrawford, SkipsSemicolon};
ghost use Rattle.bg_text.specs.Judge.Judging.{lines_of};

use crate::rows::headings::{is_header, read_length};
use crate::rows::words::{is_blank_text, skip_either, skip_word};
use bg_text::split_line;

/// Returns whether a line of a header says that the match has no Crawford game, as `; [Crawford
/// "Off"]`.
fn says_no_crawford(line: &[u8]) -> bool
    ensures { IsTrue result ↔ SaysNoCrawford line.now }
{
    let Some(after) = skip_either(skip_semicolon(line), b"[Crawford", b";[Crawford") else {
        return false;
    };
    match skip_word(after, b"\"Off\"]") {
        Some(rest) => is_blank_text(rest),
        None => false,
    }
}

/// Returns what follows a semicolon that stands alone at the beginning of a line, or the line
/// itself.
fn skip_semicolon(line: &[u8]) -> &[u8]
    ensures { SkipsSemicolon line.now result.now }
{
    match skip_word(line, b";") {
        Some(text) => text,
        None => line,
    }
}

/// Returns whether a line states the length of a match of more than one point.
fn tells_long_match(line: &[u8]) -> bool
    ensures { IsTrue result ↔ ((n : ℕ) × IsLengthLine line.now n × (1 < n)) }
{
    match read_length(line) {
        Some(points) => points > 1,
        None => false,
    }
}

/// Returns whether an input is that of a match of more than one point, which has a Crawford game.
pub(crate) fn has_crawford(input: &[u8]) -> bool
    ensures { IsTrue result ↔ HasCrawford (lines_of input.now) }
{
    let mut rest = input;
    while let Some((line, after)) = split_line(rest) {
        if !is_header(line) {
            return tells_long_match(line);
        }
        rest = after;
    }
    false
}

/// Returns whether a line of a header takes the Crawford game away from a match that has one.
pub(crate) fn takes_away(crawford: bool, line: &[u8]) -> bool
    ensures { IsTrue result ↔ ((crawford ≡ true) × SaysNoCrawford line.now) }
{
    crawford && says_no_crawford(line)
}
