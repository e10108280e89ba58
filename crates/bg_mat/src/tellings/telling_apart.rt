//! Match files told apart from other files.
ghost use Rattle.std.specs.Prelude.{◌↔◌, IsTrue};
ghost use Rattle.bg_mat.specs.Files.{BeginAsMatchFile, lines_in};

use crate::marks::behind_mark;
use crate::rows::headings::{is_header, tells_length};
use bg_text::split_line;

/// Returns whether an input is taken for a match file, which may still be refused. That is so where
/// its first line with content is the length of a match, as in `7 point match` (docs/FORMATS.md,
/// "Match files of other programs").
pub fn is_match_file(input: &[u8]) -> bool
    ensures { IsTrue result ↔ BeginAsMatchFile (lines_in input.now) }
{
    let mut rest = behind_mark(input);
    while let Some((line, after)) = split_line(rest) {
        if !is_header(line) {
            return tells_length(line);
        }
        rest = after;
    }
    false
}
