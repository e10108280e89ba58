//! The line that is printed of a file that was judged, and the line that is refused in it.
ghost use Rattle.std.specs.Prelude.{◌≡◌, ◌++◌, [], IfOk, OnOk, slice_index_or};
ghost use Rattle.bg_text.specs.Judge.Judging.{lines_of};
ghost use Rattle.bg_reports.specs.Check.{printed_line, refused_in, refused_part, room_in};

use crate::escapes::harmless;
use bg_text::{Verdict, put_text, split_line};
use std::alloc::{AllocError, Global};

/// Number of columns of a refused line that are shown where there is no screen, at most.
pub const MOST_SHOWN: usize = 1000;

/// Returns the report on a file with this name and a verdict in these words, and the verdict.
pub(super) fn said(
    alloc: Global,
    name: &str,
    words: &[u8],
    bytes: &[u8],
    verdict: Verdict,
    columns: Option<usize>,
) -> Result<(Vec<u8>, Verdict), AllocError>
    ensures { IfOk result (λ told. (told.0.items ≡ printed_line name.now words.now verdict bytes.now columns)
        × (told.1 ≡ verdict)) }
{
    let mut text = Vec::from_slice(alloc, name.as_bytes())?;
    put_text(&mut text, ": ")?;
    text.extend_from_slice(words)?;
    let room = room_behind(columns, text.len());
    put_refused(alloc, &mut text, refused_line(bytes, verdict), room)?;
    put_text(&mut text, "\n")?;
    Ok((text, verdict))
}

/// Returns the line of a file that its verdict refuses; nothing where it refuses none.
pub fn refused_line(bytes: &[u8], verdict: Verdict) -> &[u8]
    ensures { result.now ≡ refused_in verdict (lines_of bytes.now) }
{
    match verdict {
        Verdict::Refused(number) => line_at(bytes, number.saturating_sub(1)),
        Verdict::Fine(_) | Verdict::TooLong => &[],
    }
}

/// Returns the line at this index, from 0; nothing where there are fewer lines.
fn line_at(text: &[u8], index: u32) -> &[u8]
    ensures { result.now ≡ slice_index_or (lines_of text.now) index [] }
{
    let mut rest = text;
    for _before in 0..index {
        match split_line(rest) {
            Some((_, after)) => rest = after,
            None => return &[],
        }
    }
    match split_line(rest) {
        Some((line, _)) => line,
        None => &[],
    }
}

/// Returns the number of columns of a screen that are left behind `taken` columns.
fn room_behind(columns: Option<usize>, taken: usize) -> usize
    ensures { result ≡ room_in columns taken }
{
    match columns {
        Some(columns) => columns.saturating_sub(taken),
        None => MOST_SHOWN,
    }
}

/// Appends a refused line behind its verdict.
fn put_refused(alloc: Global, out: &mut Vec<u8>, line: &[u8], room: usize) -> Result<(), AllocError>
    ensures { OnOk result (out.new.items ≡ out.old.items ++ refused_part room line.now) }
{
    let part = harmless(alloc, line, room.saturating_sub(2))?;
    if part.is_empty() {
        return Ok(());
    }
    put_text(out, ": ")?;
    out.extend_from_slice(&part)
}
