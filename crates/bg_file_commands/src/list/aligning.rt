//! Aligning the parts of lines in columns.

use crate::list::rows::{HEADING, NOTHING};
use crate::texts::put_texts;
use bg_text::put_text;
use std::alloc::{AllocError, Global};
use unicode_width::UnicodeWidthStr;

/// The separator between the parts of a line that are not aligned yet.
pub(crate) const BETWEEN: char = '\t';

/// Number of parts of a line that have a width, at most.
const MOST_PARTS: usize = 10;

/// Returns the lines below their heading, with their parts aligned in columns, except the last part
/// of each, which keeps its own width. A column that is empty in all lines is left out. The text is
/// empty where there is no line.
pub(crate) fn aligned(alloc: Global, lines: &[u8]) -> Result<Vec<u8>, AllocError> {
    let lines = str::from_utf8(lines).unwrap_or_default();
    let widths = widths_of(lines);
    let mut text = Vec::new(alloc);
    if !lines.is_empty() {
        put_aligned(&mut text, HEADING, &widths)?;
    }
    for line in lines.lines() {
        put_aligned(&mut text, line, &widths)?;
    }
    Ok(text)
}

/// Appends a line, whose parts get these widths. Those without a width are left out.
fn put_aligned(
    text: &mut Vec<u8>,
    line: &str,
    widths: &[usize; MOST_PARTS],
) -> Result<(), AllocError> {
    let Some((front, last)) = line.rsplit_once(BETWEEN) else {
        return Ok(());
    };
    for (part, width) in front.split(BETWEEN).zip(widths) {
        if *width > 0 {
            put_part(text, part, *width)?;
        }
    }
    put_texts(text, &[last, "\n"])
}

/// Appends a part of a line, as wide as its column, and the space behind it.
fn put_part(text: &mut Vec<u8>, part: &str, width: usize) -> Result<(), AllocError> {
    let part = if part.is_empty() { NOTHING } else { part };
    put_text(text, part)?;
    for _ in part.width()..width {
        put_text(text, " ")?;
    }
    put_text(text, "  ")
}

/// Returns the width of each column: that of its widest part, or of its heading, and 0 where the
/// column is empty in all lines.
fn widths_of(lines: &str) -> [usize; MOST_PARTS] {
    let mut widths = [0; MOST_PARTS];
    for line in lines.lines() {
        widen(&mut widths, line, 0);
    }
    widen(&mut widths, HEADING, 1);
    widths
}

/// Widens the columns of at least this width for the parts of a line.
fn widen(widths: &mut [usize; MOST_PARTS], line: &str, least: usize) {
    let Some((front, _)) = line.rsplit_once(BETWEEN) else {
        return;
    };
    for (width, part) in widths.iter_mut().zip(front.split(BETWEEN)) {
        if *width >= least {
            *width = (*width).max(part.width());
        }
    }
}
