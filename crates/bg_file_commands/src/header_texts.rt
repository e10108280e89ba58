//! The headers of a match file: the players, and when and where they met.

use crate::texts::put_texts;
use bg_options::HeaderOptions;
use bg_text::put_text;
use std::alloc::{AllocError, Global};

/// The column at which what O has begins in a line of scores, from 0.
const RIGHT_COLUMN: usize = 32;

/// Appends the lines for the headers of a match file (docs/FORMATS.md, "Headers of match files").
pub(crate) fn put_headers(
    out: &mut Vec<u8>,
    headers: &HeaderOptions<'_>,
) -> Result<(), AllocError> {
    let lines = [
        ("name-x ", headers.x),
        ("name-o ", headers.o),
        ("date ", headers.date),
        ("event ", headers.event),
        ("place ", headers.place),
    ];
    put_lines(out, lines, "\n")
}

/// Appends the texts that there are, each behind its words, and these words behind each.
fn put_lines(
    out: &mut Vec<u8>,
    lines: [(&str, Option<&str>); 5],
    behind: &str,
) -> Result<(), AllocError> {
    for (before, text) in lines {
        if let Some(text) = text {
            put_texts(out, &[before, text, behind])?;
        }
    }
    Ok(())
}

/// Appends a match file with these headers above it, and these names in front of its scores. The
/// text is that of an export without names.
pub(crate) fn put_with_headers(
    out: &mut Vec<u8>,
    headers: &HeaderOptions<'_>,
    text: &str,
) -> Result<(), AllocError> {
    put_above(out, headers)?;
    for line in text.lines() {
        match scores_in(line) {
            Some((x, o)) => put_scores(out, headers, x.trim_end(), o)?,
            None => put_texts(out, &[line, "\n"])?,
        }
    }
    Ok(())
}

/// Returns the scores of X and of O in a line, if it has them.
fn scores_in(line: &str) -> Option<(&str, &str)> {
    line.strip_prefix(" X : ")?.split_once("O : ")
}

/// Appends the headers that stand above a match file.
fn put_above(out: &mut Vec<u8>, headers: &HeaderOptions<'_>) -> Result<(), AllocError> {
    let lines = [
        ("; [Site \"", headers.place),
        ("; [Event \"", headers.event),
        ("; [EventDate \"", headers.date),
        ("; [Player 1 \"", headers.x),
        ("; [Player 2 \"", headers.o),
    ];
    put_lines(out, lines, "\"]\n")
}

/// Appends a line with the names and the scores of both players.
fn put_scores(
    out: &mut Vec<u8>,
    headers: &HeaderOptions<'_>,
    x: &str,
    o: &str,
) -> Result<(), AllocError> {
    let right = out.len().saturating_add(RIGHT_COLUMN);
    put_texts(out, &[" ", headers.x.unwrap_or("X"), " : ", x, " "])?;
    for _ in out.len()..right {
        put_text(out, " ")?;
    }
    put_texts(out, &[headers.o.unwrap_or("O"), " : ", o, "\n"])
}

/// Returns event, place and date, as far as they are there, with commas between them.
pub(crate) fn occasion_of(
    alloc: Global,
    headers: &HeaderOptions<'_>,
) -> Result<String, AllocError> {
    let mut text = String::new(alloc);
    for part in [headers.event, headers.place, headers.date] {
        let Some(part) = part else {
            continue;
        };
        if !text.is_empty() {
            text.push_str(", ")?;
        }
        text.push_str(part)?;
    }
    Ok(text)
}
