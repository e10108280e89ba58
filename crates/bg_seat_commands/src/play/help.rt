//! The help on what may be typed.

use crate::play::Table;
use bg_console::{allocated, broken};
use bg_reports::Ending;
use bg_text::put_text;
use std::alloc::{AllocError, Global};

/// The lines that can be typed on the player's turn, each with its meaning.
const ON_TURN: [(&str, &str); 7] = [
    ("roll, double", "or r, d"),
    ("take, drop", "or t, p: after the other player's double"),
    ("accept, reject", "or y, n: after an offer to resign"),
    ("resign", "at a level: normal, gammon or backgammon"),
    (
        "8/5 6/5",
        "a turn, step by step; also 24/14 by both dice, 13/8(2) for two checkers, bar/20, 6/off, 8-5 for 8/5, and m before it",
    ),
    (
        "8/5",
        "the first step of a turn: then type the next, or `undo`",
    ),
    ("m", "the only legal turn, also where nothing can be moved"),
];

/// The lines that can be typed at any time.
const ALWAYS: [(&str, &str); 4] = [
    ("board", "the board, from your side; so does an empty line"),
    (
        "legal",
        "the legal turns; `more` lists those that did not fit",
    ),
    ("help", "this list; so does `?`"),
    ("quit", "ends; the same command goes on later"),
];

/// The columns of the widest help.
const MOST_COLUMNS: usize = 80;

/// The fewest columns in which the meanings stand in a column of their own, and its margin.
const COLUMNS_FOR_TWO: usize = 60;

const SECOND: usize = 22;

/// The margins of what is typed, and of further lines of its meaning where that stands behind it.
const FIRST: usize = 2;

const FURTHER: usize = 6;

impl<'a> Table<'a> {
    /// Prints the help on what may be typed.
    pub(super) fn help(&self) -> Result<(), Ending> {
        let columns = self.screen.columns.min(MOST_COLUMNS);
        let text = allocated(self.rt, help_text(self.rt.alloc(), columns))?;
        self.screen.print(&text)
    }
}

/// Returns the help in lines of at most this number of columns.
fn help_text(alloc: Global, columns: usize) -> Result<Vec<u8>, AllocError> {
    let first = b"When it is your turn you type one of these:";
    let mut text = broken(alloc, first, columns)?;
    put_all(&mut text, &ON_TURN, columns)?;
    text.extend_from_slice(b"and at any time:\n")?;
    put_all(&mut text, &ALWAYS, columns)?;
    Ok(text)
}

fn put_all(text: &mut Vec<u8>, lines: &[(&str, &str)], columns: usize) -> Result<(), AllocError> {
    for (typed, meaning) in lines {
        put_line(text, typed, meaning, columns)?;
    }
    Ok(())
}

/// Appends what may be typed, and its meaning.
fn put_line(
    text: &mut Vec<u8>,
    typed: &str,
    meaning: &str,
    columns: usize,
) -> Result<(), AllocError> {
    if columns < COLUMNS_FOR_TWO {
        let line = format!(in *text.allocator(); "{typed}: {meaning}")?;
        let room = columns.saturating_sub(FURTHER);
        return put_lines(text, line.as_bytes(), room, FIRST, FURTHER);
    }
    put_blanks(text, FIRST)?;
    put_text(text, typed)?;
    let rest = SECOND.saturating_sub(FIRST).saturating_sub(typed.len());
    let room = columns.saturating_sub(SECOND);
    put_lines(text, meaning.as_bytes(), room, rest, SECOND)
}

/// Appends a line, broken to so many columns, with a margin before its first part and one before
/// each further part.
fn put_lines(
    text: &mut Vec<u8>,
    line: &[u8],
    columns: usize,
    first: usize,
    further: usize,
) -> Result<(), AllocError> {
    let mut margin = first;
    for part in broken(*text.allocator(), line, columns)?.split_inclusive(|byte| *byte == b'\n') {
        put_blanks(text, margin)?;
        text.extend_from_slice(part)?;
        margin = further;
    }
    Ok(())
}

fn put_blanks(text: &mut Vec<u8>, count: usize) -> Result<(), AllocError> {
    for _ in 0..count {
        text.push(b' ')?;
    }
    Ok(())
}
