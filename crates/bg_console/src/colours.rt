//! Colours for a terminal: for checkers, and for what a player is offered.

use crate::breaking::TURN;
use bg_board::Player;
use bg_text::letter;
use std::alloc::{AllocError, Global};

/// The terminal sequences that begin bold letters, begin magenta ones, and end both. Magenta is as
/// far from black as from white.
const BOLD: &[u8] = b"\x1b[1m";

const MAGENTA: &[u8] = b"\x1b[35m";

const USUAL: &[u8] = b"\x1b[0m";

/// The bytes of a line that shows points of the board: marks of checkers, numbers, empty points and
/// the bar.
const OF_POINTS: &[u8] = b" .|XO0123456789";

/// The starts of the lines for the bar and for the checkers that are borne off.
const ASIDE: [&[u8]; 2] = [b"bar: ", b"off: "];

/// The end of the start of the line of a player's offers.
const BEFORE_OFFERS: u8 = b':';

/// Returns a text in which the lines of boards have the checkers of one player bold, and those of
/// the other in magenta. Without the terminal sequences it is the text as it was.
///
/// # Errors
/// AllocError where there is no memory for it.
pub fn with_coloured_checkers(
    alloc: Global,
    text: &[u8],
    bold: Player,
) -> Result<Vec<u8>, AllocError> {
    let mut out = Vec::new(alloc);
    for line in text.split_inclusive(|byte| *byte == b'\n') {
        if shows_checkers(line) {
            put_checkers(&mut out, line, bold)?;
        } else {
            out.extend_from_slice(line)?;
        }
    }
    Ok(out)
}

/// Returns whether a line is one of a board.
fn shows_checkers(line: &[u8]) -> bool {
    let line = line.strip_suffix(b"\n").unwrap_or(line);
    ASIDE.iter().any(|start| line.starts_with(start))
        || line.iter().all(|byte| OF_POINTS.contains(byte))
}

/// Appends a line of a board. Each mark of a checker, with the number after it, gets the look of
/// its player.
fn put_checkers(out: &mut Vec<u8>, line: &[u8], bold: Player) -> Result<(), AllocError> {
    let bold_mark = letter(bold).as_bytes();
    let mut is_marked = false;
    for byte in line {
        if is_marked && !byte.is_ascii_digit() {
            out.extend_from_slice(USUAL)?;
            is_marked = false;
        }
        if matches!(byte, b'X' | b'O') {
            let is_bold = bold_mark.contains(byte);
            out.extend_from_slice(if is_bold { BOLD } else { MAGENTA })?;
            is_marked = true;
        }
        out.push(*byte)?;
    }
    if is_marked {
        out.extend_from_slice(USUAL)?;
    }
    Ok(())
}

/// Returns a text with what a player is offered in bold letters, from the line on that says that it
/// is their turn. Without the terminal sequences it is the text as it was.
///
/// # Errors
/// AllocError where there is no memory for it.
pub fn with_bold_offers(alloc: Global, text: &[u8]) -> Result<Vec<u8>, AllocError> {
    let mut out = Vec::new(alloc);
    let mut is_offered = false;
    for line in text.split_inclusive(|byte| *byte == b'\n') {
        if is_offered {
            put_bold(&mut out, line)?;
        } else if line.starts_with(TURN) {
            put_turn(&mut out, line)?;
            is_offered = true;
        } else {
            out.extend_from_slice(line)?;
        }
    }
    Ok(out)
}

/// Appends the line that says that it is a player's turn, with its offers bold.
fn put_turn(out: &mut Vec<u8>, line: &[u8]) -> Result<(), AllocError> {
    let colon = line.iter().position(|byte| *byte == BEFORE_OFFERS);
    let offers = colon.unwrap_or(line.len()).saturating_add(1);
    out.extend_from_slice(line.get(..offers).unwrap_or(line))?;
    put_bold(out, line.get(offers..).unwrap_or_default())
}

/// Appends a line in bold letters, except its line feed.
fn put_bold(out: &mut Vec<u8>, line: &[u8]) -> Result<(), AllocError> {
    let words = line.strip_suffix(b"\n").unwrap_or(line);
    out.extend_from_slice(BOLD)?;
    out.extend_from_slice(words)?;
    out.extend_from_slice(USUAL)?;
    if words.len() < line.len() {
        out.push(b'\n')?;
    }
    Ok(())
}
