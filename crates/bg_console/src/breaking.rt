//! Breaking lines to fit a screen.

use std::alloc::{AllocError, Global};

/// The start of the line of a player's offers.
pub(crate) const TURN: &[u8] = b"your turn, ";

/// Returns the lines broken between words, each of at most this number of columns; a byte counts as
/// one. Lines that fit stay as they are, and a longer word gets a line of its own. The words of an
/// offer to a player stay together if a line has room for them. White space at the end of the last
/// line is dropped, and each line ends with a line feed.
///
/// # Errors
/// `AllocError` where memory runs out.
pub fn broken(alloc: Global, lines: &[u8], columns: usize) -> Result<Vec<u8>, AllocError> {
    let mut text = Vec::new(alloc);
    for line in lines.trim_ascii_end().split(|byte| *byte == b'\n') {
        put_broken(&mut text, line, columns)?;
    }
    Ok(text)
}

/// Appends a line of words, broken into as many lines as it takes.
fn put_broken(text: &mut Vec<u8>, line: &[u8], columns: usize) -> Result<(), AllocError> {
    if line.len() <= columns {
        text.extend_from_slice(line)?;
        return Ok(text.push(b'\n')?);
    }
    let mut column = 0usize;
    let mut rest = line;
    let has_offers = line.starts_with(TURN);
    let mut begins_offer = has_offers;
    for word in line.split(|byte| *byte == b' ') {
        let kept = match first_offer(rest, columns) {
            Some(length) if begins_offer => length,
            _ => word.len(),
        };
        let end = column.saturating_add(1).saturating_add(kept);
        if column > 0 {
            let has_room = end <= columns;
            text.push(if has_room { b' ' } else { b'\n' })?;
            column = if has_room {
                column.saturating_add(1)
            } else {
                0
            };
        }
        text.extend_from_slice(word)?;
        column = column.saturating_add(word.len());
        rest = rest.get(word.len().saturating_add(1)..).unwrap_or_default();
        begins_offer = has_offers && matches!(word.last(), Some(b',' | b':'));
    }
    Ok(text.push(b'\n')?)
}

/// Returns the length of the offer that this part of a line begins with, up to its comma or colon.
/// Returns `None` if it is longer than a line.
fn first_offer(rest: &[u8], columns: usize) -> Option<usize> {
    let end = rest.iter().position(|byte| matches!(byte, b',' | b':'));
    let length = end.map_or(rest.len(), |end| end.saturating_add(1));
    if length <= columns {
        Some(length)
    } else {
        None
    }
}
