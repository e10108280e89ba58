//! The screen on which a match is watched, as text, and its redrawing in place.

use bg_board::Player;
use bg_console::{Terminal, put_entries, with_coloured_checkers};
use bg_match::{Number, Record};
use bg_table::{Drawing, seat_view_text};
use bg_text::put_text;
use std::alloc::Global;
use std::io;
use std::str::Lines;

/// The player whose side is seen, and whose numbering the points have.
const SEEN_FROM: Player = Player::X;

/// Number of lines from which checkers are stacked, with an entry, a line below it, and that of the
/// cursor.
const LINES_FOR_STACKS: usize = 22;

/// The words that address a player, and the start of the line that says what the other one did
/// last. A watcher sees neither, as the entries are below the board.
const SPEAKS_TO_PLAYER: &str = " (you)";

const LAST: &str = "last: ";

/// The start of the line that is left out first on a terminal that has too few lines, and the
/// starts of those that follow when the heading is left out too.
const PIPS: &str = "pips: ";

const LEFT_OUT: [&str; 3] = ["length ", "cube: ", "score: "];

/// The terminal sequences that go to the upper left corner, clear the rest of the line and end it,
/// and clear the rest of the screen.
const HOME: &[u8] = b"\x1b[H";

const CLEAR_LINE: &[u8] = b"\x1b[K\n";

const CLEAR_BELOW: &[u8] = b"\x1b[J";

/// Appends the lines of a screen to a text, which leave one for the cursor: a heading, the view of
/// the match, as many of the newest entries as fit, and a foot. The view has the match, the score,
/// the board from X's side and whose turn it is. Where these don't fit, the pip counts are left out,
/// then the heading, and then more of the view, of which the last lines stay; the foot stays too.
///
/// # Errors
/// An error where there is no memory for it.
pub(super) fn put_screen(
    text: &mut Vec<u8>,
    record: &Record,
    heading: &[u8],
    foot: &[u8],
    terminal: Terminal,
) -> io::Result<()> {
    let alloc = *text.allocator();
    let room = room_of(terminal).saturating_sub(lines_in(foot));
    let mut table = table_text(alloc, record, terminal)?;
    if lines_in(heading).saturating_add(lines_in(&table)) > room {
        table = without(alloc, &table, PIPS)?;
    }
    if lines_in(heading).saturating_add(lines_in(&table)) <= room {
        text.extend_from_slice(heading)?;
    }
    put_fitting(text, table, room)?;
    let room = room.saturating_sub(lines_in(text));
    let room = Number::try_from(room).unwrap_or(Number::MAX);
    put_entries(text, record, record.len().saturating_sub(room))?;
    Ok(text.extend_from_slice(foot)?)
}

/// Appends as many lines of a view as there is room for. First those that matter least are left
/// out, and then the uppermost, of which the first line tells the number.
fn put_fitting(text: &mut Vec<u8>, table: Vec<u8>, room: usize) -> io::Result<()> {
    let alloc = *text.allocator();
    let mut view = table;
    for start in LEFT_OUT {
        if lines_in(&view) > room {
            view = without(alloc, &view, start)?;
        }
    }
    let shown = room.saturating_sub(1);
    match lines_in(&view).saturating_sub(shown) {
        0 | 1 => Ok(text.extend_from_slice(&view)?),
        cut => put_cut(text, &view, cut),
    }
}

/// Appends a line that tells how many lines of a view are cut off above, and those below them.
fn put_cut(text: &mut Vec<u8>, view: &[u8], cut: usize) -> io::Result<()> {
    let told = format!(in *text.allocator(); "({cut} lines above don't fit here)")?;
    put_line(text, told.as_str())?;
    for line in lines_of(view).skip(cut) {
        put_line(text, line)?;
    }
    Ok(())
}

/// Returns a text without the lines that begin so.
fn without(alloc: Global, text: &[u8], start: &str) -> io::Result<Vec<u8>> {
    let mut rest = Vec::new(alloc);
    for line in lines_of(text) {
        if !line.starts_with(start) {
            put_line(&mut rest, line)?;
        }
    }
    Ok(rest)
}

fn put_line(text: &mut Vec<u8>, line: &str) -> io::Result<()> {
    put_text(text, line)?;
    Ok(text.push(b'\n')?)
}

fn lines_of(text: &[u8]) -> Lines<'_> {
    str::from_utf8(text).unwrap_or_default().lines()
}

/// Returns the number of lines of a terminal that are drawn on.
fn room_of(terminal: Terminal) -> usize {
    terminal.lines.saturating_sub(1)
}

fn lines_in(text: &[u8]) -> usize {
    text.iter().filter(|byte| **byte == b'\n').count()
}

/// Returns X's view, without the words that address X and without O's last entry.
fn table_text(alloc: Global, record: &Record, terminal: Terminal) -> io::Result<Vec<u8>> {
    let view = seat_view_text(alloc, record, SEEN_FROM, drawing_on(terminal))?;
    let mut text = Vec::new(alloc);
    for line in lines_of(&view) {
        if !line.starts_with(LAST) {
            for part in line.split(SPEAKS_TO_PLAYER) {
                put_text(&mut text, part)?;
            }
            text.push(b'\n')?;
        }
    }
    Ok(text)
}

/// Returns the way to draw the board on a terminal.
fn drawing_on(terminal: Terminal) -> Drawing {
    match Drawing::fitting(terminal.columns) {
        Drawing::Stacks if terminal.lines < LINES_FOR_STACKS => Drawing::Rows,
        fitting => fitting,
    }
}

/// Appends the bytes that draw the lines of a screen in place of those drawn before. What does not
/// fit the terminal is cut off.
///
/// # Errors
/// An error where there is no memory for it.
pub(super) fn put_in_place(out: &mut Vec<u8>, text: &[u8], terminal: Terminal) -> io::Result<()> {
    out.extend_from_slice(HOME)?;
    for line in lines_of(text).take(room_of(terminal)) {
        let line = line.get(..terminal.columns).unwrap_or(line).as_bytes();
        if terminal.has_colours {
            let coloured = with_coloured_checkers(*out.allocator(), line, SEEN_FROM)?;
            out.extend_from_slice(&coloured)?;
        } else {
            out.extend_from_slice(line)?;
        }
        out.extend_from_slice(CLEAR_LINE)?;
    }
    Ok(out.extend_from_slice(CLEAR_BELOW)?)
}
