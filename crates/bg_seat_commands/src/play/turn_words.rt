//! The words for turns: typed, printed and listed ones.

use bg_board::{Board, Player};
use bg_match::Entry;
use bg_text::{entry_text, put_text, split_player};
use bg_turns::{Dice, Turn, judge_turn, legal_turns};
use std::alloc::{AllocError, Global};

/// Returns the greatest legal turn, where all legal turns lead to one position.
pub(super) fn only_way(
    alloc: Global,
    board: &Board,
    player: Player,
    dice: Dice,
) -> Result<Option<Turn>, AllocError> {
    let turns = legal_turns(alloc, board, player, dice)?;
    let Some(greatest) = turns.first() else {
        return Ok(None);
    };
    let after = judge_turn(board, player, dice, greatest).ok();
    for other in &turns {
        if judge_turn(board, player, dice, other).ok() != after {
            return Ok(None);
        }
    }
    Ok(Some(greatest.copy()))
}

/// Returns the greatest legal turn that begins with the steps of this one and has more, if there is
/// one.
pub(super) fn turn_beyond(
    alloc: Global,
    board: &Board,
    player: Player,
    dice: Dice,
    part: &Turn,
) -> Result<Option<Turn>, AllocError> {
    let steps = part.steps();
    let turns = legal_turns(alloc, board, player, dice)?;
    for turn in &turns {
        if turn.steps().len() > steps.len() && turn.steps().starts_with(steps) {
            return Ok(Some(turn.copy()));
        }
    }
    Ok(None)
}

/// Returns what was typed of a turn, with one more line.
pub(super) fn together(alloc: Global, typed: &[u8], line: &[u8]) -> Result<Vec<u8>, AllocError> {
    let mut whole = Vec::new(alloc);
    whole.extend_from_slice(typed)?;
    if typed.is_empty() {
        whole.extend_from_slice(line)?;
        return Ok(whole);
    }
    whole.push(b' ')?;
    whole.extend_from_slice(without_move(line))?;
    Ok(whole)
}

/// Returns whether a line has no movement: it is `m` or `move` alone.
pub(super) fn adds_nothing(line: &[u8]) -> bool {
    without_move(line).trim_ascii().is_empty()
}

/// Returns a line without the word `m` or `move` at its beginning.
pub(super) fn without_move(line: &[u8]) -> &[u8] {
    let line = line.trim_ascii();
    match line {
        [b'm' | b'M', rest @ ..] => match rest {
            [b' ', ..] | [] => rest,
            [b'o' | b'O', b'v' | b'V', b'e' | b'E', rest @ ..] => rest,
            _ => line,
        },
        _ => line,
    }
}

/// Returns the line with the steps of a turn between these words.
pub(super) fn with_steps(
    alloc: Global,
    before: &str,
    player: Player,
    turn: &Turn,
    behind: &str,
) -> Result<Vec<u8>, AllocError> {
    let mut line = Vec::new(alloc);
    put_text(&mut line, before)?;
    put_steps(&mut line, player, turn)?;
    put_text(&mut line, behind)?;
    Ok(line)
}

/// Returns the line that asks which of two turns is meant.
pub(super) fn which_of(
    alloc: Global,
    player: Player,
    one: &Turn,
    other: &Turn,
) -> Result<Vec<u8>, AllocError> {
    let mut line = Vec::new(alloc);
    line.extend_from_slice(b"which way? Type")?;
    put_steps(&mut line, player, one)?;
    line.extend_from_slice(b" or")?;
    put_steps(&mut line, player, other)?;
    Ok(line)
}

/// Appends the steps of a turn, each behind a blank.
fn put_steps(line: &mut Vec<u8>, player: Player, turn: &Turn) -> Result<(), AllocError> {
    let text = entry_text(Some(player), &Entry::Moved(turn.copy()));
    let Some((_, typed)) = split_player(text.as_str().as_bytes()) else {
        return Ok(());
    };
    line.extend_from_slice(typed.strip_prefix(b"move").unwrap_or(typed))
}

/// Returns at most `most` lines of a text, behind the first `behind`, and whether there are no
/// more.
pub(super) fn lines_behind(text: &[u8], behind: usize, most: usize) -> (&[u8], bool) {
    let rest = skip_lines(text, behind);
    let left = skip_lines(rest, most);
    let end = rest.len().saturating_sub(left.len());
    (rest.get(..end).unwrap_or(rest), left.is_empty())
}

/// Returns a text without its first `lines` lines.
fn skip_lines(text: &[u8], lines: usize) -> &[u8] {
    let mut rest = text;
    for _ in 0..lines {
        match rest.iter().position(|byte| *byte == b'\n') {
            Some(end) => rest = rest.get(end.saturating_add(1)..).unwrap_or_default(),
            None => return &[],
        }
    }
    rest
}
