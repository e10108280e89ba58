//! The likely meaning of a typed line that is no movement.

use bg_typed::typed_steps;
use std::alloc::{AllocError, Global};

/// The message to a player who types a step the wrong way.
const WRONG_WAY: &[u8] = b"you move from higher points to lower ones";

/// The message to a player who types two points without a slash, before and behind the step.
const WITHOUT_SLASH: (&[u8], &[u8]) = (b"a step is written with a slash: did you mean ", b"?");

/// Returns the message on a line without the word `move` that is no movement, where it is a step
/// without its slash, or has a step that leads the wrong way.
pub(super) fn slip_text(alloc: Global, line: &[u8]) -> Result<Option<Vec<u8>>, AllocError> {
    let line = line.trim_ascii();
    if let Some(end) = line.iter().position(is_gap) {
        let (from, to) = line.split_at(end);
        let step = step_text(alloc, from, to.get(1..).unwrap_or_default())?;
        if is_step(alloc, &step) {
            return Ok(Some(without_slash(alloc, &step)?));
        }
    }
    if has_wrong_way(alloc, line)? {
        let mut text = Vec::new(alloc);
        text.extend_from_slice(WRONG_WAY)?;
        return Ok(Some(text));
    }
    Ok(None)
}

/// Returns the message to a player who types a step without its slash.
fn without_slash(alloc: Global, step: &[u8]) -> Result<Vec<u8>, AllocError> {
    let (before, behind) = WITHOUT_SLASH;
    let mut text = Vec::new(alloc);
    text.extend_from_slice(before)?;
    text.extend_from_slice(step)?;
    text.extend_from_slice(behind)?;
    Ok(text)
}

/// Returns whether a word of a line is a step that leads the wrong way.
fn has_wrong_way(alloc: Global, line: &[u8]) -> Result<bool, AllocError> {
    for word in line.split(is_gap) {
        if let Some(slash) = word.iter().position(is_slash) {
            let (from, to) = word.split_at(slash);
            let turned = step_text(alloc, to.get(1..).unwrap_or_default(), from)?;
            if is_step(alloc, &turned) {
                return Ok(true);
            }
        }
    }
    Ok(false)
}

/// Returns the text of a step between two points as they are typed.
fn step_text(alloc: Global, from: &[u8], to: &[u8]) -> Result<Vec<u8>, AllocError> {
    let mut text = Vec::new(alloc);
    text.extend_from_slice(from.trim_ascii())?;
    text.push(b'/')?;
    text.extend_from_slice(to.trim_ascii())?;
    Ok(text)
}

/// Returns whether a text is one step.
fn is_step(alloc: Global, text: &[u8]) -> bool {
    match typed_steps(alloc, text) {
        Ok(turn) => turn.steps().len() == 1,
        Err(_) => false,
    }
}

/// Returns whether a byte stands between two words.
fn is_gap(byte: &u8) -> bool {
    matches!(byte, b' ' | b'\t' | b',')
}

/// Returns whether a byte stands between two points.
fn is_slash(byte: &u8) -> bool {
    matches!(byte, b'/' | b'-')
}
