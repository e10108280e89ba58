//! Bytes of tests, and what is made of them.
use crate::checks::check_row;
use arrayvec::ArrayVec;
use bg_board::Step;
use bg_match::Entry;
use bg_turns::Turn;
use bg_wire::{EntryList, MOST_DATAGRAM_BYTES};
use std::process::Abort;

/// Bytes of a test, none of which takes memory.
pub(crate) type Bytes = ArrayVec<u8, MOST_DATAGRAM_BYTES>;

/// Adds a step to a turn; whether it is one, and has room.
fn push_step(turn: &mut Turn, step: (u8, u8)) -> bool {
    match Step::new(step.0, step.1) {
        Some(step) if turn.steps().len() < 4 => {
            turn.push(step);
            true
        }
        _ => false,
    }
}

/// A turn of these steps.
pub(crate) fn turn(rt: &impl Abort, steps: &[(u8, u8)]) -> Turn {
    let mut turn = Turn::new();
    for step in steps {
        check_row(rt, "a step", push_step(&mut turn, *step));
    }
    turn
}

/// A list of these entries.
pub(crate) fn list(rt: &impl Abort, entries: &[Entry]) -> EntryList {
    let mut list = ArrayVec::new();
    for entry in entries {
        check_row(rt, "room for an entry", list.try_push(entry.copy()).is_ok());
    }
    EntryList { entries: list }
}

/// Appends more bytes.
pub(crate) fn extend(rt: &impl Abort, bytes: &mut Bytes, more: &[u8]) {
    check_row(
        rt,
        "room for bytes",
        bytes.try_extend_from_slice(more).is_ok(),
    );
}

/// The bytes, and more behind them.
pub(crate) fn joined(rt: &impl Abort, bytes: &[u8], more: &[u8]) -> Bytes {
    let mut longer = ArrayVec::new();
    extend(rt, &mut longer, bytes);
    extend(rt, &mut longer, more);
    longer
}

/// The bytes with one of them changed.
pub(crate) fn with_byte(rt: &impl Abort, bytes: &[u8], offset: usize, byte: u8) -> Bytes {
    with_bytes(rt, bytes, offset, &[byte])
}

/// The bytes, of which those from this offset on are changed.
pub(crate) fn with_bytes(rt: &impl Abort, bytes: &[u8], offset: usize, new: &[u8]) -> Bytes {
    let end = offset.saturating_add(new.len());
    let front = bytes.get(..offset).expect(rt, "bytes before");
    let rest = bytes.get(end..).expect(rt, "bytes to change");
    let mut changed = joined(rt, front, new);
    extend(rt, &mut changed, rest);
    changed
}
