//! Texts that are written whole, and those of which a part goes out.
use super::helpers::Slow;
use crate::checks::{check_number, check_row};
use bg_streams::{StreamFault, Writing, write_text};
use std::alloc::Global;

const TEXT: &[u8] = b"O to roll\nok 2\n";

/// Whether a text goes out so.
fn is_written(writer: &mut Slow, text: &[u8], written: Result<(), StreamFault>) -> bool {
    write_text(&mut Writing::new(writer), text) == written
}

/// Whether a text goes out behind another.
fn are_written(writer: &mut Slow) -> bool {
    let mut sink = Writing::new(writer);
    write_text(&mut sink, b"length 1\n") == Ok(()) && write_text(&mut sink, TEXT) == Ok(())
}

/// Whether both texts are taken, and are let go.
fn has_both(writer: &Slow) -> bool {
    let taken = b"length 1\nO to roll\nok 2\n".as_slice();
    writer.taken.as_slice() == taken && writer.flushed == 24
}

/// Whether a writer that takes at most so many bytes in a write takes both texts.
fn takes_both(alloc: Global, step: usize) -> bool {
    let mut writer = Slow::new(alloc, step, 1000);
    are_written(&mut writer) && has_both(&writer)
}

#[test]
fn written_in_parts(rt: HostRuntime) {
    for &step in &[1, 7, 15, 1000] {
        check_number(&rt, "in parts of", step, takes_both(rt.alloc(), step));
    }
}

/// Whether a writer that has no room lets an empty text go so.
fn lets_go(alloc: Global, loses: bool, written: Result<(), StreamFault>) -> bool {
    let mut writer = Slow::new(alloc, 1, 0);
    writer.loses = loses;
    is_written(&mut writer, b"", written)
}

#[test]
fn empty_text_is_flushed(rt: HostRuntime) {
    check_row(&rt, "it is let go", lets_go(rt.alloc(), false, Ok(())));
    let is_lost = lets_go(rt.alloc(), true, Err(StreamFault));
    check_row(&rt, "it is lost", is_lost);
}

/// Whether a writer with this room takes as much as it has room for, and lets nothing go.
fn fails(alloc: Global, room: usize) -> bool {
    let mut writer = Slow::new(alloc, 4, room);
    writer.loses = room == TEXT.len();
    is_written(&mut writer, TEXT, Err(StreamFault))
        && TEXT.get(..room) == Some(writer.taken.as_slice())
        && writer.flushed == 0
}

/// A writer with less room than the text, or one that fails as it is flushed, has taken what it has
/// room for.
#[test]
fn writers_that_fail(rt: HostRuntime) {
    for &room in &[0, 1, 14, 15] {
        check_number(&rt, "with room for", room, fails(rt.alloc(), room));
    }
}
