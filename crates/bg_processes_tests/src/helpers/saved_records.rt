//! What the files of a folder restore.
use crate::helpers::folders::path_in;
use crate::helpers::hosts::{Host, Hosted};
use crate::helpers::lasting::lasting;
use bg_match::{Record, Terms};
use bg_processes::read_saved;
use bg_text::transcript_text;
use bg_wire::{REFEREE, SEAT_OF_X, restore};
use std::process::Abort;

/// The bytes of a slot's file.
fn slot_bytes(rt: &impl Host, folder: &str, file: &str) -> &'static [u8] {
    let bytes = read_saved(rt.host(), path_in(rt, folder, file));
    bytes.expect(rt, "a slot is read").leak()
}

/// The record of the bytes of both slots of a party.
fn restored(
    rt: &(impl AllocGlobal + Abort),
    (zero, one): (&[u8], &[u8]),
    party: u8,
    id: u64,
    terms: Terms,
) -> Record {
    let Terms { length, rules } = terms;
    let saved = restore(rt.alloc(), zero, one, party, id, length, rules);
    let saved = saved.expect(rt, "the slots restore");
    saved.expect(rt, "something was saved").log
}

/// The record that the files of a party restore.
pub(crate) fn saved_record<'a>(
    rt: &impl Host,
    folder: &str,
    party: u8,
    id: u64,
    terms: Terms,
) -> &'a Record {
    let (zero, one) = match party {
        REFEREE => ("party-0.0", "party-0.1"),
        SEAT_OF_X => ("party-1.0", "party-1.1"),
        _ => ("party-2.0", "party-2.1"),
    };
    let slots = (slot_bytes(rt, folder, zero), slot_bytes(rt, folder, one));
    lasting(rt, restored(rt, slots, party, id, terms))
}

/// The transcript of a record.
pub(crate) fn text_of(rt: &(impl AllocGlobal + Abort), record: &Record) -> &'static [u8] {
    let text = transcript_text(rt.alloc(), record);
    text.expect(rt, "memory for a transcript").leak()
}
