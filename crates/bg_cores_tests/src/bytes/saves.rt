//! Worked saved texts of both layouts, byte by byte, and long ones.
ghost use Rattle.std.specs.Prelude.{◌≤◌, IfOk};
ghost use Rattle.bg_wire.specs.Entries.Codes.{least_save, seat_of_o};
ghost use Rattle.bg_wire.specs.Saved.SavedText.{IsSavable, parts_of};

use crate::bytes::bytes::{turn, with_bytes};
use crate::checks::{check_bytes, check_number, check_row};
use crate::lasting::lasting;
use bg_board::Die;
use bg_match::{Action, Entry, Level, MOST_ENTRIES, Number, Record, Rules};
use bg_wire::{
    LONGEST_SAVED_TEXT, LoadFault, MOST_DATAGRAM_BYTES, SaveRefusal, Saved, Slot, load, next_save,
    save_text,
};
use std::alloc::{AllocError, Global};
use std::process::Abort;

/// The referee's save 2 of match 1, of length 1, with the opening 3 1 and 8-5 6-5.
pub(crate) const REFEREE_SAVE: [u8; 33] = [
    0x42, 0x47, 0x53, 0x32, 0, 0, 0, 0, 0, 0, 0, 0, 0x01, 0x01, 0x01, 0, 0, 0, 0x02, 0, 0, 0, 0,
    0x02, 0x01, 0x03, 0x01, 0x06, 0x02, 0x08, 0x05, 0x06, 0x05,
];

/// The same in the first layout.
pub(crate) const OLD_REFEREE_SAVE: [u8; 30] = [
    0x42, 0x47, 0x53, 0x31, 0, 0, 0, 0, 0, 0, 0, 0, 0x01, 0x01, 0, 0, 0, 0x02, 0, 0, 0x02, 0x01,
    0x03, 0x01, 0x06, 0x02, 0x08, 0x05, 0x06, 0x05,
];

/// The first save of the seat of X in that match, with the opening alone, and the claim of 8-5 6-5
/// as entry 2.
pub(crate) const SEAT_SAVE: [u8; 37] = [
    0x42, 0x47, 0x53, 0x32, 0x01, 0, 0, 0, 0, 0, 0, 0, 0x01, 0x01, 0x01, 0, 0, 0, 0x01, 0x01, 0, 0,
    0, 0x02, 0x06, 0x02, 0x08, 0x05, 0x06, 0x05, 0, 0, 0, 0x01, 0x01, 0x03, 0x01,
];

/// The same in the first layout.
pub(crate) const OLD_SEAT_SAVE: [u8; 32] = [
    0x42, 0x47, 0x53, 0x31, 0x01, 0, 0, 0, 0, 0, 0, 0, 0x01, 0x01, 0, 0, 0, 0x01, 0x01, 0, 0x02,
    0x06, 0x02, 0x08, 0x05, 0x06, 0x05, 0, 0x01, 0x01, 0x03, 0x01,
];

/// Loads a saved text. Of what is loaded the tests need to know that it can be saved.
pub(crate) fn loaded(alloc: Global, bytes: &[u8]) -> Result<Saved, LoadFault>
    ensures { IfOk result (λ saved. IsSavable (parts_of saved)) }
{
    load(alloc, bytes)
}

/// What is loaded of a saved text. It lasts.
pub(crate) fn kept(rt: &(impl AllocGlobal + Abort), bytes: &[u8]) -> &'static Saved
    ensures { IsSavable (parts_of result.now) }
{
    let saved = loaded(rt.alloc(), bytes).expect(rt, "a saved text");
    lasting(rt, saved)
}

/// What is saved has this text.
pub(crate) fn check_saved(rt: &(impl AllocGlobal + Abort), saved: &Saved, bytes: &[u8])
    requires { IsSavable (parts_of saved.now) }
{
    check_row(rt, "memory", check_text(rt, saved, bytes).is_ok());
}

/// The text of what is saved is this one.
pub(crate) fn check_text(
    rt: &(impl AllocGlobal + Abort),
    saved: &Saved,
    bytes: &[u8],
) -> Result<(), AllocError>
    requires { IsSavable (parts_of saved.now) }
{
    let text = save_text(rt.alloc(), saved)?;
    check_bytes(rt, &text, text.as_slice() == bytes);
    Ok(())
}

/// Whether it is a record of match 1, of length 1, by the first rules, with so many entries. The
/// first is the opening 3 1.
fn is_log(log: &Record, count: Number) -> bool {
    (log.id(), log.length(), log.len()) == (1, 1, count)
        && log.rules() == Rules::One
        && log.entry(1) == Some(&Entry::Opening(Die::Three, Die::One))
}

/// Whether this is what the referee saved.
fn is_save_of_the_referee(rt: &impl Abort, saved: &Saved) -> bool {
    let moved = Entry::Moved(turn(rt, &[(8, 5), (6, 5)]));
    (saved.party, saved.save) == (0, 2)
        && saved.claim.is_none()
        && is_log(&saved.log, 2)
        && saved.log.entry(2) == Some(&moved)
}

/// A text of either layout is loaded, and what was loaded is saved in the second one.
#[test]
fn worked_save_of_the_referee(rt: HostRuntime) {
    check_save_of_the_referee(&rt, &REFEREE_SAVE);
    check_save_of_the_referee(&rt, &OLD_REFEREE_SAVE);
}

fn check_save_of_the_referee(rt: &(impl AllocGlobal + Abort), bytes: &[u8]) {
    let saved = kept(rt, bytes);
    check_saved(rt, saved, &REFEREE_SAVE);
    check_bytes(rt, bytes, is_save_of_the_referee(rt, saved));
}

/// Whether this is what the seat of X saved.
fn is_save_of_the_seat(rt: &impl Abort, saved: &Saved) -> bool {
    let claim = (2, Action::Move(turn(rt, &[(8, 5), (6, 5)])));
    (saved.party, saved.save) == (1, 1) && saved.claim == Some(claim) && is_log(&saved.log, 1)
}

#[test]
fn worked_save_of_a_seat(rt: HostRuntime) {
    check_save_of_the_seat(&rt, &SEAT_SAVE);
    check_save_of_the_seat(&rt, &OLD_SEAT_SAVE);
}

fn check_save_of_the_seat(rt: &(impl AllocGlobal + Abort), bytes: &[u8]) {
    let saved = kept(rt, bytes);
    check_saved(rt, saved, &SEAT_SAVE);
    check_bytes(rt, bytes, is_save_of_the_seat(rt, saved));
}

/// Whether the claim in a saved text is that of the entry of this number.
fn is_claimed(alloc: Global, bytes: &[u8], wanted: Number) -> bool {
    match load(alloc, bytes) {
        Ok(saved) => matches!(&saved.claim, Some((number, _)) if *number == wanted),
        Err(_) => false,
    }
}

/// A claim has the greatest number of its layout.
#[test]
fn last_claims(rt: HostRuntime) {
    let old = with_bytes(&rt, &OLD_SEAT_SAVE, 19, &[0xff, 0xff]);
    check_number(&rt, "claim", 65535, is_claimed(rt.alloc(), &old, 65535));
    let new = with_bytes(&rt, &SEAT_SAVE, 20, &[0, 0x0f, 0x42, 0x40]);
    check_number(&rt, "claim", 1000000, is_claimed(rt.alloc(), &new, 1000000));
}

/// Whether an opening is appended, and so many pairs of entries behind it.
fn are_pushed(log: &mut Record, pairs: Number) -> bool {
    for _ in 0..pairs {
        if log.push(Entry::Resigned(Level::Normal)).is_err() || log.push(Entry::Rejected).is_err() {
            return false;
        }
    }
    true
}

/// A record with so many pairs of entries behind an opening.
fn long_record(rt: &impl Abort, alloc: Global, pairs: Number) -> Record {
    let mut log = Record::new(alloc, 1, 1, Rules::One).expect(rt, "a record");
    let opening = Entry::Opening(Die::Three, Die::One);
    check_row(rt, "an opening", log.push(opening).is_ok());
    check_row(rt, "a long record", are_pushed(&mut log, pairs));
    log
}

/// The records have the same entries.
pub(crate) fn check_entries(rt: &impl Abort, log: &Record, expected: &Record) {
    check_row(rt, "number of entries", log.len() == expected.len());
    for number in 1..=expected.len() {
        let is_same = log.entry(number) == expected.entry(number);
        check_number(rt, "entry", number as usize, is_same);
    }
}

/// The referee's text of the first layout with 65535 entries, which are those of this text of the
/// second.
fn old_text(alloc: Global, text: &[u8]) -> Result<Vec<u8>, AllocError> {
    let mut old = Vec::from_slice(alloc, &OLD_REFEREE_SAVE[..19])?;
    old.extend_from_slice(&[0xff, 0xff])?;
    old.extend_from_slice(text.get(24..).unwrap_or(&[]))?;
    Ok(old)
}

/// A text of the first layout tells up to 65535 entries.
#[test]
fn longest_old_record(rt: HostRuntime) {
    let saved = save_of(&rt, 0, 2, long_record(&rt, rt.alloc(), 32767));
    let old = old_text(rt.alloc(), text_of(&rt, saved))
        .expect(&rt, "memory")
        .leak();
    check_long(&rt, kept(&rt, old), saved, 65535);
}

/// What is loaded again of a long record has as many entries, and the same.
fn check_long(rt: &impl Abort, again: &Saved, saved: &Saved, count: Number) {
    check_number(rt, "entries", count as usize, saved.log.len() == count);
    check_entries(rt, &again.log, &saved.log);
}

/// What a party saves that claims nothing. It lasts.
fn save_of(rt: &(impl AllocGlobal + Abort), party: u8, save: u32, log: Record) -> &'static Saved
    requires party { party ≤ seat_of_o }
    requires save { least_save ≤ save }
    ensures { IsSavable (parts_of result.now) }
{
    lasting(rt, unclaimed(party, save, log))
}

/// What a party saves that claims nothing.
fn unclaimed(party: u8, save: u32, log: Record) -> Saved
    requires party { party ≤ seat_of_o }
    requires save { least_save ≤ save }
    ensures { IsSavable (parts_of result) }
{
    Saved {
        party,
        save,
        claim: None,
        log,
    }
}

/// The text of what is saved. It lasts.
pub(crate) fn text_of(rt: &(impl AllocGlobal + Abort), saved: &Saved) -> &'static [u8]
    requires { IsSavable (parts_of saved.now) }
{
    save_text(rt.alloc(), saved).expect(rt, "memory").leak()
}

/// A text of the second layout tells more.
#[test]
fn longer_record(rt: HostRuntime) {
    let saved = save_of(&rt, 2, 4294967295, long_record(&rt, rt.alloc(), 32768));
    let text = text_of(&rt, saved);
    check_row(&rt, "number of bytes", text.len() == 24 + 3 + 32768 * 3);
    let again = kept(&rt, text);
    let is_last = (again.party, again.save) == (2, 4294967295);
    check_row(&rt, "the last save of party 2", is_last);
    check_long(&rt, again, saved, 65537);
}

/// What stands before the entries has at most 38 bytes, with the claim of a turn of four steps; an
/// entry has at most ten.
#[test]
fn longest_texts(rt: HostRuntime) {
    check_row(&rt, "entries", MOST_ENTRIES == 1000000);
    check_row(&rt, "saved text", LONGEST_SAVED_TEXT == 38 + 1000000 * 10);
    check_row(&rt, "datagram", MOST_DATAGRAM_BYTES == 128);
}

/// The slot and the number of the save that follows one of the referee's, who holds nothing.
fn slot_after(alloc: Global, last: u32) -> Result<(Slot, u32), SaveRefusal> {
    let Ok(log) = Record::new(alloc, 1, 1, Rules::One) else {
        return Err(SaveRefusal::Memory);
    };
    let (slot, save, _text) = next_save(alloc, last, 0, &None, &log)?;
    Ok((slot, save))
}

#[test]
fn first_and_last_saves(rt: HostRuntime) {
    let first = slot_after(rt.alloc(), 0);
    check_row(&rt, "first save", first == Ok((Slot::One, 1)));
    let second = slot_after(rt.alloc(), 1);
    check_row(&rt, "second save", second == Ok((Slot::Zero, 2)));
    let last = slot_after(rt.alloc(), 4294967294);
    check_row(&rt, "last save", last == Ok((Slot::One, 4294967295)));
    let none = slot_after(rt.alloc(), 4294967295);
    check_row(&rt, "no save", none == Err(SaveRefusal::SavesSpent));
}
