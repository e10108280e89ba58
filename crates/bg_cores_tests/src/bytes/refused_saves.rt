//! Saved texts of both layouts of which bytes are missing, added or changed.
ghost use Rattle.std.specs.Prelude.{IfOk};
ghost use Rattle.bg_wire.specs.Saved.SavedText.{IsSavable, parts_of};

use crate::bytes::bytes::{joined, with_byte, with_bytes};
use crate::bytes::saves::{
    OLD_REFEREE_SAVE, OLD_SEAT_SAVE, REFEREE_SAVE, SEAT_SAVE, check_entries, check_saved,
    check_text, kept, loaded, text_of,
};
use crate::checks::{check_bytes, check_number};
use bg_wire::{LoadFault, Saved, load};
use std::alloc::Global;
use std::process::Abort;
use std::test::Fail;

/// A number of an entry that no record has: 1000001.
const TOO_GREAT: [u8; 4] = [0, 0x0f, 0x42, 0x41];

/// Whether the bytes are not loaded, and this is why.
fn is_refused(alloc: Global, bytes: &[u8], fault: LoadFault) -> bool {
    load(alloc, bytes).err() == Some(fault)
}

/// The bytes are not loaded, and this is why.
pub(crate) fn check_load_fault(rt: &(impl AllocGlobal + Abort), bytes: &[u8], fault: LoadFault) {
    check_bytes(rt, bytes, is_refused(rt.alloc(), bytes, fault));
}

/// The byte at an offset is another, and so the bytes are refused for this.
type Change = (usize, u8, LoadFault);

/// Whether the bytes are refused with a change, for what it says.
fn is_refused_with(rt: &(impl AllocGlobal + Abort), bytes: &[u8], change: Change) -> bool {
    let (offset, byte, fault) = change;
    let changed = with_byte(rt, bytes, offset, byte);
    is_refused(rt.alloc(), changed.as_slice(), fault)
}

/// The bytes are refused with each change.
fn check_changes(rt: &(impl AllocGlobal + Abort), bytes: &[u8], changes: &[Change]) {
    for (i, change) in changes.iter().enumerate() {
        check_number(rt, "change", i, is_refused_with(rt, bytes, *change));
    }
}

const OF_THE_SEAT: [Change; 19] = [
    (36, 3, LoadFault::Illegal(1)),
    (3, 0x30, LoadFault::Magic),
    (3, 0x33, LoadFault::Magic),
    (4, 0, LoadFault::Field(19)),
    (4, 3, LoadFault::Field(4)),
    (13, 0, LoadFault::Field(13)),
    (13, 100, LoadFault::Field(13)),
    (14, 0, LoadFault::Field(14)),
    (14, 3, LoadFault::Field(14)),
    (18, 0, LoadFault::Field(15)),
    (19, 2, LoadFault::Field(19)),
    (23, 0, LoadFault::Field(20)),
    (24, 1, LoadFault::Field(24)),
    (27, 8, LoadFault::Field(27)),
    (30, 1, LoadFault::Field(30)),
    (32, 1, LoadFault::Short),
    (33, 0, LoadFault::Extra),
    // A pass, behind which bytes are left.
    (34, 10, LoadFault::Extra),
    (34, 11, LoadFault::Field(34)),
];

#[test]
fn changed_saves_refused(rt: HostRuntime) {
    check_changes(&rt, &SEAT_SAVE, &OF_THE_SEAT);
}

const OF_THE_OLD_SEAT: [Change; 15] = [
    (31, 3, LoadFault::Illegal(1)),
    (3, 0x30, LoadFault::Magic),
    (3, 0x33, LoadFault::Magic),
    (4, 0, LoadFault::Field(18)),
    (4, 3, LoadFault::Field(4)),
    (13, 0, LoadFault::Field(13)),
    (13, 100, LoadFault::Field(13)),
    (17, 0, LoadFault::Field(14)),
    (18, 2, LoadFault::Field(18)),
    (20, 0, LoadFault::Field(19)),
    (21, 1, LoadFault::Field(21)),
    (24, 8, LoadFault::Field(24)),
    (27, 1, LoadFault::Short),
    (28, 0, LoadFault::Extra),
    (29, 10, LoadFault::Field(29)),
];

#[test]
fn changed_old_saves_refused(rt: HostRuntime) {
    check_changes(&rt, &OLD_SEAT_SAVE, &OF_THE_OLD_SEAT);
}

/// The bytes are refused with others from an offset on.
fn check_with(
    rt: &(impl AllocGlobal + Abort),
    bytes: &[u8],
    offset: usize,
    new: &[u8],
    fault: LoadFault,
) {
    check_load_fault(rt, with_bytes(rt, bytes, offset, new).as_slice(), fault);
}

/// A number above 1000000 is out of its range in the second layout: of a claim, and of entries with
/// and without one.
#[test]
fn great_numbers_refused(rt: HostRuntime) {
    check_with(&rt, &SEAT_SAVE, 20, &TOO_GREAT, LoadFault::Field(20));
    check_with(&rt, &SEAT_SAVE, 30, &TOO_GREAT, LoadFault::Field(30));
    check_with(&rt, &REFEREE_SAVE, 20, &TOO_GREAT, LoadFault::Field(20));
}

/// The bytes are refused with more behind them.
fn check_joined(rt: &(impl AllocGlobal + Abort), bytes: &[u8], more: &[u8], fault: LoadFault) {
    check_load_fault(rt, joined(rt, bytes, more).as_slice(), fault);
}

/// So many entries are told, and none is there.
#[test]
fn missing_entries(rt: HostRuntime) {
    check_joined(
        &rt,
        &REFEREE_SAVE[..20],
        &[0, 0x0f, 0x42, 0x40],
        LoadFault::Short,
    );
    check_joined(
        &rt,
        &OLD_REFEREE_SAVE[..19],
        &[0xff, 0xff],
        LoadFault::Short,
    );
}

/// With an illegal entry at an offset, and a byte too many, it is the byte that is told.
fn check_extra(rt: &(impl AllocGlobal + Abort), bytes: &[u8], offset: usize) {
    let illegal = with_byte(rt, bytes, offset, 3);
    check_joined(rt, illegal.as_slice(), &[0], LoadFault::Extra);
}

/// The entries are tried once the whole layout holds.
#[test]
fn entries_are_tried_last(rt: HostRuntime) {
    check_extra(&rt, &SEAT_SAVE, 36);
    check_extra(&rt, &OLD_SEAT_SAVE, 31);
    // The second entry is the first that does not follow.
    check_with(&rt, &REFEREE_SAVE, 32, &[4], LoadFault::Illegal(2));
}

/// Whether two saves are of one party, number, claim and match.
fn have_the_same_front(saved: &Saved, other: &Saved) -> bool {
    let (log, others) = (&saved.log, &other.log);
    (saved.party, saved.save) == (other.party, other.save)
        && saved.claim == other.claim
        && (log.id(), log.length(), log.rules()) == (others.id(), others.length(), others.rules())
}

/// What is saved is loaded again, as it was.
fn check_again(rt: &(impl AllocGlobal + Abort), saved: &Saved)
    requires { IsSavable (parts_of saved.now) }
{
    let text = text_of(rt, saved);
    let again = kept(rt, text);
    check_bytes(rt, text, have_the_same_front(again, saved));
    check_entries(rt, &again.log, &saved.log);
}

/// What was loaded of bytes is spelled as they are in the second layout; in the first it is loaded
/// again of its text.
fn check_spelled(rt: &(impl AllocGlobal + Abort), saved: &Saved, bytes: &[u8])
    requires { IsSavable (parts_of saved.now) }
{
    if bytes.get(3) == Some(&0x32) {
        check_saved(rt, saved, bytes);
    } else {
        check_again(rt, saved);
    }
}

/// The same, where the bytes are loaded, whatever byte is at an offset.
fn check_bytes_at(rt: &(impl AllocGlobal + Abort), bytes: &[u8], offset: usize) {
    for byte in 0..=255 {
        let changed = with_byte(rt, bytes, offset, byte);
        if let Ok(saved) = loaded(rt.alloc(), changed.as_slice()) {
            check_spelled(rt, &saved, changed.as_slice());
        }
    }
}

/// A part of a saved text is short.
#[test]
fn cut_and_changed_saves(rt: HostRuntime) {
    check_each_offset(&rt, &REFEREE_SAVE);
    check_each_offset(&rt, &SEAT_SAVE);
    check_each_offset(&rt, &OLD_REFEREE_SAVE);
    check_each_offset(&rt, &OLD_SEAT_SAVE);
}

fn check_each_offset(rt: &(impl AllocGlobal + Abort), bytes: &[u8]) {
    for offset in 0..bytes.len() {
        check_load_fault(rt, &bytes[..offset], LoadFault::Short);
        check_bytes_at(rt, bytes, offset);
    }
}

/// Loads once more where memory is refused.
fn loaded_at_last(alloc: Global, bytes: &[u8]) -> Result<Saved, LoadFault>
    ensures { IfOk result (λ saved. IsSavable (parts_of saved)) }
{
    match loaded(alloc, bytes) {
        Err(LoadFault::Memory) => loaded(alloc, bytes),
        other => other,
    }
}

/// The text of what is loaded of the bytes is the other one.
fn check_growths(rt: &(impl AllocGlobal + Abort), bytes: &[u8], text: &[u8]) -> Result<(), Fail> {
    let saved = loaded_at_last(rt.alloc(), bytes)?;
    if check_text(rt, &saved, text).is_err() {
        check_text(rt, &saved, text)?;
    }
    Ok(())
}

/// Where memory is refused the same call then succeeds. No run of the tests refuses any, but
/// `tools/checks/refuse_growths` refuses each growth in turn.
#[test]
fn refused_growths(rt: HostRuntime) -> Result<(), Fail> {
    check_growths(&rt, &REFEREE_SAVE, &REFEREE_SAVE)?;
    check_growths(&rt, &SEAT_SAVE, &SEAT_SAVE)?;
    check_growths(&rt, &OLD_REFEREE_SAVE, &REFEREE_SAVE)?;
    check_growths(&rt, &OLD_SEAT_SAVE, &SEAT_SAVE)
}
