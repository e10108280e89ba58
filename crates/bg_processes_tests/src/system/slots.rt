//! What calls of the files of a party come to.
use crate::checks::check;
use crate::helpers::lasting::lasting;
use bg_system::{Failures, PartyFiles};
use bg_wire::Slot;
use std::io::ErrorKind;
use std::process::Abort;

pub(crate) type Files<'a> = PartyFiles<'a, HostRuntime>;

/// The files of a party in a folder of a system. They last as long as the process.
pub(crate) fn files_of<'a>(
    rt: &(impl AllocGlobal + Abort),
    host: &'a HostRuntime,
    folder: &str,
    party: u8,
    failures: &'a Failures,
) -> &'a mut Files<'a> {
    let files = PartyFiles::new(host, folder, party, failures);
    lasting(rt, files.expect(rt, "the files of a party"))
}

/// What a call came to: nothing where it succeeded, else the kind of the error.
type Came = Option<ErrorKind>;

fn read(files: &mut Files<'_>, slot: Slot) -> Came {
    match files.read(slot) {
        Ok(_) => None,
        Err(error) => Some(error.kind()),
    }
}

fn write(files: &mut Files<'_>, slot: Slot, bytes: &[u8]) -> Came {
    match files.write(slot, bytes) {
        Ok(()) => None,
        Err(error) => Some(error.kind()),
    }
}

/// A slot is written.
pub(crate) fn check_writes(rt: &impl Abort, files: &mut Files<'_>, slot: Slot, text: &str) {
    check(rt, write(files, slot, text.as_bytes()).is_none(), text);
}

/// A slot can be neither read nor written, for this reason.
pub(crate) fn check_fails(
    rt: &impl Abort,
    files: &mut Files<'_>,
    slot: Slot,
    kind: ErrorKind,
    when: &str,
) {
    let fails = read(files, slot) == Some(kind) && write(files, slot, b"new") == Some(kind);
    check(rt, fails, when);
}

/// Both slots can be neither read nor written, as their files or their folder are missing.
pub(crate) fn check_away(rt: &impl Abort, files: &mut Files<'_>, when: &str) {
    check_fails(rt, files, Slot::Zero, ErrorKind::NotFound, when);
    check_fails(rt, files, Slot::One, ErrorKind::NotFound, when);
}

/// Whether a slot has these bytes.
fn has(files: &mut Files<'_>, slot: Slot, bytes: &[u8]) -> bool {
    match files.read(slot) {
        Ok(found) => found.as_slice() == bytes,
        Err(_) => false,
    }
}

/// The slots have these bytes.
pub(crate) fn check_have(
    rt: &impl Abort,
    files: &mut Files<'_>,
    zero: &[u8],
    one: &[u8],
    when: &str,
) {
    let have = has(files, Slot::Zero, zero) && has(files, Slot::One, one);
    check(rt, have, when);
}
