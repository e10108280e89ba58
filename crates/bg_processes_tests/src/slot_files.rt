//! Which file has what: single calls of the files of a match, and the first rounds.
use crate::checks::{check, check_number};
use crate::helpers::folders::{new_folder, path_in, remove_folder};
use crate::helpers::hosts::{Host, Hosted};
use crate::helpers::played_loops::{SEED, SHORT, played};
use crate::helpers::slots::{Slots, has, read, slots_of, write};
use crate::helpers::stand_ins::{StandIn, stand_in};
use crate::helpers::told_failures::failures;
use bg_wire::{Slot, load};
use bg_world::DeviceFault;
use std::alloc::Global;
use std::io::ErrorKind;
use std::process::Abort;
use std::{fs, io};

/// The bytes of a file in a folder; none where there is no such file.
fn file(rt: &impl Host, folder: &str, name: &str) -> Option<&'static [u8]> {
    match fs::read(rt.host(), path_in(rt, folder, name)) {
        Ok(bytes) => {
            let bytes: &[u8] = bytes.leak();
            Some(bytes)
        }
        Err(error) => {
            check(rt, error.kind() == ErrorKind::NotFound, name);
            None
        }
    }
}

/// A file has these bytes; `None` where there is no such file.
fn check_file(rt: &impl Host, folder: &str, name: &str, bytes: Option<&[u8]>) {
    let has = match (file(rt, folder, name), bytes) {
        (Some(found), Some(bytes)) => found == bytes,
        (None, None) => true,
        _ => false,
    };
    check(rt, has, name);
}

/// The slots have these bytes.
fn check_slots(rt: &impl Abort, slots: &mut Slots<'_>, zero: &[u8], one: &[u8], when: &str) {
    check(
        rt,
        has(slots, Slot::Zero, zero) && has(slots, Slot::One, one),
        when,
    );
}

fn check_writes(rt: &impl Abort, slots: &mut Slots<'_>, slot: Slot, bytes: &[u8], what: &str) {
    check(rt, write(slots, slot, bytes).is_none(), what);
}

/// A folder has so many files.
fn check_count(rt: &impl Host, folder: &str, count: usize) {
    check_number(
        rt,
        "files:",
        count as u64,
        has_count(rt.host(), folder, count),
    );
}

fn has_count(host: &HostRuntime, folder: &str, count: usize) -> bool {
    match fs::read_dir(host, folder) {
        Ok(files) => files.count() == count,
        Err(_) => false,
    }
}

/// The parties that keep saves, and their files: slot S of party P is the file `party-P.S`.
const FILES: [(u8, &str, &str); 3] = [
    (0, "party-0.0", "party-0.1"),
    (1, "party-1.0", "party-1.1"),
    (2, "party-2.0", "party-2.1"),
];

/// A write changes its slot's file, and no other. A shorter text leaves nothing of the longer one.
#[test]
fn files_of_slots(rt: HostRuntime) {
    check_all_files(&rt);
}

/// Each party has two files.
fn check_all_files(rt: &impl Host) {
    let folder = new_folder(rt, "files-of-slots");
    for (party, zero, one) in FILES {
        let slots = slots_of(rt, stand_in(rt, 0), folder, party, failures(rt));
        check_files(rt, slots, folder, party, zero, one);
    }
    check_count(rt, folder, 6);
    remove_folder(rt, folder);
}

/// The writes of a party, and what its files have after each; of slot 0 nothing before it was
/// written.
fn check_files(
    rt: &impl Host,
    slots: &mut Slots<'_>,
    folder: &str,
    party: u8,
    zero: &str,
    one: &str,
) {
    let (long, own, short) = (b"the longer text", [party], b"text");
    check_slots(rt, slots, b"", b"", "nothing is written yet");
    check_writes(rt, slots, Slot::One, long, "the longer text");
    check_slots(rt, slots, b"", long, "the longer text is written");
    check_file(rt, folder, zero, None);
    check_file(rt, folder, one, Some(long));
    check_writes(rt, slots, Slot::Zero, &own, "a byte");
    check_slots(rt, slots, &own, long, "both are written");
    check_both(rt, folder, (zero, &own), (one, long));
    check_writes(rt, slots, Slot::One, short, "the shorter text");
    check_slots(rt, slots, &own, short, "the shorter text is written");
    check_both(rt, folder, (zero, &own), (one, short));
}

/// Two files have these bytes.
fn check_both(rt: &impl Host, folder: &str, zero: (&str, &[u8]), one: (&str, &[u8])) {
    check_file(rt, folder, zero.0, Some(zero.1));
    check_file(rt, folder, one.0, Some(one.1));
}

/// Where a file can't be opened, want of memory is told from other failures, by reads as by writes.
#[test]
fn files_that_fail(rt: HostRuntime) {
    check_failing(&rt);
}

/// The files of a party over what stands in for the system.
fn check_failing(rt: &impl Host) {
    let folder = new_folder(rt, "files-that-fail");
    let files = stand_in(rt, 0);
    let slots = slots_of(rt, files, folder, 1, failures(rt));
    check_opened_late(rt, slots, files, folder);
    remove_folder(rt, folder);
}

/// Reads and writes fail while no file can be opened.
fn check_opened_late(rt: &impl Host, slots: &mut Slots<'_>, files: &StandIn<'_>, folder: &str) {
    for &(kind, fault, what) in FAULTS {
        fail_as(files, io::Error::from(kind));
        check(rt, fails(slots, fault), what);
    }
    // A file that is missing is none that fails: it has no bytes.
    fail_as(files, io::Error::from(ErrorKind::NotFound));
    check_slots(rt, slots, b"", b"", "missing files");
    check_count(rt, folder, 0);
    files.files_fail.set(None);
    check_writes(rt, slots, Slot::One, b"text", "files that are opened");
    check_file(rt, folder, "party-1.1", Some(b"text"));
}

/// Whether a write and a read fail so.
fn fails(slots: &mut Slots<'_>, fault: DeviceFault) -> bool {
    write(slots, Slot::One, b"text") == Some(fault) && read(slots, Slot::One) == Some(fault)
}

/// Why no file is opened, and the fault that this is.
const FAULTS: &[(ErrorKind, DeviceFault, &str)] = &[
    (
        ErrorKind::OutOfMemory,
        DeviceFault::Memory,
        "want of memory",
    ),
    (
        ErrorKind::PermissionDenied,
        DeviceFault::Failed,
        "no permission",
    ),
    (ErrorKind::StorageFull, DeviceFault::Failed, "no space"),
];

/// No file is opened from now on, for this reason.
fn fail_as(files: &StandIn<'_>, error: io::Error) {
    files.files_fail.set(Some(error));
}

/// Of the system's errors the wants of memory are told from all others, by their numbers on Linux:
/// ENOMEM is 12, and the others EPERM, ENOENT, EIO, EMFILE, ENOSPC, EROFS, EADDRINUSE, ENOBUFS and
/// ECONNREFUSED.
#[test]
fn faults_of_devices(rt: HostRuntime) {
    check_faults(&rt);
}

/// The files of a party over what stands in for the system.
fn check_faults(rt: &impl Host) {
    let files = stand_in(rt, 0);
    let slots = slots_of(rt, files, ".", 1, failures(rt));
    check_numbers(rt, slots, files);
}

/// Each number has its fault.
fn check_numbers(rt: &impl Abort, slots: &mut Slots<'_>, files: &StandIn<'_>) {
    for &number in &[12, 1, 2, 5, 24, 28, 30, 98, 105, 111] {
        fail_as(files, io::Error::from_raw_os_error(number));
        let fault = if number == 12 {
            DeviceFault::Memory
        } else {
            DeviceFault::Failed
        };
        let is_so = write(slots, Slot::Zero, b"text") == Some(fault);
        check_number(rt, "error", number as u64, is_so);
    }
}

/// A file has this save of a party.
fn check_save(rt: &impl Host, folder: &str, name: &str, party: u8, save: u32) {
    let bytes = file(rt, folder, name).expect(rt, name);
    check(rt, is_save(rt.alloc(), bytes, party, save), name);
}

/// Whether bytes are this save of a party.
fn is_save(alloc: Global, bytes: &[u8], party: u8, save: u32) -> bool {
    match load(alloc, bytes) {
        Ok(saved) => saved.party == party && saved.save == save,
        Err(_) => false,
    }
}

/// In each round each party but the watcher saves once, and nothing else is kept: save 1 stands in
/// the file with the number 1, while the other one is missing, save 2 in the file with the number
/// 0, and save 3 in the place of save 1.
#[test]
fn files_of_the_first_rounds(rt: HostRuntime) {
    check_first_rounds(&rt);
}

/// The saves of three rounds.
fn check_first_rounds(rt: &impl Host) {
    let folder = new_folder(rt, "first-rounds");
    played(rt, folder, SEED, SHORT, 1);
    for (party, zero, one) in FILES {
        check_save(rt, folder, one, party, 1);
        check_file(rt, folder, zero, None);
    }
    check_count(rt, folder, 3);
    for (zeros, ones) in [(2, 1), (2, 3)] {
        played(rt, folder, SEED, SHORT, 1);
        check_saves(rt, folder, zeros, ones);
    }
    remove_folder(rt, folder);
}

/// All files have these saves of their parties.
fn check_saves(rt: &impl Host, folder: &str, zeros: u32, ones: u32) {
    for (party, zero, one) in FILES {
        check_save(rt, folder, zero, party, zeros);
        check_save(rt, folder, one, party, ones);
    }
    check_count(rt, folder, 6);
}
