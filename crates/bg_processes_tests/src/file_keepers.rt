//! What is noted of files and folders that fail.
use crate::checks::check;
use crate::helpers::folders::{new_folder, path_in, remove_folder};
use crate::helpers::hosts::{Host, Hosted};
use crate::helpers::lasting::lasting_text;
use crate::helpers::slots::{Slots, read, slots_of, write};
use crate::helpers::stand_ins::{StandIn, stand_in};
use crate::helpers::told_failures::{check_told, failures};
use bg_processes::Failures;
use bg_wire::Slot;
use bg_world::DeviceFault;
use std::fs;
use std::process::Abort;

const FAILED: Option<DeviceFault> = Some(DeviceFault::Failed);

/// Writes and reads of both slots fail so, or not: of slot 0, and of slot 1.
fn check_both(
    rt: &impl Abort,
    slots: &mut Slots<'_>,
    zero: Option<DeviceFault>,
    one: Option<DeviceFault>,
    when: &str,
) {
    check(rt, write(slots, Slot::Zero, b"zero") == zero, when);
    check(rt, write(slots, Slot::One, b"one") == one, when);
    check(rt, read(slots, Slot::Zero) == zero, when);
    check(rt, read(slots, Slot::One) == one, when);
}

/// The name of the folder without the control character that it ends with.
fn shown<'a>(rt: &impl Abort, folder: &'a str, end: &str) -> &'a str {
    folder.strip_suffix(end).expect(rt, "such an end")
}

#[test]
fn a_folder_that_cant_be_synced(rt: HostRuntime) {
    check_unsynced(&rt);
}

/// The files of a party in a folder that can't be synced.
fn check_unsynced(rt: &impl Host) {
    let folder = new_folder(rt, "sync\u{1b}");
    let (files, failures) = (stand_in(rt, 0), failures(rt));
    let slots = slots_of(rt, files, folder, 1, failures);
    files.barred.set(folder);
    check_taken_back(rt, slots, path_in(rt, folder, "party-1.0"));
    check_unsynced_told(rt, failures, folder);
    check_synced_once(rt, slots, files, folder);
    check_told(rt, failures, folder, "");
    remove_folder(rt, folder);
}

/// While the folder can't be synced, the name of a file may be lost: so what was written to the
/// file at this path is taken back, and nothing is read.
fn check_taken_back(rt: &impl Host, slots: &mut Slots<'_>, path: &str) {
    for when in &["not synced", "not synced again"] {
        check_both(rt, slots, FAILED, FAILED, when);
        check(rt, is_empty(rt, path), when);
    }
}

/// The folder is synced once for each file, and then no more.
fn check_synced_once<'a>(
    rt: &impl Abort,
    slots: &mut Slots<'_>,
    files: &StandIn<'a>,
    folder: &'a str,
) {
    files.barred.set("");
    check_both(rt, slots, None, None, "synced");
    files.barred.set(folder);
    check_both(rt, slots, None, None, "synced before");
}

/// Whether there is a file with no bytes.
fn is_empty(rt: &impl Host, path: &str) -> bool {
    match fs::read(rt.host(), path) {
        Ok(bytes) => bytes.is_empty(),
        Err(_) => false,
    }
}

fn check_unsynced_told(rt: &(impl AllocGlobal + Abort), failures: &Failures, folder: &str) {
    let shown = shown(rt, folder, "\u{1b}");
    let wanted = format!(in rt.alloc();
        "{shown}\\u{{1b}} could not be synced: permission denied\n"
    );
    let wanted = lasting_text(rt, wanted.expect(rt, "memory"));
    check_told(rt, failures, folder, wanted);
}

#[test]
fn a_file_that_cant_be_opened(rt: HostRuntime) {
    check_unopened(&rt);
}

/// One file fails, and the other does not.
fn check_unopened(rt: &impl Host) {
    let folder = new_folder(rt, "file\n");
    let (files, failures) = (stand_in(rt, 0), failures(rt));
    files.barred.set(path_in(rt, folder, "party-2.1"));
    let slots = slots_of(rt, files, folder, 2, failures);
    check_both(rt, slots, None, FAILED, "one file fails");
    check_both(rt, slots, None, FAILED, "one file fails again");
    check_unopened_told(rt, failures, folder);
    remove_folder(rt, folder);
}

fn check_unopened_told(rt: &(impl AllocGlobal + Abort), failures: &Failures, folder: &str) {
    let shown = shown(rt, folder, "\n");
    let wanted = format!(in rt.alloc();
        "{shown}\\n/party-2.1 could not be written: permission denied\n\
         {shown}\\n/party-2.1 could not be read: permission denied\n"
    );
    let wanted = lasting_text(rt, wanted.expect(rt, "memory"));
    check_told(rt, failures, folder, wanted);
}
