//! The files of a party: what is away is not empty, and what was not there before is.
use crate::checks::check;
use crate::helpers::folders::{
    make_folder, mode_of, new_folder, path_in, remove_empty, remove_file, remove_folder, rename,
    write_file,
};
use crate::helpers::hosts::{Host, Hosted};
use crate::helpers::lasting::lasting_text;
use crate::helpers::told_failures::{check_told, failures, told};
use crate::system::slots::{Files, check_away, check_fails, check_have, check_writes, files_of};
use bg_system::Failures;
use bg_wire::Slot;
use std::io::ErrorKind;
use std::process::Abort;

/// The files of a party in a folder, over the system of a test.
fn files<'a>(
    rt: &'a impl Host,
    folder: &str,
    party: u8,
    failures: &'a Failures,
) -> &'a mut Files<'a> {
    files_of(rt, rt.host(), folder, party, failures)
}

/// A new folder of this name for party 1, which has written to both slots.
fn written_folder(rt: &impl Host, name: &str) -> &'static str {
    let folder = new_folder(rt, name);
    let files = files(rt, folder, 1, failures(rt));
    check_writes(rt, files, Slot::Zero, "zero");
    check_writes(rt, files, Slot::One, "one");
    folder
}

/// A place for the folder to be moved to.
fn elsewhere(rt: &(impl AllocGlobal + Abort), folder: &str) -> &'static str {
    let path = format!(in rt.alloc(); "{folder}-elsewhere");
    lasting_text(rt, path.expect(rt, "memory for a path"))
}

/// Neither a folder that was moved away nor one that stands in its place has slots, until the first
/// is back.
#[test]
fn a_folder_that_is_away_for_a_while(rt: HostRuntime) {
    check_away_for_a_while(&rt);
}

/// The folder is moved away and back, and goes on.
fn check_away_for_a_while(rt: &impl Host) {
    let folder = written_folder(rt, "away");
    let (elsewhere, failures) = (elsewhere(rt, folder), failures(rt));
    let files = files(rt, folder, 1, failures);
    check_have(rt, files, b"zero", b"one", "before");
    rename(rt, folder, elsewhere);
    check_away(rt, files, "moved away");
    make_folder(rt, folder);
    check_away(rt, files, "another folder");
    // It is empty: else it is not removed so.
    remove_empty(rt, folder);
    rename(rt, elsewhere, folder);
    check_have(rt, files, b"zero", b"one", "back again");
    check_writes(rt, files, Slot::Zero, "next");
    check_have(rt, files, b"next", b"one", "it goes on");
    let lines = "DIR can't be found: it was there before, and is missing now\n";
    check_told(rt, failures, "DIR", lines);
    remove_folder(rt, folder);
}

/// A folder that is missing from the beginning has no empty slots either: it may be away.
#[test]
fn a_folder_that_is_away_at_first(rt: HostRuntime) {
    check_away_at_first(&rt);
}

/// The folder comes to its place.
fn check_away_at_first(rt: &impl Host) {
    let folder = written_folder(rt, "away-at-first");
    let (elsewhere, failures) = (elsewhere(rt, folder), failures(rt));
    rename(rt, folder, elsewhere);
    let files = files(rt, folder, 1, failures);
    check_away(rt, files, "before it was there");
    rename(rt, elsewhere, folder);
    check_have(rt, files, b"zero", b"one", "there");
    let said = told(rt, failures, "DIR");
    let is_one = said.starts_with("DIR can't be found: ") && said.lines().count() == 1;
    check(rt, is_one, said);
    remove_folder(rt, folder);
}

/// A folder in the place of that which the files were read from is said to be another.
#[test]
fn another_folder_is_said(rt: HostRuntime) {
    check_replaced(&rt);
}

/// A copy of the folder, which is another one too, comes to its place.
fn check_replaced(rt: &impl Host) {
    let folder = written_folder(rt, "replaced");
    let (elsewhere, failures) = (elsewhere(rt, folder), failures(rt));
    let files = files(rt, folder, 1, failures);
    check_have(rt, files, b"zero", b"one", "before");
    rename(rt, folder, elsewhere);
    written_folder(rt, "replaced");
    check_away(rt, files, "a copy in its place");
    let lines = "DIR can't be found: another folder stands there than at the start\n";
    check_told(rt, failures, "DIR", lines);
    remove_folder(rt, folder);
    remove_folder(rt, elsewhere);
}

/// A slot whose file was there and is missing is not empty; one that never had a file is.
#[test]
fn a_file_that_is_missing(rt: HostRuntime) {
    check_missing_file(&rt);
}

/// What is said of a file that was there and is missing, once for each call that fails.
const MISSING: &str = "\
DIR/party-2.1 could not be read: it was there before, and is missing now
DIR/party-2.1 could not be written: it was there before, and is missing now
";

/// The file of a slot is taken away, put back, and taken away.
fn check_missing_file(rt: &impl Host) {
    let folder = new_folder(rt, "missing");
    let (path, noted) = (path_in(rt, folder, "party-2.1"), failures(rt));
    let own = files(rt, folder, 2, noted);
    check_have(rt, own, b"", b"", "no file yet");
    check_writes(rt, own, Slot::One, "one");
    check_have(rt, own, b"", b"one", "one file");
    remove_file(rt, path);
    // As often as it is asked for, the slot is neither empty nor written anew.
    let missing = ErrorKind::NotFound;
    check_fails(rt, own, Slot::One, missing, "missing");
    check_fails(rt, own, Slot::One, missing, "still missing");
    check_told(rt, noted, "DIR", MISSING);
    check_writes(rt, own, Slot::Zero, "zero");
    write_file(rt, path, b"put back");
    check_have(rt, own, b"zero", b"put back", "put back");
    remove_file(rt, path);
    let next = files(rt, folder, 2, failures(rt));
    check_have(rt, next, b"zero", b"", "the next process");
    remove_folder(rt, folder);
}

/// What is no plain file is neither read nor written; here it is a folder.
#[test]
fn no_plain_file(rt: HostRuntime) {
    check_no_plain_file(&rt);
}

/// Slot 0 has no plain file.
fn check_no_plain_file(rt: &impl Host) {
    let folder = new_folder(rt, "no-plain-file");
    make_folder(rt, path_in(rt, folder, "party-1.0"));
    let failures = failures(rt);
    let files = files(rt, folder, 1, failures);
    let kind = ErrorKind::InvalidInput;
    check_fails(rt, files, Slot::Zero, kind, "no plain file");
    let lines = "DIR/party-1.0 could not be read: it is no plain file\n\
                 DIR/party-1.0 could not be written: it is no plain file\n";
    check_told(rt, failures, "DIR", lines);
    remove_folder(rt, folder);
}

/// Only its owner reads a saved file.
#[test]
fn modes_of_slot_files(rt: HostRuntime) {
    check_modes(&rt);
}

fn check_modes(rt: &impl Host) {
    let folder = written_folder(rt, "modes");
    check_mode(rt, folder, "party-1.0");
    check_mode(rt, folder, "party-1.1");
    remove_folder(rt, folder);
}

fn check_mode(rt: &impl Host, folder: &str, name: &str) {
    check(rt, mode_of(rt, path_in(rt, folder, name)) == 0o600, name);
}
