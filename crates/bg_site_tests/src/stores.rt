//! Texts that come near the limit of a store, and the files of a match that a store gets.

use crate::checks::{check_answer, check_number};
use crate::lasting::lasting;
use bg_match::{Record, Rules};
use bg_stores::{Copies, LongTexts};
use bg_wire::{REFEREE, next_save};
use std::alloc::{AllocError, Global};
use std::process::Abort;
use std::{fs, io};

/// Texts of the match `long` in order, each with whether it is taken, and what is told of the match
/// then: that it comes near the limit, or is full.
const TEXTS: [(u32, bool, &str); 8] = [
    (404_999, true, ""),
    (405_000, true, "near"),
    (450_000, true, ""),
    (450_001, false, "full"),
    (450_002, false, ""),
    (405_000, true, ""),
    (450_000, true, ""),
    (3, true, ""),
];

/// The same where the first long text is beyond the limit.
const BEYOND: [(u32, bool, &str); 3] = [
    (450_001, false, "full"),
    (450_000, true, ""),
    (405_000, true, ""),
];

#[test]
fn a_match_is_told_once_to_be_near_and_once_to_be_full(rt: HostRuntime) {
    check_texts(&rt, lasting(&rt, LongTexts::none(rt.alloc())), &TEXTS);
    check_texts(&rt, lasting(&rt, LongTexts::none(rt.alloc())), &BEYOND);
}

/// Each text is taken as it should be, and what is told then is told once.
fn check_texts(rt: &impl Abort, long: &LongTexts, texts: &[(u32, bool, &str)]) {
    for (length, is_taken, told) in texts {
        let was_taken = long.check("long/party-0.1", *length as usize).is_ok();
        check_number(
            rt,
            "taking a text of bytes:",
            *length,
            was_taken == *is_taken,
        );
        let is_told = told_by(long) == *told && told_by(long) == "";
        check_number(rt, "what is told behind bytes:", *length, is_told);
    }
}

/// What is told next: that a match comes near the limit, or is full, or nothing.
fn told_by(long: &LongTexts) -> &'static str {
    match long.next_untold() {
        Some((_, true)) => "full",
        Some((_, false)) => "near",
        None => "",
    }
}

/// The saves in the slots of a referee, and which slot a store gets. A save stands by its number,
/// where 0 stands for another text, and a hyphen for no file.
const SLOTS: &str = "\
- - > no slot
- 1 > slots/party-0.1
2 - > slots/party-0.0
2 1 > slots/party-0.0
2 3 > slots/party-0.1
0 1 > slots/party-0.1
2 0 > slots/party-0.0
0 0 > slots/party-0.0";

#[test]
fn a_store_gets_the_newer_save_of_a_party(rt: HostRuntime) {
    for row in SLOTS.lines() {
        check_slots(&rt, &rt, row);
    }
}

fn check_slots(rt: &impl Abort, host: &HostRuntime, row: &str) {
    let (saves, wanted) = row.split_once(" > ").expect(rt, "an arrow");
    let (zero, one) = saves.split_once(' ').expect(rt, "two saves");
    let taken = taken_of(host, zero, one).expect(rt, "the files of a match");
    check_answer(rt, row, taken, taken == wanted);
}

/// Which slot a store gets of a match whose slots of the referee have these saves. Besides it, the
/// store gets the mark that the match isn't hidden.
fn taken_of<'a>(host: &HostRuntime, zero: &str, one: &str) -> io::Result<&'a str> {
    fs::create_dir(host, "slots")?;
    put_slot(host, "slots/party-0.0", zero)?;
    put_slot(host, "slots/party-0.1", one)?;
    let copies = Copies {
        rt: host,
        folder: ".",
    };
    let files: &'a [_] = copies.all_files("slots")?.leak();
    fs::remove_dir_all(host, "slots")?;
    Ok(match (files.get(1), files.get(2)) {
        (Some(file), None) => file.name.as_str(),
        (None, _) => "no slot",
        (Some(_), Some(_)) => "more files",
    })
}

/// Writes a save into a file, if there is to be one.
fn put_slot(host: &HostRuntime, path: &str, save: &str) -> io::Result<()> {
    let Ok(number) = save.parse() else {
        return Ok(());
    };
    let text = save_of(host.alloc(), number)?.leak();
    fs::write(host, path, text)
}

/// The save of this number of a referee whose match has just begun; 0 stands for another text.
fn save_of(alloc: Global, number: u32) -> Result<Vec<u8>, AllocError> {
    let Some(last) = number.checked_sub(1) else {
        return b"another text".to_vec(alloc);
    };
    let Ok(record) = Record::new(alloc, 7, 1, Rules::One) else {
        return Err(AllocError);
    };
    match next_save(alloc, last, REFEREE, &None, &record) {
        Ok((_, _, text)) => Ok(text),
        Err(_) => Err(AllocError),
    }
}
