//! Matches over sockets and files.
use crate::checks::{check, check_number};
use crate::helpers::folders::{new_folder, path_in, remove_folder, write_file};
use crate::helpers::hosts::Host;
use crate::helpers::played_loops::{SEED, SHORT, played, try_played};
use crate::helpers::saved_records::{saved_record, text_of};
use bg_auto::{LoopFault, sim_text};
use bg_match::{Entry, Number, Record, Rules, Terms};
use bg_wire::REFEREE;
use bg_world::{Outcome, RestoreCause};
use std::process::Abort;

const AT_THE_START: &str = "party 0: 0 entries
party 1: 0 entries
party 2: 0 entries
party 3: 0 entries
length 1 game 1 score 0-0 cube 1 middle crawford
  13  14  15  16  17  18  19  20  21  22  23  24
  X5   .   .   .  O3   .  O5   .   .   .   .  X2
  O5   .   .   .  X3   .  X5   .   .   .   .  O2
  12  11  10   9   8   7   6   5   4   3   2   1
bar X 0 O 0 off X 0 O 0
opening
";

/// Whether the two have one entry under this number, or neither has one.
fn agree(one: &Record, other: &Record, number: Number) -> bool {
    one.entry(number) == other.entry(number)
}

/// Whether the record begins with all entries of the earlier one.
fn begins_with(record: &Record, earlier: &Record) -> bool {
    let mut begins = true;
    for number in 1..=earlier.len() {
        begins &= agree(record, earlier, number);
    }
    begins
}

/// How many entries a party holds by the final text; `None` where it is down.
pub(crate) fn count_of(text: &[u8], party: usize) -> Option<u32> {
    let line = str::from_utf8(text).ok()?.lines().nth(party)?;
    let (_, count) = line.split_once(": ")?;
    count.strip_suffix(" entries")?.parse().ok()
}

#[test]
fn no_rounds(rt: HostRuntime) {
    check_no_rounds(&rt);
}

/// What is printed of a match that did not begin.
fn check_no_rounds(rt: &impl Host) {
    let folder = new_folder(rt, "no-rounds");
    let text = played(rt, folder, SEED, SHORT, 0);
    check(rt, text == AT_THE_START.as_bytes(), "the start");
    remove_folder(rt, folder);
}

/// Plays forty rounds, and gives what the referee saved.
fn after_forty<'a>(rt: &impl Host, folder: &str) -> &'a Record {
    let text = played(rt, folder, SEED, SHORT, 40);
    let has_some = count_of(text, 0).is_some_and(|count| count >= 3);
    check(rt, has_some, "three entries of the referee");
    saved_record(rt, folder, REFEREE, SEED, SHORT)
}

#[test]
fn forty_rounds_and_forty_more(rt: HostRuntime) {
    check_forty(&rt);
}

/// The later rounds go on where the earlier ones ended.
fn check_forty(rt: &impl Host) {
    let folder = new_folder(rt, "forty-rounds");
    let earlier = after_forty(rt, folder);
    let later = after_forty(rt, folder);
    let goes_on = later.len() > earlier.len() && begins_with(later, earlier);
    check(rt, goes_on, "the later rounds go on");
    remove_folder(rt, folder);
}

/// Matches of length 3, so many rounds of each, and how many entries these have at least. The first
/// game of match 417 is over with entry 76; the first two words of match 8 have equal dice, 5 5 and
/// 4 4, and open no game.
const PLAYED: [(u64, u32, Number); 2] = [(417, 170, 80), (8, 12, 4)];

/// The entries are those that seed and length decide: those of the automatic match in memory.
#[test]
fn entries_are_those_of_the_match_in_memory(rt: HostRuntime) {
    check_matches(&rt);
}

fn check_matches(rt: &impl Host) {
    for (seed, rounds, least) in PLAYED {
        let record = record_of(rt, seed, rounds);
        let is_so = record.len() >= least && has_opening(record, seed);
        check_number(rt, "match", seed, is_so);
        check_entries(rt, seed, record);
    }
}

/// What is saved of a match after so many rounds.
fn record_of<'a>(rt: &impl Host, seed: u64, rounds: u32) -> &'a Record {
    let terms = Terms { length: 3, ..SHORT };
    let folder = new_folder(rt, "entries");
    played(rt, folder, seed, terms, rounds);
    let record = saved_record(rt, folder, REFEREE, seed, terms);
    remove_folder(rt, folder);
    record
}

/// Whether the second game of match 417 begins with its entry.
fn has_opening(record: &Record, seed: u64) -> bool {
    seed != 417 || matches!(record.entry(77), Some(Entry::Opening(..)))
}

/// The match in memory begins with the entries of a record.
fn check_entries(rt: &(impl AllocGlobal + Abort), seed: u64, record: &Record) {
    let in_memory = sim_text(rt.alloc(), seed, 3, Rules::One, 0, 14_000);
    let in_memory = in_memory.expect(rt, "a match in memory").leak();
    let is_so = in_memory.starts_with(text_of(rt, record));
    check_number(rt, "match in memory", seed, is_so);
}

/// A match over the folder stops for this cause.
fn check_stops(rt: &impl Host, folder: &str, seed: u64, cause: RestoreCause) {
    let is_so = stops(try_played(rt, folder, seed, SHORT, 10), cause);
    check_number(rt, "match", seed, is_so);
}

/// Whether a match stopped for this cause.
pub(crate) fn stops(played: Result<&[u8], LoopFault>, cause: RestoreCause) -> bool {
    match played {
        Ok(_) => false,
        Err(fault) => fault == LoopFault::Stopped(Outcome::RestoreFault(cause)),
    }
}

#[test]
fn other_files(rt: HostRuntime) {
    check_other_files(&rt);
}

/// A match stops where the files are those of another one, or are damaged.
fn check_other_files(rt: &impl Host) {
    let folder = new_folder(rt, "other-files");
    played(rt, folder, SEED, SHORT, 10);
    check_stops(rt, folder, SEED + 1, RestoreCause::WrongMatch);
    for file in ["party-0.0", "party-0.1"] {
        write_file(rt, path_in(rt, folder, file), &[0x42]);
    }
    check_stops(rt, folder, SEED, RestoreCause::Damaged);
    remove_folder(rt, folder);
}

#[test]
fn no_such_matches(rt: HostRuntime) {
    check_no_matches(&rt);
}

/// Lengths that no match has.
fn check_no_matches(rt: &impl Host) {
    let folder = new_folder(rt, "no-such-matches");
    for length in [0, 100] {
        let terms = Terms { length, ..SHORT };
        let is_refused = is_no_world(try_played(rt, folder, SEED, terms, 1));
        check_number(rt, "length", length.into(), is_refused);
    }
    remove_folder(rt, folder);
}

/// Whether there is no such match.
fn is_no_world(played: Result<&[u8], LoopFault>) -> bool {
    matches!(played, Err(LoopFault::World(_)))
}
