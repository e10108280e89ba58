//! Automatic matches.
use super::actions::{action, check_transcript, empty_record, text_in, text_of, transcript_in};
use crate::checks::{check, check_no_growth_is_left, check_row};
use bg_board::{Die, Player};
use bg_match::{Action, Entry, Rules};
use bg_streams::EngineFault;
use bg_world::{ScriptFault, WorldFault};
use std::alloc::{AllocError, Global};
use std::process::Abort;
use std::test::Fail;

/// No event, length 1, one watcher.
const NOTHING_HAPPENED: &str = "length 1
party 0: 0 entries
party 1: 0 entries
party 2: 0 entries
party 3: 0 entries
length 1 game 1 score 0-0 cube 1 middle crawford
  13  14  15  16  17  18  19  20  21  22  23  24
  X5   .   .   .  O3   .  O5   .   .   .   .  X2
  O5   .   .   .  X3   .  X5   .   .   .   .  O2
  12  11  10   9   8   7   6   5   4   3   2   1
bar X 0 O 0 off X 0 O 0
opening
";

/// Seed 2047, length 1, one watcher, 24 events.
const AFTER_24_EVENTS: &str = "length 1
open 6 4
party 0: 1 entries
party 1: 0 entries
party 2: 1 entries
party 3: 0 entries
length 1 game 1 score 0-0 cube 1 middle crawford
  13  14  15  16  17  18  19  20  21  22  23  24
  X5   .   .   .  O3   .  O5   .   .   .   .  X2
  O5   .   .   .  X3   .  X5   .   .   .   .  O2
  12  11  10   9   8   7   6   5   4   3   2   1
bar X 0 O 0 off X 0 O 0
X to move 6 4
";

#[test]
fn nothing_happens_without_events(rt: HostRuntime) {
    let text = text_of(rt.alloc(), 1, 1, Rules::One, 1, 0).expect(&rt, "memory");
    check(
        &rt,
        "nothing happened",
        text.as_slice() == NOTHING_HAPPENED.as_bytes(),
    );
}

/// The seed, the length and the watchers of a match, and why there is none.
const SETUPS: [(u64, u8, u8, Option<WorldFault>); 5] = [
    (1, 1, 254, Some(WorldFault::TooManyWatchers)),
    (1, 0, 255, Some(WorldFault::TooManyWatchers)),
    (1, 0, 0, Some(WorldFault::LengthOutOfRange)),
    (1, 100, 253, Some(WorldFault::LengthOutOfRange)),
    (u64::MAX, 99, 253, None),
];

#[test]
fn refused_matches(rt: HostRuntime) {
    for (i, (seed, length, watchers, fault)) in SETUPS.iter().enumerate() {
        let found = refusal(rt.alloc(), *seed, *length, *watchers);
        check_row(&rt, i, found == fault.map(ScriptFault::World));
    }
}

/// Why nothing is printed of such a match, if it is refused.
fn refusal(alloc: Global, seed: u64, length: u8, watchers: u8) -> Option<ScriptFault> {
    let steps = if watchers == 254 { 0 } else { 1 };
    text_of(alloc, seed, length, Rules::One, watchers, steps).err()
}

/// How many entries a line says that a party holds, if it says that.
fn count_in(rt: &impl Abort, line: &str) -> Option<u32> {
    let (_, entries) = line.strip_prefix("party ")?.split_once(": ")?;
    let count = entries.strip_suffix(" entries").expect(rt, "entries");
    Some(count.parse().expect(rt, "a number"))
}

/// No party counts more entries than the referee, which comes first.
fn check_parties(rt: &impl Abort, text: &str) {
    let mut most = None;
    for line in text.lines() {
        if let Some(count) = count_in(rt, line) {
            check(rt, line, count <= most.unwrap_or(count));
            most = most.or(Some(count));
        }
    }
}

/// The transcript, which is good, of what is printed of an automatic match by these rules. It
/// lasts.
fn good_transcript(
    rt: &(impl AllocGlobal + Abort),
    seed: u64,
    rules: Rules,
    watchers: u8,
    steps: u32,
) -> &'static str {
    let bytes = text_of(rt.alloc(), seed, 3, rules, watchers, steps).expect(rt, "memory");
    let text = text_in(rt, bytes.leak());
    check(
        rt,
        "a line for each party",
        text.matches("party ").count() == 3 + usize::from(watchers),
    );
    check_parties(rt, text);
    let transcript = transcript_in(rt, text);
    check_transcript(rt, transcript);
    transcript
}

/// One begins with the other.
fn check_one_match(rt: &impl Abort, left: &str, right: &str) {
    check(
        rt,
        "one match",
        left.starts_with(right) || right.starts_with(left),
    );
}

/// Whether somebody moves in a match of this seed: the seed and the length alone decide what its
/// entries are, and the rest how many there are.
fn moves_in(rt: &(impl AllocGlobal + Abort), seed: u64, rules: Rules) -> bool {
    let short = good_transcript(rt, seed, rules, 1, 200);
    let long = good_transcript(rt, seed, rules, 1, 2000);
    let watched = good_transcript(rt, seed, rules, 5, 2000);
    check_one_match(rt, short, long);
    check_one_match(rt, short, watched);
    check_one_match(rt, long, watched);
    long.contains(" move ")
}

/// In one of five matches somebody moves.
fn check_moves(rt: &(impl AllocGlobal + Abort), rules: Rules) {
    let mut moved = false;
    for seed in 1..=5 {
        moved = moves_in(rt, seed, rules) || moved;
    }
    check(rt, "somebody moves", moved);
}

#[test]
fn entries_by_the_first_rules(rt: HostRuntime) {
    check_moves(&rt, Rules::One);
}

#[test]
fn entries_by_the_second_rules(rt: HostRuntime) {
    check_moves(&rt, Rules::Two);
}

/// What comes of the match of this test, in which one growth may be refused, and then again.
fn text_at_last(rt: &(impl AllocGlobal + Abort), steps: u32) -> Vec<u8> {
    match text_of(rt.alloc(), 2047, 1, Rules::One, 1, steps) {
        Ok(text) => text,
        Err(fault) => {
            let is_memory = matches!(
                fault,
                ScriptFault::World(WorldFault::Memory) | ScriptFault::Engine(EngineFault::Memory)
            );
            check(rt, "want of memory", is_memory);
            text_of(rt.alloc(), 2047, 1, Rules::One, 1, steps).expect(rt, "memory")
        }
    }
}

/// Want of memory ends an automatic match of 24 events. No run of the tests refuses any, but
/// `tools/checks/refuse_growths` refuses each growth in turn.
#[test]
fn refused_growths_of_a_match(rt: HostRuntime) -> Result<(), Fail> {
    let text = text_at_last(&rt, 24);
    check(
        &rt,
        "24 events",
        text.as_slice() == AFTER_24_EVENTS.as_bytes(),
    );
    check_no_growth_is_left(rt.alloc())
}

fn check_refused_growths_of_an_action(rt: &(impl AllocGlobal + Abort)) -> Result<(), Fail> {
    let mut record = empty_record(rt, 1, Rules::One);
    if record.push(Entry::Opening(Die::Three, Die::One)).is_err() {
        record.push(Entry::Opening(Die::Three, Die::One))?;
    }
    let found = match action(rt.alloc(), &record, Player::X) {
        Ok(found) => found,
        Err(AllocError) => action(rt.alloc(), &record, Player::X)?,
    };
    check(rt, "a move", matches!(found, Some(Action::Move(_))));
    check_no_growth_is_left(rt.alloc())
}

/// An automatic player lacks memory for nothing but the list of legal turns.
#[test]
fn refused_growths_of_an_action(rt: HostRuntime) -> Result<(), Fail> {
    check_refused_growths_of_an_action(&rt)
}
