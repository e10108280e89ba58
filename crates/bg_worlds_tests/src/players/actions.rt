//! The calls of automatic players and of their matches, each in one short function with no
//! contract.
use crate::checks::check;
use bg_auto::{auto_action, sim_text};
use bg_board::Player;
use bg_match::{Action, Record, Rules};
use bg_text::{Verdict, judge_text, parse_entry};
use bg_world::ScriptFault;
use std::alloc::{AllocError, Global};
use std::process::Abort;
use std::str;

/// What the player does.
pub(crate) fn action(
    alloc: Global,
    record: &Record,
    player: Player,
) -> Result<Option<Action>, AllocError> {
    auto_action(alloc, record, player)
}

/// The entry of this line is the next one.
pub(crate) fn push(rt: &impl Abort, record: &mut Record, line: &str) {
    let (_, entry) = parse_entry(line.as_bytes()).expect(rt, "the line of an entry");
    check(rt, line, record.push(entry).is_ok());
}

/// A record of no entry.
pub(crate) fn empty_record(rt: &(impl AllocGlobal + Abort), length: u8, rules: Rules) -> Record {
    Record::new(rt.alloc(), 1, length, rules).expect(rt, "a length from 1 to 99")
}

/// What is printed of a match after so many events.
pub(crate) fn text_of(
    alloc: Global,
    seed: u64,
    length: u8,
    rules: Rules,
    watchers: u8,
    steps: u32,
) -> Result<Vec<u8>, ScriptFault> {
    sim_text(alloc, seed, length, rules, watchers, steps)
}

/// The same as a text.
pub(crate) fn text_in<'a>(rt: &impl Abort, bytes: &'a [u8]) -> &'a str {
    str::from_utf8(bytes).expect(rt, "a text")
}

/// What is printed of a match before its parties.
pub(crate) fn transcript_in<'a>(rt: &impl Abort, text: &'a str) -> &'a str {
    let (transcript, _) = text.split_once("party 0: ").expect(rt, "parties");
    transcript
}

/// The transcript is good.
pub(crate) fn check_transcript(rt: &(impl AllocGlobal + Abort), transcript: &str) {
    let judgement = judge_text(rt.alloc(), transcript.as_bytes()).expect(rt, "memory");
    check(
        rt,
        "a good transcript",
        matches!(judgement.verdict, Verdict::Fine(_)),
    );
}
