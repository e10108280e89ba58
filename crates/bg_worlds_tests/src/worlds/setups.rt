//! The setups and the plans of worlds over devices in memory, as the lines of plays say them.
use bg_match::Rules;
use bg_world::{FailRead, FailSend, Plan, Setup, Tear};
use std::alloc::{AllocError, Global};
use std::process::Abort;

/// The number that a word says.
pub(crate) fn number(rt: &impl Abort, word: &str) -> u32 {
    word.parse().expect(rt, "a number")
}

/// The small number that a word says: a party, a length, or how many watch.
pub(crate) fn small_number(rt: &impl Abort, word: &str) -> u8 {
    word.parse().expect(rt, "a number up to 255")
}

/// What stands before these words and behind them.
pub(crate) fn parted<'a>(rt: &impl Abort, line: &'a str, by: &str) -> (&'a str, &'a str) {
    line.split_once(by).expect(rt, "two parts")
}

fn tear(rt: &impl Abort, words: &str, given: Option<u32>) -> Tear {
    let (party, rest) = parted(rt, words, " ");
    let (nth, cut) = parted(rt, rest, " ");
    Tear {
        party: small_number(rt, party),
        nth: number(rt, nth),
        cut: if cut == "none" {
            None
        } else if cut == "cut" {
            given
        } else {
            Some(number(rt, cut))
        },
    }
}

fn failed_send(rt: &impl Abort, words: &str) -> FailSend {
    let (nth, how) = parted(rt, words, " ");
    assert!(rt; how == "went" || how == "lost");
    FailSend {
        nth: number(rt, nth),
        went: how == "went",
    }
}

fn failed_read(rt: &impl Abort, words: &str) -> FailRead {
    let (party, nth) = parted(rt, words, " ");
    FailRead {
        party: small_number(rt, party),
        nth: number(rt, nth),
    }
}

/// The plan of the lines "fails:", where this is the cut that is given.
pub(crate) fn plan_of(
    rt: &impl Abort,
    alloc: Global,
    lines: &[&str],
    cut: Option<u32>,
) -> Result<Plan, AllocError> {
    let mut plan = Plan {
        tears: Vec::new(alloc),
        sends: Vec::new(alloc),
        reads: Vec::new(alloc),
    };
    for line in lines {
        add_failure(rt, &mut plan, line, cut)?;
    }
    Ok(plan)
}

/// Adds the failure of a line, if that is the line of one.
fn add_failure(
    rt: &impl Abort,
    plan: &mut Plan,
    line: &str,
    cut: Option<u32>,
) -> Result<(), AllocError> {
    if let Some(words) = line.strip_prefix("fails: write ") {
        Ok(plan.tears.push(tear(rt, words, cut))?)
    } else if let Some(words) = line.strip_prefix("fails: send ") {
        Ok(plan.sends.push(failed_send(rt, words))?)
    } else if let Some(words) = line.strip_prefix("fails: read ") {
        Ok(plan.reads.push(failed_read(rt, words))?)
    } else {
        Ok(())
    }
}

/// The setup of the lines "length" and "watchers".
pub(crate) fn setup_of(rt: &impl Abort, lines: &[&str]) -> Setup {
    let mut setup = Setup {
        id: 1,
        length: 1,
        rules: Rules::One,
        watchers: 0,
    };
    for line in lines {
        if let Some(word) = line.strip_prefix("length ") {
            setup.length = small_number(rt, word);
        } else if let Some(word) = line.strip_prefix("watchers ") {
            setup.watchers = small_number(rt, word);
        }
    }
    setup
}
