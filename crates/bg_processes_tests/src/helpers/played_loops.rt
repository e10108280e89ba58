//! Matches over sockets and files, from the start or from what a folder has.

use crate::helpers::hosts::{Host, Hosted};
use bg_auto::LoopFault;
use bg_match::{Rules, Terms};
use bg_processes::{Failures, run_loop};
use bg_streams::Writing;

pub(crate) const SEED: u64 = 7;

/// A match of one point, by the first rules.
pub(crate) const SHORT: Terms = Terms {
    length: 1,
    rules: Rules::One,
};

/// Prints into a text so many rounds of a match over the folder, or says why it ends early.
fn play(
    rt: &impl Host,
    folder: &str,
    seed: u64,
    terms: Terms,
    rounds: u32,
    text: &mut Vec<u8>,
) -> Result<(), LoopFault> {
    run_loop(
        rt.host(),
        seed,
        terms.length,
        terms.rules,
        rounds,
        folder,
        &Failures::new(),
        &mut Writing::new(text),
    )
}

/// What is printed of so many rounds of a match over the folder, or why it ends early.
pub(crate) fn try_played(
    rt: &impl Host,
    folder: &str,
    seed: u64,
    terms: Terms,
    rounds: u32,
) -> Result<&'static [u8], LoopFault> {
    let mut text = Vec::new(rt.alloc());
    play(rt, folder, seed, terms, rounds, &mut text)?;
    let text: &[u8] = text.leak();
    Ok(text)
}

/// The same, where it does not end early.
pub(crate) fn played(
    rt: &impl Host,
    folder: &str,
    seed: u64,
    terms: Terms,
    rounds: u32,
) -> &'static [u8] {
    try_played(rt, folder, seed, terms, rounds).expect(rt, "so many rounds")
}
