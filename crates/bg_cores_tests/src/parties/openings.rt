//! How parties are opened.
use crate::checks::{check_number, check_row};
use crate::parties::{TERMS, fresh};
use bg_match::{Rules, Terms};
use bg_parties::{OpenFault, Party};
use bg_wire::RestoreRefusal;
use std::alloc::Global;
use std::process::Abort;

/// Why this party of match 1, of this length, is not opened over these bytes in slot 0.
fn refusal(alloc: Global, number: u8, length: u8, slot0: &[u8]) -> Option<OpenFault> {
    let rules = Rules::One;
    Party::open(alloc, number, 1, Terms { length, rules }, slot0, b"").err()
}

#[test]
fn lengths_beyond_the_range_are_refused(rt: HostRuntime) {
    for number in [0, 1, 2, 3, 255] {
        check_lengths(&rt, rt.alloc(), number);
    }
}

/// This party is opened for no length beyond the range.
fn check_lengths(rt: &impl Abort, alloc: Global, number: u8) {
    let refused = Some(OpenFault::LengthOutOfRange);
    let party = usize::from(number);
    check_number(
        rt,
        "length 0, party",
        party,
        refusal(alloc, number, 0, b"?") == refused,
    );
    check_number(
        rt,
        "length 100, party",
        party,
        refusal(alloc, number, 100, b"?") == refused,
    );
    check_number(
        rt,
        "length 255, party",
        party,
        refusal(alloc, number, 255, b"?") == refused,
    );
}

/// The text of a referee who has opened the match with 3 1, and saved that. It lasts.
fn saved_text(referee: &mut Party) -> Option<&'static [u8]> {
    if referee.due(12) != Ok(1) {
        return None;
    }
    let (_, save, text) = referee.to_save().ok()?;
    let text = text.leak();
    referee.mark_saved(save).ok()?;
    Some(text)
}

/// How many entries a party of a match holds over this text in slot 1, and how many are saved.
fn over(alloc: Global, number: u8, id: u64, text: &[u8]) -> Result<(u32, Option<u32>), OpenFault> {
    let party = Party::open(alloc, number, id, TERMS, b"", text)?;
    Ok((party.held().len(), party.saved()))
}

#[test]
fn saved_party_goes_on(rt: HostRuntime) {
    let text = saved_text(fresh(&rt, 0)).expect(&rt, "a saved text");
    let held = over(rt.alloc(), 0, 1, text);
    check_row(&rt, "the same party", held == Ok((1, Some(1))));
    let wrong = Err(OpenFault::Restore(RestoreRefusal::WrongMatch));
    check_row(&rt, "another party", over(rt.alloc(), 1, 1, text) == wrong);
    check_row(&rt, "another match", over(rt.alloc(), 0, 2, text) == wrong);
}

#[test]
fn damaged_slots_are_refused_but_by_watchers(rt: HostRuntime) {
    let damaged = Some(OpenFault::Restore(RestoreRefusal::Damaged));
    check_row(
        &rt,
        "the referee",
        refusal(rt.alloc(), 0, 1, b"?") == damaged,
    );
    check_row(&rt, "X", refusal(rt.alloc(), 1, 1, b"?") == damaged);
    check_row(&rt, "O", refusal(rt.alloc(), 2, 1, b"?") == damaged);
    check_row(&rt, "a watcher", opens_empty(rt.alloc(), 3, b"?"));
}

/// Whether this party is opened over these bytes in slot 0, and holds nothing.
fn opens_empty(alloc: Global, number: u8, slot0: &[u8]) -> bool {
    match Party::open(alloc, number, 1, TERMS, slot0, b"") {
        Ok(party) => party.held().is_empty(),
        Err(_) => false,
    }
}
