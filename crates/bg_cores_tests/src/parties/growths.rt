//! Refused growths.
use crate::checks::{check_no_growth_is_left, check_row};
use crate::parties::{TERMS, resigns};
use bg_parties::{OpenFault, Party, RoleFault, Taken};
use bg_referee::{DueFault, TakeOutcome};
use bg_wire::{RestoreRefusal, SaveRefusal};
use std::alloc::Global;

/// Whether the opening 3 1 is entry 1, also where the memory for it is refused once.
fn opens(referee: &mut Party) -> bool {
    match referee.due(12) {
        Err(RoleFault::Core(DueFault::Memory)) => {
            referee.held().is_empty() && referee.due(12) == Ok(1)
        }
        first => first == Ok(1),
    }
}

/// Whether the seat of X gives the match up by entry 2, also where the memory for it is refused
/// once.
fn gives_up(referee: &mut Party) -> bool {
    let accepted = Taken::Referee(TakeOutcome::Accepted(2));
    match referee.take(&resigns(1), 0) {
        Taken::Referee(TakeOutcome::Memory) => {
            referee.held().len() == 1 && referee.take(&resigns(1), 0) == accepted
        }
        first => first == accepted,
    }
}

/// The text of the next save, which is then marked, also where the memory for it is refused once.
/// It lasts.
fn saved(referee: &mut Party) -> Option<&'static [u8]> {
    let next = match referee.to_save() {
        Err(RoleFault::Core(SaveRefusal::Memory)) => referee.to_save(),
        next => next,
    };
    let (_, save, text) = next.ok()?;
    let text = text.leak();
    referee.mark_saved(save).ok()?;
    Some(text)
}

/// The referee that a saved text restores, also where the memory for it is refused once.
fn resumed(alloc: Global, text: &[u8]) -> Result<Party, OpenFault> {
    match Party::open(alloc, 0, 1, TERMS, b"", text) {
        Err(OpenFault::Restore(RestoreRefusal::Memory)) => {
            Party::open(alloc, 0, 1, TERMS, b"", text)
        }
        first => first,
    }
}

/// What a referee saves who opens the game.
fn first_text(alloc: Global) -> Option<&'static [u8]> {
    let mut referee = resumed(alloc, b"").ok()?;
    let text = if opens(&mut referee) {
        saved(&mut referee)
    } else {
        None
    };
    if referee.saved() == Some(1) {
        text
    } else {
        None
    }
}

/// What the referee of this text saves once X gives the match up.
fn second_text(alloc: Global, first: &[u8]) -> Option<&'static [u8]> {
    let mut referee = resumed(alloc, first).ok()?;
    if gives_up(&mut referee) {
        saved(&mut referee)
    } else {
        None
    }
}

/// Whether the referee of this text holds both entries.
fn holds_both(alloc: Global, second: &[u8]) -> bool {
    match resumed(alloc, second) {
        Ok(referee) => referee.held().len() == 2,
        Err(_) => false,
    }
}

/// Where memory is refused nothing has changed, and the same call then succeeds. No run of the
/// tests refuses any, but `tools/checks/refuse_growths` refuses each growth in turn, and learns by
/// the last row how many came before.
#[test]
fn refused_growths(rt: HostRuntime) {
    let first = first_text(rt.alloc()).expect(&rt, "the text of the opening");
    let second = second_text(rt.alloc(), first).expect(&rt, "the text of both entries");
    check_row(&rt, "both entries", holds_both(rt.alloc(), second));
    check_no_growth_is_left(&rt);
}
