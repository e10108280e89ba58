//! Want of memory: no run of the tests refuses a growth, but `tools/checks/refuse_growths` refuses
//! each in turn.
use crate::checks::{check_number, check_row};
use crate::keepers::{Shelf, ShelfKeeper};
use crate::matches::settle;
use bg_auto::auto_action;
use bg_hosted::HostedMatch;
use bg_match::{Actor, Rules, Terms};
use bg_stores::LongTexts;
use bg_world::Keeper;
use std::alloc::Global;
use std::process::Abort;

/// What lacked memory is done once more, and then succeeds; what was told stays told.
#[test]
fn refused_growths_of_a_hosted_match(rt: HostRuntime) {
    check_growths(&rt);
}

fn check_growths(rt: &(impl Abort + AllocGlobal)) {
    let shelf = Shelf::new(rt.alloc());
    check_life(rt, &shelf, 1);
    check_life(rt, &shelf, 4);
    check_no_growth_is_left(rt);
}

/// The match goes on from what a shelf has, by a second try where the first lacked memory.
fn check_life(rt: &(impl Abort + AllocGlobal), shelf: &Shelf, first: u32) {
    let mut hosted = match begun(rt.alloc(), shelf) {
        Some(hosted) => hosted,
        None => begun(rt.alloc(), shelf).expect(rt, "memory"),
    };
    check_played(rt, &mut hosted, first);
}

fn begun(alloc: Global, shelf: &Shelf) -> Option<HostedMatch<ShelfKeeper<'_>>> {
    let terms = Terms {
        length: 3,
        rules: Rules::One,
    };
    HostedMatch::begin(alloc, 7, terms, [3; 32], shelf.keepers()).ok()
}

/// Three entries come about, the first one under this number or above it.
fn check_played<K: Keeper>(
    rt: &(impl Abort + AllocGlobal),
    hosted: &mut HostedMatch<K>,
    first: u32,
) {
    settle(hosted);
    check_number(rt, "entries that were told:", first, hosted.told() >= first);
    for _ in 0..3u32 {
        check_entry(rt, hosted);
    }
}

/// The next entry comes about, by a further try where there was no memory for it.
fn check_entry<K: Keeper>(rt: &(impl Abort + AllocGlobal), hosted: &mut HostedMatch<K>) {
    let number = hosted.told().saturating_add(1);
    for _ in 0..3u32 {
        if hosted.told() < number {
            act(rt.alloc(), hosted, number);
            settle(hosted);
        }
    }
    check_number(rt, "entry", number, hosted.told() >= number);
}

/// Who is to act does as an entry what an automatic player would do.
fn act<K: Keeper>(alloc: Global, hosted: &mut HostedMatch<K>, number: u32) {
    let Some(record) = hosted.shown() else {
        return;
    };
    let Actor::Seat(player) = record.actor() else {
        return;
    };
    if let Ok(Some(action)) = auto_action(alloc, record, player) {
        let _ = hosted.act(player, number, action);
    }
}

/// A match that is too long is told at last, though there was no memory at first.
#[test]
fn refused_growths_of_a_match_that_is_too_long(rt: HostRuntime) {
    check_too_long(&rt);
}

fn check_too_long(rt: &(impl Abort + AllocGlobal)) {
    let long = LongTexts::none(rt.alloc());
    for _ in 0..2u32 {
        let _ = long.check("long/party-0.1", 450_001);
    }
    let is_told = long.next_untold().is_some() || long.next_untold().is_some();
    check_row(rt, "the match is told", is_told);
    check_no_growth_is_left(rt);
}

/// Fails where the growth that comes next is refused: so `tools/checks/refuse_growths` learns how
/// many came before.
fn check_no_growth_is_left(rt: &(impl Abort + AllocGlobal)) {
    let growth = Vec::<u8>::with_capacity(rt.alloc(), 1);
    check_row(rt, "no growth is left", growth.is_ok());
}
