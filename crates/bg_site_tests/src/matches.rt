//! Hosted matches: to the end, over restarts, and where saves fail.
use crate::checks::{check_number, check_row};
use crate::keepers::{Shelf, ShelfKeeper, lasting_shelf};
use crate::lasting::lasting;
use bg_auto::auto_action;
use bg_board::Player;
use bg_hosted::{Acted, HostedMatch};
use bg_match::{Action, Actor, Level, Rules, Terms};
use bg_world::Keeper;
use std::process::Abort;

const KEY: [u8; 32] = [3; 32];

/// The match to so many points that goes on from what a shelf has. It lasts as long as the process.
fn begin<'a>(
    rt: &(impl Abort + AllocGlobal),
    shelf: &'a Shelf,
    length: u8,
) -> &'a mut HostedMatch<ShelfKeeper<'a>> {
    let terms = Terms {
        length,
        rules: Rules::One,
    };
    let hosted = HostedMatch::begin(rt.alloc(), 7, terms, KEY, shelf.keepers());
    lasting(rt, hosted.expect(rt, "memory"))
}

/// Who acts, if anybody does, the number of the entry, and what an automatic player would do, which
/// lasts as long as the process.
fn next<'a, K: Keeper>(
    rt: &(impl Abort + AllocGlobal),
    hosted: &HostedMatch<K>,
) -> Option<(Player, u32, &'a Action)> {
    let record = hosted.shown()?;
    let Actor::Seat(player) = record.actor() else {
        return None;
    };
    let action = auto_action(rt.alloc(), record, player).expect(rt, "memory")?;
    Some((player, record.len() + 1, lasting(rt, action)))
}

/// The turn, again, comes to this, and then its entry is told or isn't.
fn check_act<K: Keeper>(
    rt: &impl Abort,
    hosted: &mut HostedMatch<K>,
    player: Player,
    number: u32,
    action: &Action,
    wanted: Acted,
    is_told: bool,
) {
    let acted = hosted.act(player, number, action.copy());
    let is_so = acted == wanted && (hosted.told() >= number) == is_told;
    check_number(rt, "acting as entry", number, is_so);
}

#[test]
fn a_match_is_played_to_its_end(rt: HostRuntime) {
    check_whole(&rt, begin(&rt, lasting_shelf(&rt), 3));
}

fn check_whole<K: Keeper>(rt: &(impl Abort + AllocGlobal), hosted: &mut HostedMatch<K>) {
    let is_open = hosted.told() == 1 && !hosted.is_restless();
    check_row(rt, "the opening is told", is_open);
    for _ in 0..5000u32 {
        check_next(rt, hosted);
    }
    check_row(rt, "the match is over", hosted.is_over());
}

/// Who acts, if anybody does, does what an automatic player would do: all is told then, and nothing
/// is left to do. Again it acts no more, and another action is not that entry.
fn check_next<K: Keeper>(rt: &(impl Abort + AllocGlobal), hosted: &mut HostedMatch<K>) {
    let Some((player, number, action)) = next(rt, hosted) else {
        return;
    };
    check_act(rt, hosted, player, number, action, Acted::Done, true);
    let told = hosted.told();
    check_number(
        rt,
        "nothing is left to do at entry",
        number,
        !hosted.is_restless(),
    );
    check_act(rt, hosted, player, number, action, Acted::Done, true);
    let other = hosted.act(player.opponent(), number, Action::Drop);
    let is_other = other == Acted::OtherEntry && hosted.told() == told;
    check_number(rt, "another action for entry", number, is_other);
}

#[test]
fn what_was_told_is_there_after_a_restart(rt: HostRuntime) {
    check_restarts(&rt);
}

fn check_restarts(rt: &(impl Abort + AllocGlobal)) {
    let shelf = lasting_shelf(rt);
    let mut told = 0;
    for _ in 0..40u32 {
        told = told_in_life(rt, begin(rt, shelf, 3), told);
    }
    check_number(rt, "more than 40 entries, not", told, told > 40);
}

/// How many entries are told after three turns of a match in which so many were told before.
fn told_in_life<K: Keeper>(
    rt: &(impl Abort + AllocGlobal),
    hosted: &mut HostedMatch<K>,
    before: u32,
) -> u32 {
    check_number(
        rt,
        "entries that were told:",
        before,
        hosted.told() >= before,
    );
    for _ in 0..3u32 {
        check_next(rt, hosted);
    }
    hosted.told()
}

#[test]
fn a_save_that_fails_is_made_good(rt: HostRuntime) {
    let shelf = lasting_shelf(&rt);
    check_failing(&rt, shelf, begin(&rt, shelf, 5));
}

fn check_failing<K: Keeper>(
    rt: &(impl Abort + AllocGlobal),
    shelf: &Shelf,
    hosted: &mut HostedMatch<K>,
) {
    for good in [0u32, 1, 2, 0, 1, 1, 0, 2] {
        shelf.fail_after(good);
        for _ in 0..4u32 {
            check_made_good(rt, hosted);
        }
    }
}

/// Ticks until nothing is left to do, or for so long.
pub(crate) fn settle<K: Keeper>(hosted: &mut HostedMatch<K>) {
    for _ in 0..80u32 {
        if hosted.is_restless() {
            hosted.tick();
        }
    }
}

/// Who acts, if anybody does, acts by this call or by what follows. Sent again, it is done: by this
/// call, or it was by the first one.
fn check_made_good<K: Keeper>(rt: &(impl Abort + AllocGlobal), hosted: &mut HostedMatch<K>) {
    let Some((player, number, action)) = next(rt, hosted) else {
        return;
    };
    let acted = hosted.act(player, number, action.copy());
    settle(hosted);
    let is_settled = acted != Acted::OtherEntry && !hosted.is_restless();
    check_number(rt, "nothing is left to do at entry", number, is_settled);
    check_act(rt, hosted, player, number, action, Acted::Done, true);
}

#[test]
fn a_claim_whose_entry_is_not_saved(rt: HostRuntime) {
    let shelf = lasting_shelf(&rt);
    check_waiting(&rt, shelf, begin(&rt, shelf, 1));
}

/// Such an action waits. Another one under its number isn't taken for it, and sent again it goes
/// on.
fn check_waiting<K: Keeper>(
    rt: &(impl Abort + AllocGlobal),
    shelf: &Shelf,
    hosted: &mut HostedMatch<K>,
) {
    let (player, number, action) = next(rt, hosted).expect(rt, "a player's turn");
    let other = lasting(rt, Action::Resign(Level::Backgammon));
    shelf.fail_after(1);
    check_act(rt, hosted, player, number, action, Acted::Waits, false);
    check_act(rt, hosted, player, number, other, Acted::OtherEntry, false);
    check_act(rt, hosted, player, number, action, Acted::Done, true);
}

#[test]
fn numbers_and_actions_that_do_not_follow(rt: HostRuntime) {
    check_refused(&rt, begin(&rt, lasting_shelf(&rt), 1));
}

fn check_refused<K: Keeper>(rt: &impl Abort, hosted: &mut HostedMatch<K>) {
    let told = hosted.told();
    for number in [0, 1, 3, u32::MAX] {
        let acted = hosted.act(Player::X, number, Action::Roll);
        check_number(rt, "rolling as entry", number, acted == Acted::OtherEntry);
    }
    let number = told.saturating_add(1);
    let (x, o) = (
        hosted.act(Player::X, number, Action::Take),
        hosted.act(Player::O, number, Action::Take),
    );
    check_row(rt, "X can't take", matches!(x, Acted::Refused(_)));
    check_row(rt, "O can't take", matches!(o, Acted::Refused(_)));
    check_row(rt, "nothing more is told", hosted.told() == told);
}
