//! The processes of single parties, over any devices: no call here moves what these are made of.
use super::{Devices, ID, KEY, WATCHER};
use bg_auto::{NoObserver, Observer, auto_action};
use bg_board::Player;
use bg_match::{Action, Terms};
use bg_processes::{Going, RefereeProcess, SeatProcess, WatcherProcess};
use bg_wire::{REFEREE, party_of};
use bg_world::{Keeper, Link, Outcome};
use std::alloc::Global;

/// The referee's process, unless it can't begin now.
pub(super) fn begun_referee<L: Link + Drop, K: Keeper + Drop, D: Devices<L, K>>(
    alloc: Global,
    terms: Terms,
    devices: &D,
) -> Option<RefereeProcess<L, K>> {
    let link = devices.link(REFEREE)?;
    let keeper = devices.keeper(REFEREE)?;
    match RefereeProcess::begin(alloc, ID, terms, KEY, link, keeper) {
        Ok((process, Outcome::Restarted)) => Some(process),
        _ => None,
    }
}

/// The process of a seat, unless it can't begin now.
pub(super) fn begun_seat<L: Link + Drop, K: Keeper + Drop, D: Devices<L, K>>(
    alloc: Global,
    player: Player,
    terms: Terms,
    devices: &D,
) -> Option<SeatProcess<L, K>> {
    let party = party_of(player);
    let link = devices.link(party)?;
    let keeper = devices.keeper(party)?;
    match SeatProcess::begin(alloc, player, ID, terms, link, keeper) {
        Ok((process, Outcome::Restarted)) => Some(process),
        _ => None,
    }
}

/// The process of the watcher, unless it can't begin now.
pub(super) fn begun_watcher<L: Link + Drop, K, D: Devices<L, K>>(
    alloc: Global,
    terms: Terms,
    devices: &D,
) -> Option<WatcherProcess<L>> {
    WatcherProcess::begin(alloc, WATCHER, ID, terms, devices.link(WATCHER)?).ok()
}

/// A round of the referee, where it runs; where it can't go on its process ends. Whether the match
/// is over for it.
pub(super) fn referee_round<L: Link + Drop, K: Keeper + Drop>(
    running: &mut Option<RefereeProcess<L, K>>,
) -> bool {
    let going = match running {
        Some(process) => process.round(true, &mut NoObserver).ok(),
        None => None,
    };
    if going.is_none() {
        *running = None;
    }
    going == Some(Going::Over)
}

/// What the automatic player of a seat does now, if it is his turn.
fn action_of<L: Link, K: Keeper>(
    alloc: Global,
    process: &SeatProcess<L, K>,
    player: Player,
) -> Option<Action> {
    if !process.acts() {
        return None;
    }
    auto_action(alloc, process.held()?, player).ok()?
}

/// Whether the automatic player of a seat claims what he does, or whether that is lost with its
/// save.
fn chooses<L: Link, K: Keeper, O: Observer>(
    alloc: Global,
    process: &mut SeatProcess<L, K>,
    player: Player,
    is_lost: bool,
    observer: &mut O,
) -> bool {
    let Some(action) = action_of(alloc, process, player) else {
        return false;
    };
    match process.choose(action, observer) {
        Ok(Outcome::Chose(Ok(_))) => !is_lost,
        Ok(Outcome::SaveFault) => is_lost,
        _ => false,
    }
}

/// The automatic player of a seat claims what he does. Whether the process goes on.
fn plays<L: Link, K: Keeper>(
    alloc: Global,
    process: &mut SeatProcess<L, K>,
    player: Player,
) -> bool {
    match action_of(alloc, process, player) {
        Some(action) => process.choose(action, &mut NoObserver).is_ok(),
        None => true,
    }
}

/// Whether a seat does what a word says: a round with a tick or without, a choice that is claimed or
/// that is lost with its save, or what comes before its end.
pub(super) fn seat_does<L: Link, K: Keeper, O: Observer>(
    alloc: Global,
    player: Player,
    process: &mut SeatProcess<L, K>,
    word: &str,
    observer: &mut O,
) -> bool {
    if word == "plays" || word == "loses" {
        chooses(alloc, process, player, word == "loses", observer)
    } else if word == "ends" {
        process.save_now(observer).is_ok()
    } else {
        let tick = word == "ticks";
        (tick || word == "listens") && process.round(tick, observer).is_ok()
    }
}

/// A round of a seat and what its player does; `None` where the process can't go on.
fn round_and_play<L: Link, K: Keeper>(
    alloc: Global,
    process: &mut SeatProcess<L, K>,
    player: Player,
) -> Option<Going> {
    let going = process.round(true, &mut NoObserver).ok()?;
    if plays(alloc, process, player) {
        Some(going)
    } else {
        None
    }
}

/// A round of a seat, where it runs; where it can't go on its process ends. Whether the match is
/// over for it.
pub(super) fn seat_round<L: Link + Drop, K: Keeper + Drop>(
    alloc: Global,
    player: Player,
    running: &mut Option<SeatProcess<L, K>>,
) -> bool {
    let going = match running {
        Some(process) => round_and_play(alloc, process, player),
        None => None,
    };
    if going.is_none() {
        *running = None;
    }
    going == Some(Going::Over)
}

/// A round of the watcher, where he runs. Whether the match is over for him.
pub(super) fn watcher_round<L: Link>(running: &mut Option<WatcherProcess<L>>) -> bool {
    match running {
        Some(process) => process.round(true, &mut NoObserver) == Going::Over,
        None => false,
    }
}
