//! What a process does: a call of its node, over the network and the store that it shares.
use super::stores::Store;
use crate::devices::links::OwnLink;
use bg_auto::auto_action;
use bg_board::Player;
use bg_fences::FencedKeeper;
use bg_match::Action;
use bg_world::{RefereeNode, SeatNode};
use std::alloc::Global;
use std::process::Abort;

/// The number of parties: the referee and the seats.
const PARTIES: usize = 3;

/// What a process does at random.
#[derive(Clone, Copy)]
pub(super) enum Call {
    Take(u32),
    Tick,
    Act,
    Restart,
    Save,
}

impl Call {
    pub(super) fn numbered(number: u32) -> Call {
        match number {
            0..=4 => Call::Take(number % 2),
            5 | 6 => Call::Tick,
            7..=9 => Call::Act,
            10 => Call::Restart,
            _ => Call::Save,
        }
    }
}

/// A process of the referee does something. Whether it saved.
pub(super) fn call_referee<K: FencedKeeper>(
    node: &mut RefereeNode,
    store: &mut Store<K>,
    link: &mut OwnLink<'static>,
    call: Call,
    word: u32,
) -> bool {
    match call {
        Call::Take(pick) => drop(node.take(link, PARTIES, pick, word)),
        Call::Tick => drop(node.tick(link, PARTIES)),
        Call::Act => drop(node.due(word)),
        Call::Restart => drop(node.restart(&mut store.keeper)),
        Call::Save => return store.save_referee(node),
    }
    false
}

/// What the automatic player of a seat does now.
fn action_of(rt: &impl Abort, alloc: Global, node: &SeatNode, player: Player) -> Option<Action> {
    auto_action(alloc, node.held()?, player).expect(rt, "memory")
}

/// The automatic player of a seat acts.
fn choose(rt: &impl Abort, alloc: Global, node: &mut SeatNode, player: Player) {
    if let Some(action) = action_of(rt, alloc, node, player) {
        drop(node.choose(action));
    }
}

/// A process of a seat does something.
pub(super) fn call_seat<K: FencedKeeper>(
    rt: &impl Abort,
    node: &mut SeatNode,
    store: &mut Store<K>,
    link: &mut OwnLink<'static>,
    player: Player,
    call: Call,
) {
    match call {
        Call::Take(pick) => drop(node.take(link, pick)),
        Call::Tick => drop(node.tick(link, PARTIES)),
        Call::Act => choose(rt, store.alloc, node, player),
        Call::Restart => drop(node.restart(&mut store.keeper)),
        Call::Save => store.save_seat(node),
    }
}
