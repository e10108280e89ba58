//! Two processes of each party that saves, which act at random over one network and one store.
//! With the fence everybody holds what is settled (docs/PROTOCOL.md, "Many processes of one
//! party"); without it, or where it has a hole, somebody does not.

mod calls;
mod holed_keepers;
mod stores;

use crate::checks::{check_number, lasting};
use crate::devices::links::OwnLink;
use crate::devices::{NO_FAILURE, Recorder};
use crate::fronts::is_front;
use crate::worlds::nodes::below;
use bg_board::Player;
use bg_fences::{FencedKeeper, FencedMemoryKeeper};
use bg_match::Record;
use bg_wire::{REFEREE, SEAT_OF_O, SEAT_OF_X};
use bg_world::{Keepers, RefereeNode, SeatNode};
use calls::{Call, call_referee, call_seat};
use holed_keepers::{Hole, HoledKeeper};
use std::alloc::Global;
use std::process::Abort;
use stores::Store;

/// The processes of the referee, and their store.
#[derive(Drop)]
struct Referees<K> {
    store: Store<K>,
    first: RefereeNode,
    second: RefereeNode,
}

impl<K: FencedKeeper> Referees<K> {
    fn new(rt: &impl Abort, mut store: Store<K>) -> Referees<K> {
        let (first, second) = (store.referee(rt), store.referee(rt));
        Referees {
            store,
            first,
            second,
        }
    }

    /// One of them does something. Whether it saved.
    fn act(&mut self, link: &mut OwnLink<'static>, is_first: bool, call: Call, word: u32) -> bool {
        if is_first {
            call_referee(&mut self.first, &mut self.store, link, call, word)
        } else {
            call_referee(&mut self.second, &mut self.store, link, call, word)
        }
    }
}

/// The processes of a seat, and their store.
#[derive(Drop)]
struct Seats<K> {
    player: Player,
    store: Store<K>,
    first: SeatNode,
    second: SeatNode,
}

impl<K: FencedKeeper> Seats<K> {
    fn new(rt: &impl Abort, player: Player, mut store: Store<K>) -> Seats<K> {
        let (first, second) = (store.seat(rt, player), store.seat(rt, player));
        Seats {
            player,
            store,
            first,
            second,
        }
    }

    /// One of them does something.
    fn act(&mut self, rt: &impl Abort, link: &mut OwnLink<'static>, is_first: bool, call: Call) {
        let (store, player) = (&mut self.store, self.player);
        if is_first {
            call_seat(rt, &mut self.first, store, link, player, call);
        } else {
            call_seat(rt, &mut self.second, store, link, player, call);
        }
    }

    /// Whether both hold fronts of a record.
    fn hold_fronts_of(&self, settled: &Record) -> bool {
        holds_front(self.first.held(), settled) && holds_front(self.second.held(), settled)
    }
}

/// Whether a record, if there is one, is a front of this one.
fn holds_front(record: Option<&Record>, whole: &Record) -> bool {
    match record {
        Some(record) => is_front(record, whole),
        None => true,
    }
}

/// A match of such processes.
#[derive(Drop)]
struct Processes<K> {
    link: OwnLink<'static>,
    referees: Referees<K>,
    x: Seats<K>,
    o: Seats<K>,
    /// A process of the referee that only restarts: it holds what is settled.
    settled: RefereeNode,
}

impl<K: FencedKeeper> Processes<K> {
    fn begin(rt: &impl Abort, recorder: &'static Recorder, keepers: Keepers<K>) -> Processes<K> {
        let alloc = recorder.alloc;
        let mut store = Store::new(alloc, keepers.referee);
        let settled = store.referee(rt);
        Processes {
            link: OwnLink::in_order(recorder),
            referees: Referees::new(rt, store),
            x: Seats::new(rt, Player::X, Store::new(alloc, keepers.x)),
            o: Seats::new(rt, Player::O, Store::new(alloc, keepers.o)),
            settled,
        }
    }

    /// A process of a party does something at random.
    fn act(&mut self, rt: &impl Abort, seed: &mut u32) {
        let (is_first, call) = (below(seed, 2) == 0, Call::numbered(below(seed, 16)));
        let (party, word) = (below(seed, 3), below(seed, 1 << 24));
        match party {
            0 => self.act_as_referee(is_first, call, word),
            1 => self.x.act(rt, &mut self.link, is_first, call),
            _ => self.o.act(rt, &mut self.link, is_first, call),
        }
    }

    fn act_as_referee(&mut self, is_first: bool, call: Call, word: u32) {
        if self.referees.act(&mut self.link, is_first, call, word) {
            drop(self.settled.restart(&mut self.referees.store.keeper));
        }
    }

    /// Whether each process of a seat holds a front of what is settled.
    fn agree(&self) -> bool {
        match self.settled.held() {
            Some(settled) => self.x.hold_fronts_of(settled) && self.o.hold_fronts_of(settled),
            None => false,
        }
    }

    /// How many entries are settled.
    fn count(&self) -> u32 {
        match self.settled.held() {
            Some(settled) => settled.len(),
            None => 0,
        }
    }
}

/// What came of a match of such processes.
#[derive(Drop)]
struct Came {
    /// Whether they agreed after each call.
    agreed: bool,
    settled: u32,
    refused: u32,
}

/// No match of one point is over in so many calls.
const CALLS: u32 = 6000;

/// So many calls at random, over these keepers.
fn played<K: FencedKeeper + Drop + 'static>(
    rt: &(impl AllocGlobal + Abort),
    recorder: &'static Recorder,
    seed: u32,
    keepers: Keepers<K>,
) -> Came {
    let begun = Processes::begin(rt, recorder, keepers);
    let processes = lasting(rt.alloc(), begun).expect(rt, "memory");
    let (mut seed, mut agreed) = (seed, true);
    for _ in 0..CALLS {
        processes.act(rt, &mut seed);
        agreed &= processes.agree();
    }
    Came {
        agreed,
        settled: processes.count(),
        refused: processes.referees.store.refused,
    }
}

fn recorder(rt: &(impl AllocGlobal + Abort)) -> &'static Recorder {
    Recorder::that_lasts(rt, rt.alloc(), NO_FAILURE)
}

/// A keeper in memory behind a fence, with empty slots.
fn fenced_keeper(alloc: Global) -> FencedMemoryKeeper {
    FencedMemoryKeeper::new(alloc, Vec::new(alloc), Vec::new(alloc))
}

/// Keepers in memory behind fences.
fn fenced(alloc: Global) -> Keepers<FencedMemoryKeeper> {
    Keepers {
        referee: fenced_keeper(alloc),
        x: fenced_keeper(alloc),
        o: fenced_keeper(alloc),
    }
}

fn check_processes_behind_a_fence(rt: &(impl AllocGlobal + Abort)) {
    for seed in 0..6 {
        let came = played(rt, recorder(rt), seed, fenced(rt.alloc()));
        check_number(rt, "seed", seed.into(), came.agreed);
        assert!(rt;
            came.settled > 9 && came.refused > 9,
            "seed {seed}: {} {}",
            came.settled,
            came.refused
        );
    }
}

#[test]
fn processes_behind_a_fence(rt: HostRuntime) {
    check_processes_behind_a_fence(&rt);
}

/// Keepers whose fences have a hole.
fn holed(recorder: &'static Recorder, hole: Hole) -> Keepers<HoledKeeper> {
    Keepers {
        referee: HoledKeeper::new(recorder, REFEREE, hole),
        x: HoledKeeper::new(recorder, SEAT_OF_X, hole),
        o: HoledKeeper::new(recorder, SEAT_OF_O, hole),
    }
}

/// In how many of six matches somebody held what was not settled.
fn differing(rt: &(impl AllocGlobal + Abort), hole: Hole) -> u32 {
    let mut differing = 0u32;
    for seed in 0..6 {
        let recorder = recorder(rt);
        if !played(rt, recorder, seed, holed(recorder, hole)).agreed {
            differing = differing.saturating_add(1);
        }
    }
    differing
}

#[test]
fn processes_without_a_fence(rt: HostRuntime) {
    for hole in [Hole::Any, Hole::Equal] {
        let differing = differing(&rt, hole);
        assert!(rt; differing > 0, "{hole:?}: {differing} of 6 matches");
    }
}
