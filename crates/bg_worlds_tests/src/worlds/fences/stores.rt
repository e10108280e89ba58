//! The store of a party, which its processes share: a keeper with a fence.
use crate::worlds::parties::{TERMS, begun_referee, begun_seat};
use bg_board::Player;
use bg_fences::{FencedKeeper, save_referee, save_seat};
use bg_world::{Outcome, RefereeNode, SeatNode};
use std::alloc::Global;
use std::process::Abort;

/// The store of a party.
#[derive(Drop)]
pub(super) struct Store<K> {
    pub(super) alloc: Global,
    pub(super) keeper: K,
    /// How many saves it has refused.
    pub(super) refused: u32,
}

impl<K: FencedKeeper> Store<K> {
    pub(super) fn new(alloc: Global, keeper: K) -> Store<K> {
        Store {
            alloc,
            keeper,
            refused: 0,
        }
    }

    /// A process of the referee that begins over it.
    pub(super) fn referee(&mut self, rt: &impl Abort) -> RefereeNode {
        let begun = begun_referee(self.alloc, TERMS, &mut self.keeper);
        begun.expect(rt, "a length").0
    }

    /// A process of a seat that begins over it.
    pub(super) fn seat(&mut self, rt: &impl Abort, player: Player) -> SeatNode {
        let begun = begun_seat(self.alloc, player, TERMS, &mut self.keeper);
        begun.expect(rt, "a length").0
    }

    /// A process of the referee saves. Whether it did.
    pub(super) fn save_referee(&mut self, node: &mut RefereeNode) -> bool {
        let outcome = save_referee(node, &mut self.keeper);
        self.took(&outcome)
    }

    /// A process of a seat saves.
    pub(super) fn save_seat(&mut self, node: &mut SeatNode) {
        let outcome = save_seat(node, &mut self.keeper);
        self.took(&outcome);
    }

    /// Whether a save was taken.
    fn took(&mut self, outcome: &Outcome) -> bool {
        if is_refused(outcome) {
            self.refused = self.refused.saturating_add(1);
        }
        is_taken(outcome)
    }
}

fn is_refused(outcome: &Outcome) -> bool {
    matches!(outcome, Outcome::SaveFault)
}

fn is_taken(outcome: &Outcome) -> bool {
    matches!(outcome, Outcome::Saved(_))
}
