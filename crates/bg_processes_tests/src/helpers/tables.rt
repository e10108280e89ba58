//! All parties of a match as processes run them. What makes a table and moves its parts is written
//! over any devices: it is dear to prove over those of the system.

mod parties;
mod processes;
pub(crate) mod real_devices;
mod saved_matches;

use crate::helpers::hosts::Host;
use crate::helpers::played_loops::SHORT;
use crate::helpers::tables::processes::Running;
use bg_auto::{NoObserver, Observer};
use bg_board::Player;
use bg_match::{Number, Record, Rules, Terms};
use bg_wire::{REFEREE, SEAT_OF_O, SEAT_OF_X};
use bg_world::{Keeper, Link};
pub(crate) use saved_matches::check_end;
use std::alloc::Global;

const ID: u64 = 7;

const KEY: [u8; 32] = [9; 32];

/// The party that watches.
const WATCHER: u8 = 3;

/// No match of the tests has as many turns.
const MOST_TURNS: u32 = 20_000;

/// What opens the devices of parties.
pub(crate) trait Devices<L, K> {
    /// The link of a party, unless it can't be had now.
    fn link(&self, party: u8) -> Option<L>;

    /// The files of the referee or of a seat, unless they can't be had now.
    fn keeper(&self, party: u8) -> Option<K>;

    /// Lets the next call of a device fail.
    fn fail_next(&self);
}

/// A match between processes: those that run.
#[derive(Drop)]
pub(crate) struct Table<D, L, K> {
    alloc: Global,
    devices: D,
    terms: Terms,
    running: Running<L, K>,
}

/// What a test does at a table, whatever the devices are.
pub(crate) trait Sitting {
    fn sit<R: Host, L: Link + Drop, K: Keeper + Drop, D: Devices<L, K> + Drop>(
        &self,
        rt: &R,
        table: &mut Table<D, L, K>,
    );
}

/// The terms of a match by these rules.
pub(crate) fn terms_by(rules: Rules) -> Terms {
    Terms { rules, ..SHORT }
}

impl<L: Link + Drop, K: Keeper + Drop, D: Devices<L, K> + Drop> Table<D, L, K> {
    pub(crate) fn new(alloc: Global, devices: D, rules: Rules) -> Table<D, L, K> {
        Table {
            alloc,
            devices,
            terms: terms_by(rules),
            running: Running::none(),
        }
    }

    /// A party begins where it does not run, unless its devices can't be had now.
    fn begin(&mut self, party: u8) {
        self.running
            .begin(self.alloc, party, self.terms, &self.devices);
    }

    /// A round of a party, which begins first where it does not run. Whether the match is over for
    /// it.
    fn round(&mut self, party: u8) -> bool {
        self.begin(party);
        self.running.round(self.alloc, party)
    }

    /// Whether a party, which begins first where it does not run, does what a word says. Where a
    /// choice is lost, the next call of a device fails. The observer is told of O alone.
    pub(crate) fn step<O: Observer>(&mut self, party: &str, word: &str, o: &mut O) -> bool {
        if word == "loses" {
            self.devices.fail_next();
        }
        let alloc = self.alloc;
        if party == "x" {
            self.begin(SEAT_OF_X);
            self.running.does(alloc, Player::X, word, &mut NoObserver)
        } else if party == "o" {
            self.begin(SEAT_OF_O);
            self.running.does(alloc, Player::O, word, o)
        } else {
            party == "referee" && !self.round(REFEREE)
        }
    }

    /// A round of each party. Whether the match is over for everybody.
    fn turn(&mut self) -> bool {
        let mut is_over = true;
        for party in REFEREE..=WATCHER {
            is_over &= self.round(party);
        }
        is_over
    }

    /// Rounds of all parties in turn until the match is over for everybody; about one turn in so
    /// many ends a process. Whether the match ends.
    pub(crate) fn play(&mut self, seed: u32, kills: u32) -> bool {
        let mut seed = seed;
        for _ in 0..MOST_TURNS {
            if self.turn() {
                return true;
            }
            seed = seed.wrapping_mul(1_664_525).wrapping_add(1_013_904_223);
            if kills > 0 && (seed >> 8).checked_rem(kills) == Some(0) {
                self.running.end(seed >> 28 & 3);
            }
        }
        false
    }

    /// Rounds of all parties in turn until the watcher holds so many entries. Whether he comes to
    /// hold them.
    pub(crate) fn play_some(&mut self, entries: Number) -> bool {
        for _ in 0..MOST_TURNS {
            self.turn();
            if self.watched().is_some_and(|record| record.len() >= entries) {
                return true;
            }
        }
        false
    }

    /// What the watcher holds, where he runs.
    pub(crate) fn watched(&self) -> Option<&Record> {
        self.running.watched()
    }
}
