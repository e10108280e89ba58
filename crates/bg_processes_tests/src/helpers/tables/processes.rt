//! The processes of a match, over any devices: no call here moves what these are made of.
use super::parties::{
    begun_referee, begun_seat, begun_watcher, referee_round, seat_does, seat_round, watcher_round,
};
use super::{Devices, WATCHER};
use bg_auto::Observer;
use bg_board::Player;
use bg_match::{Record, Terms};
use bg_processes::{RefereeProcess, SeatProcess, WatcherProcess};
use bg_wire::{REFEREE, SEAT_OF_O, SEAT_OF_X};
use bg_world::{Keeper, Link};
use std::alloc::Global;

/// The processes of a match that run.
#[derive(Drop)]
pub(super) struct Running<L, K> {
    referee: Option<RefereeProcess<L, K>>,
    x: Option<SeatProcess<L, K>>,
    o: Option<SeatProcess<L, K>>,
    watcher: Option<WatcherProcess<L>>,
}

impl<L, K> Running<L, K> {
    pub(super) fn none() -> Running<L, K> {
        Running {
            referee: None,
            x: None,
            o: None,
            watcher: None,
        }
    }
}

impl<L: Link + Drop, K: Keeper + Drop> Running<L, K> {
    /// The process of a party begins where it does not run, unless it can't now.
    pub(super) fn begin<D: Devices<L, K>>(
        &mut self,
        alloc: Global,
        party: u8,
        terms: Terms,
        devices: &D,
    ) {
        match party {
            REFEREE if self.referee.is_none() => {
                self.referee = begun_referee(alloc, terms, devices);
            }
            SEAT_OF_X if self.x.is_none() => {
                self.x = begun_seat(alloc, Player::X, terms, devices);
            }
            SEAT_OF_O if self.o.is_none() => {
                self.o = begun_seat(alloc, Player::O, terms, devices);
            }
            WATCHER if self.watcher.is_none() => {
                self.watcher = begun_watcher(alloc, terms, devices);
            }
            _ => {}
        }
    }

    /// A round of a party, where it runs. Whether the match is over for it.
    pub(super) fn round(&mut self, alloc: Global, party: u8) -> bool {
        match party {
            REFEREE => referee_round(&mut self.referee),
            SEAT_OF_X => seat_round(alloc, Player::X, &mut self.x),
            SEAT_OF_O => seat_round(alloc, Player::O, &mut self.o),
            _ => watcher_round(&mut self.watcher),
        }
    }

    /// Whether a seat runs and does what a word says.
    pub(super) fn does<O: Observer>(
        &mut self,
        alloc: Global,
        player: Player,
        word: &str,
        observer: &mut O,
    ) -> bool {
        let seat = match player {
            Player::X => &mut self.x,
            Player::O => &mut self.o,
        };
        match seat {
            Some(process) => seat_does(alloc, player, process, word, observer),
            None => false,
        }
    }

    /// Ends the process of a party, as a kill does.
    pub(super) fn end(&mut self, party: u32) {
        match party {
            0 => self.referee = None,
            1 => self.x = None,
            2 => self.o = None,
            _ => self.watcher = None,
        }
    }

    /// What the watcher holds, where he runs.
    pub(super) fn watched(&self) -> Option<&Record> {
        match &self.watcher {
            Some(process) => Some(process.held()),
            None => None,
        }
    }
}
