//! A seat and a watcher, each in a process of its own, over its own link and files.
ghost use Rattle.std.specs.Prelude.{◌≤◌};
ghost use Rattle.bg_wire.specs.Entries.Codes.{first_watcher};

use crate::lone::referee::{MOST_PARTIES, ProcessFault, check_restart};
use crate::own_devices::FileKeeper;
use crate::post_link::PostLink;
use bg_board::Player;
use bg_match::{Action, Record, Terms};
use bg_wire::party_of;
use bg_world::{Outcome, SeatNode, WatcherNode};
use std::alloc::Global;
use std::fs::File;
use std::rt::Files;

/// The seat of a player, alone in its process.
#[derive(Drop)]
pub struct LoneSeat<'a, R> {
    node: SeatNode,
    keeper: FileKeeper<'a, R>,
    pub link: PostLink,
    /// True while it has a claim that is not saved yet.
    unsaved: bool,
}

impl<'a, R: Files<File = File> + AllocGlobal> LoneSeat<'a, R> {
    /// Continues the match that the folder has, or begins it.
    ///
    /// # Errors
    /// `Stopped` where the seat can't restart from the files. `Length` where the length is not from
    /// 1 to 99. `System` where the files can't be used.
    pub fn begin(
        rt: &'a R,
        folder: &str,
        player: Player,
        id: u64,
        terms: Terms,
    ) -> Result<LoneSeat<'a, R>, ProcessFault> {
        let mut keeper = FileKeeper::new(rt, folder, party_of(player))?;
        let (node, outcome) = SeatNode::begin(rt.alloc(), player, id, terms, &mut keeper)?;
        check_restart(outcome)?;
        Ok(LoneSeat {
            node,
            keeper,
            link: PostLink::new(rt.alloc()),
            unsaved: false,
        })
    }

    /// Returns the record, or `None` where the seat is down.
    pub fn held(&self) -> Option<&Record> {
        self.node.held()
    }

    /// Claims the action that its player chooses, and returns the outcome. The next turn saves the
    /// claim and sends it.
    pub fn choose(&mut self, action: Action) -> Outcome {
        let outcome = self.node.choose(action);
        if matches!(outcome, Outcome::Chose(Ok(_))) {
            self.unsaved = true;
        }
        outcome
    }

    /// Takes what has come, saves a new claim, and sends the claim, or asks for what it lacks.
    pub fn turn(&mut self) -> Result<(), ProcessFault> {
        for _ in 0..self.link.waiting() {
            self.node.take(&mut self.link, 0);
        }
        if self.unsaved {
            self.save()?;
        }
        self.node.tick(&mut self.link, MOST_PARTIES);
        Ok(())
    }

    fn save(&mut self) -> Result<(), ProcessFault> {
        match self.node.save(&mut self.keeper) {
            Outcome::Saved(_) => {}
            // It is retried in the next turn.
            Outcome::Memory => return Ok(()),
            // The write failed and the party is down. Where its files lack the claim, the player
            // may choose again.
            Outcome::SaveFault => check_restart(self.node.restart(&mut self.keeper))?,
            outcome => return Err(ProcessFault::Stopped(outcome)),
        }
        self.unsaved = false;
        Ok(())
    }
}

/// A watcher of a match, alone in its process. It saves nothing.
#[derive(Drop)]
pub struct LoneWatcher {
    node: WatcherNode,
    pub link: PostLink,
}

impl LoneWatcher {
    /// Returns a watcher that holds no entry. `party` is its number, from 3 to 255.
    ///
    /// # Errors
    /// `Length` where the length is not from 1 to 99.
    pub fn begin(
        alloc: Global,
        party: u8,
        id: u64,
        terms: Terms,
    ) -> Result<LoneWatcher, ProcessFault>
        requires { first_watcher ≤ party }
    {
        Ok(LoneWatcher {
            node: WatcherNode::fresh(alloc, party, id, terms)?,
            link: PostLink::new(alloc),
        })
    }

    /// Returns the record.
    pub fn held(&self) -> &Record {
        self.node.held()
    }

    /// Takes what has come, and asks for what it lacks.
    pub fn turn(&mut self) {
        for _ in 0..self.link.waiting() {
            self.node.take(&mut self.link, 0);
        }
        self.node.tick(&mut self.link, MOST_PARTIES);
    }
}
