//! A referee in a process of its own, over its own link and files.

use crate::own_devices::FileKeeper;
use crate::post_link::PostLink;
use bg_match::{LengthFault, Number, Record, Terms};
use bg_wire::REFEREE;
use bg_world::{Keeper, Outcome, RefereeNode};
use rand_chacha::ChaCha20Rng;
use rand_core::utils::NextWord;
use std::alloc::Global;
use std::fs::File;
use std::io;
use std::rt::Files;
use thiserror::Error;

/// The number of parties that can be sent to: the referee, two seats, and all who may watch.
pub const MOST_PARTIES: usize = 256;

/// The reason why a process ends. The next one over the same files continues from what was saved.
#[derive(Debug, Drop, Error)]
pub enum ProcessFault {
    #[error(transparent)]
    System(#[from] io::Error),
    #[error(transparent)]
    Length(#[from] LengthFault),
    #[error("the party can't go on: {0:?}")]
    Stopped(Outcome),
}

/// Checks that a party goes on after its restart had this outcome.
///
/// # Errors
/// `Stopped` with any outcome but `Restarted`.
pub fn check_restart(outcome: Outcome) -> Result<(), ProcessFault> {
    match outcome {
        Outcome::Restarted => Ok(()),
        _ => Err(ProcessFault::Stopped(outcome)),
    }
}

/// The referee of a match, alone in its process.
#[derive(Drop)]
pub struct LoneReferee<'a, R> {
    node: RefereeNode,
    keeper: FileKeeper<'a, R>,
    pub link: PostLink,
    words: ChaCha20Rng,
    /// The number of entries that its last save has.
    saved: Number,
}

impl<'a, R: Files<File = File> + AllocGlobal> LoneReferee<'a, R> {
    /// Continues the match that the folder has, or begins it. The dice come from these random
    /// words: each process needs others, as no word may be handed in twice.
    ///
    /// # Errors
    /// `Stopped` where the referee can't restart from the files. `Length` where the length is not
    /// from 1 to 99. `System` where the files can't be used.
    pub fn begin(
        rt: &'a R,
        folder: &str,
        id: u64,
        terms: Terms,
        words: ChaCha20Rng,
    ) -> Result<LoneReferee<'a, R>, ProcessFault> {
        let mut keeper = FileKeeper::new(rt, folder, REFEREE)?;
        let node = begun(rt.alloc(), id, terms, &mut keeper)?;
        Ok(LoneReferee {
            saved: entries_of(&node),
            node,
            keeper,
            link: PostLink::new(rt.alloc()),
            words,
        })
    }

    /// Returns the record, or `None` where the referee is down.
    pub fn held(&self) -> Option<&Record> {
        self.node.held()
    }

    /// Takes what has come and answers it, opens a game or passes a turn where that is due, saves
    /// what is new, and tells it.
    pub fn turn(&mut self) -> Result<(), ProcessFault> {
        for _ in 0..self.link.waiting() {
            let word = self.words.next_word();
            self.node.take(&mut self.link, MOST_PARTIES, 0, word);
        }
        // If this word opens no game that is due, the next turn tries another one.
        let word = self.words.next_word();
        self.node.due(word);
        if entries_of(&self.node) > self.saved {
            self.save()?;
        }
        self.node.tick(&mut self.link, MOST_PARTIES);
        Ok(())
    }

    fn save(&mut self) -> Result<(), ProcessFault> {
        match self.node.save(&mut self.keeper) {
            Outcome::Saved(_) => {}
            // It is retried in the next turn.
            Outcome::Memory => return Ok(()),
            // The write failed and the party is down: what its files then restore is what holds.
            Outcome::SaveFault => check_restart(self.node.restart(&mut self.keeper))?,
            outcome => return Err(ProcessFault::Stopped(outcome)),
        }
        self.saved = entries_of(&self.node);
        Ok(())
    }
}

/// Returns a referee that the keeper restores, which is up.
fn begun<K: Keeper>(
    alloc: Global,
    id: u64,
    terms: Terms,
    keeper: &mut K,
) -> Result<RefereeNode, ProcessFault> {
    let (node, outcome) = RefereeNode::begin(alloc, id, terms, keeper)?;
    check_restart(outcome)?;
    Ok(node)
}

/// Returns the number of entries that a referee holds, or 0 where it is down.
fn entries_of(node: &RefereeNode) -> Number {
    match node.held() {
        None => 0,
        Some(record) => record.len(),
    }
}
