//! The store of a server that shares its matches with others: an etcd cluster. All saves of a turn
//! are put there, and only then are clients told. For each match, one comparison checks that the
//! store has nothing newer than this server knows (docs/SERVING.md, "Several servers").

use crate::save_counts::{SaveCounts, micros_since};
use bg_etcd::{Changes, Fault};
use bg_journal::Change;
use bg_stores::{Answer, Copies, Known, Members, Pending, Trouble, TurnSaves, Watch};
use std::alloc::AllocError;
use std::mem;
use std::rc::Rc;
use std::time::Instant;

/// The store of a server. It is large, so it is boxed.
#[derive(Drop)]
pub(crate) struct Cluster<'a> {
    pub(crate) rt: &'a HostRuntime,
    pub(crate) copies: Copies<'a>,
    pub(crate) members: Members<'a>,
    pub(crate) saves: Rc<TurnSaves>,
    counts: Rc<SaveCounts>,
    pub(crate) known: Known,
    /// The matches that this server has removed, with the revisions of the removals.
    pub(crate) removed: Known,
    pub(crate) pending: Pending,
    /// The matches that another server changed first.
    pub(crate) lost: Vec<String>,
    pub(crate) watch: Option<Box<Watch>>,
    /// The member that is asked for the watch.
    pub(crate) watch_at: usize,
    /// The revision up to which changes are known.
    pub(crate) watched: u64,
    /// The second in which a watch last reported something, or everything was read.
    pub(crate) told: u64,
    /// The second in which the watch last began or reported something, or a read of everything was
    /// tried.
    pub(crate) heard: u64,
    /// The second in which a pulse last became due.
    pub(crate) pulsed: u64,
    /// The second in which the files were last brought up to date.
    followed: u64,
    /// Whether a pulse is to be written that the watch should report.
    pub(crate) is_pulse_due: bool,
    /// Whether changes may have been missed.
    pub(crate) is_stale: bool,
    /// Whether the store was found to be older than what was read from it.
    pub(crate) is_older: bool,
}

impl<'a> Cluster<'a> {
    /// Returns the store of these members, of which nothing is known yet.
    ///
    /// # Errors
    /// `AllocError` if memory runs out.
    pub(crate) fn new(
        copies: Copies<'a>,
        members: Members<'a>,
        (saves, counts): (Rc<TurnSaves>, Rc<SaveCounts>),
    ) -> Result<Box<Cluster<'a>>, AllocError> {
        let rt = copies.rt;
        let cluster = Cluster {
            rt,
            copies,
            members,
            saves,
            counts,
            known: Known::nothing(rt.alloc()),
            removed: Known::nothing(rt.alloc()),
            pending: Pending::nothing(rt.alloc()),
            lost: Vec::new(rt.alloc()),
            watch: None,
            watch_at: 0,
            watched: 0,
            told: 0,
            heard: 0,
            pulsed: 0,
            followed: 0,
            is_pulse_due: false,
            is_stale: false,
            is_older: false,
        };
        Ok(Box::new(rt.alloc(), cluster)?)
    }

    /// Puts the saves of the turn into the store. Until this succeeds, clients may be told nothing
    /// that depends on them. Returns the matches that another server changed first. What was played
    /// in these wasn't put, and the folder has what the store has.
    ///
    /// # Errors
    /// The reason why the saves can't be put. Nothing is lost: the next call tries again.
    pub(crate) fn commit(&mut self) -> Result<Vec<String>, Trouble> {
        self.check_age(self.watched)?;
        self.gather()?;
        if self.is_pulse_due {
            self.put_pulse()?;
        }
        self.put_pending()?;
        Ok(mem::replace(&mut self.lost, Vec::new(self.rt.alloc())))
    }

    /// Puts what is pending into the store, and counts that.
    fn put_pending(&mut self) -> Result<(), Trouble> {
        if self.pending.is_empty() {
            return Ok(());
        }
        let begun = Instant::now(self.rt).ok();
        let result = self.put_all();
        let has_failed = !matches!(result, Ok(()) | Err(Trouble::NotYet));
        self.counts
            .note_commit(!has_failed, micros_since(self.rt, begun));
        result
    }

    /// Adds changes of a match to the pending ones.
    pub(crate) fn add(&mut self, changes: Changes) -> Result<(), Trouble> {
        self.pending.changes.push(changes)?;
        Ok(())
    }

    /// Commits like [`Cluster::commit`], and waits for answers as long as they take.
    pub(crate) fn commit_whole(&mut self) -> Result<Vec<String>, Trouble> {
        for _ in 0..u64::MAX {
            match self.commit() {
                Err(Trouble::NotYet) => {}
                result => return result,
            }
        }
        Err(Trouble::NotYet)
    }

    /// Asks a member, and the others if it doesn't answer.
    pub(crate) fn ask(&mut self, path: &str, text: &str) -> Result<Answer, Fault> {
        self.members.ask(path, text)
    }

    /// Asks a member, and waits a while for the answer; `NotYet` if none comes.
    pub(crate) fn ask_awhile(&mut self, path: &str, text: &str) -> Result<Answer, Trouble> {
        match self.members.ask_awhile(path, text)? {
            Some(answer) => Ok(answer),
            None => Err(Trouble::NotYet),
        }
    }

    /// Returns whether the store answers and no changes may have been missed.
    pub(crate) fn is_well(&self) -> bool {
        self.members.is_answering && !self.is_stale
    }

    /// Moves the saves of the turn to the pending changes of their matches.
    fn gather(&mut self) -> Result<(), Trouble> {
        let saves = self.saves.clone()?;
        if let Ok(mut fresh) = saves.fresh.try_borrow_mut() {
            self.gather_all(&fresh)?;
            fresh.clear();
        }
        Ok(())
    }

    /// Adds saves to the pending changes of their matches.
    fn gather_all(&mut self, fresh: &[Change]) -> Result<(), Trouble> {
        if let Ok(mut behind) = self.saves.behind.try_borrow_mut() {
            behind.reserve(fresh.len())?;
        }
        for change in fresh.iter() {
            match change {
                Change::Put(file) => self.pending.add_file(&self.known, file)?,
                Change::Remove(folder) => self.gather_removal(folder.as_str())?,
            }
        }
        Ok(())
    }

    /// Adds a match to those to be removed from the store.
    fn gather_removal(&mut self, folder: &str) -> Result<(), Trouble> {
        self.pending.add_removal(&self.known, folder)?;
        self.known.forget(folder);
        self.note_removal(folder)
    }

    /// Notes that the files of a match that are older than the store are gone.
    pub(crate) fn note_removal(&self, folder: &str) -> Result<(), Trouble> {
        let folder = String::from_str(self.rt.alloc(), folder)?;
        if let Ok(mut behind) = self.saves.behind.try_borrow_mut() {
            behind.note(Change::Remove(folder));
        }
        Ok(())
    }

    /// Writes the files that are older than the store, once a second.
    pub(crate) fn follow(&mut self, now: u64) {
        if now != self.followed {
            self.followed = now;
            self.follow_now();
        }
    }

    /// Writes the files that are older than the store. What can't be written is retried later.
    pub(crate) fn follow_now(&self) {
        if let Ok(mut behind) = self.saves.behind.try_borrow_mut() {
            let copies = self.copies;
            behind.files.retain(|file| copies.write_named(file.name.as_str(), &file.text).is_err());
        }
    }
}
