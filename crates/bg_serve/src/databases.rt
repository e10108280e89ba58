//! The database of a server. All saves of a turn are made durable there by one sync, and only then
//! are clients told. The files of the matches follow once a second, without syncs of their own.
//! They are brought up to date from the database when it is given up, or at the next start
//! (docs/SERVING.md, "A database").

use crate::fence::{Fence, Unsaved};
use crate::folders::FolderStore;
use crate::save_counts::{SaveCounts, micros_since};
use crate::settling::{NOT_THERE, Unusable, begin};
use bg_console::path_in;
use bg_journal::{Change, FileText, Journal};
use bg_stores::{Behind, TurnSaves, overwrite};
use std::alloc::AllocError;
use std::io;
use std::rc::Rc;
use std::time::Instant;

/// The database of a server. It is large, so it is boxed.
#[derive(Drop)]
pub(crate) struct Database<'a> {
    rt: &'a HostRuntime,
    /// The folder of all matches.
    folder: &'a str,
    path: &'a str,
    fence: Fence,
    /// `None` after a failure; then it is opened again.
    journal: Option<Journal>,
    saves: Rc<TurnSaves>,
    counts: Rc<SaveCounts>,
    /// The second in which the files were last brought up to date.
    followed: u64,
}

impl<'a> Database<'a> {
    /// Opens the database of a folder of matches, and creates it if it is missing. From now on, the
    /// saves of the store are gathered for it.
    ///
    /// # Errors
    /// The reason why it can't be used.
    pub(crate) fn begin(
        rt: &'a HostRuntime,
        folder: &'a str,
        path: &'a str,
        store: &mut FolderStore<'a>,
    ) -> Result<Box<Database<'a>>, Unusable> {
        let fence = begin(rt, folder, path)?;
        let (saves, counts) = store.gather(TurnSaves::new(rt.alloc()))?;
        let mut database = Database::new(rt, (folder, path), fence, (saves, counts))?;
        database.open()?;
        Ok(database)
    }

    /// Returns the database of a folder at a path, not yet opened.
    fn new(
        rt: &'a HostRuntime,
        (folder, path): (&'a str, &'a str),
        fence: Fence,
        (saves, counts): (Rc<TurnSaves>, Rc<SaveCounts>),
    ) -> Result<Box<Database<'a>>, AllocError> {
        let database = Database {
            rt,
            folder,
            path,
            fence,
            journal: None,
            saves,
            counts,
            followed: 0,
        };
        Ok(Box::new(rt.alloc(), database)?)
    }

    /// Makes the saves of the turn durable. Until this succeeds, clients may be told nothing that
    /// depends on them.
    ///
    /// # Errors
    /// The reason why they can't be made durable. Nothing is lost: the next call tries again.
    pub(crate) fn commit(&mut self) -> Result<(), Unsaved> {
        let saves = self.saves.clone()?;
        if let Ok(mut fresh) = saves.fresh.try_borrow_mut() {
            if let Ok(mut behind) = saves.behind.try_borrow_mut() {
                return self.commit_all(&mut fresh, &mut behind);
            }
        }
        Ok(())
    }

    /// Makes these changes durable, and notes that their files are behind.
    fn commit_all(&mut self, fresh: &mut Vec<Change>, behind: &mut Behind) -> Result<(), Unsaved> {
        if fresh.is_empty() {
            return Ok(());
        }
        behind.reserve(fresh.len())?;
        let begun = Instant::now(self.rt).ok();
        let result = self.write(fresh.as_slice());
        self.counts
            .note_commit(result.is_ok(), micros_since(self.rt, begun));
        result?;
        for change in fresh.drain(..) {
            behind.note(change);
        }
        Ok(())
    }

    /// Writes the files that are older than the database, once a second and without syncs. A file
    /// that is saved more often is written once. What can't be written is retried a second later.
    pub(crate) fn follow(&mut self, now: u64) {
        if now == self.followed {
            return;
        }
        self.followed = now;
        let (rt, folder) = (self.rt, self.folder);
        if let Ok(mut behind) = self.saves.behind.try_borrow_mut() {
            behind
                .files
                .retain(|file| write_file(rt, folder, file).is_err());
        }
    }

    /// Writes changes to the database. After a failure, the next call opens it again.
    fn write(&mut self, changes: &[Change]) -> Result<(), Unsaved> {
        self.open()?;
        let written = match &mut self.journal {
            Some(journal) => self.fence.write(self.rt.alloc(), journal, changes),
            None => Err(Unsaved::Failed(NOT_THERE)),
        };
        if written.is_err() {
            self.journal = None;
        }
        written
    }

    /// Opens the database if it isn't open.
    fn open(&mut self) -> Result<(), Unsaved> {
        if self.journal.is_none() {
            self.journal = Some(self.fence.adopt(self.rt, self.path)?);
        }
        Ok(())
    }
}

/// Writes a file below a folder, without a sync.
fn write_file(rt: &HostRuntime, folder: &str, file: &FileText) -> io::Result<()> {
    let path = path_in(rt.alloc(), folder, file.name.as_str())?;
    overwrite(rt, path.as_str(), &file.text)
}
