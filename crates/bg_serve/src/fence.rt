//! The fence of a database: each turn that a server writes to it must follow the one that it wrote
//! last. So a server never overwrites another server's saves or continues from an older copy.

use crate::settling::{Owner, open_there};
use bg_journal::{Change, Error, FileText, Journal, Swap};
use std::alloc::{AllocError, Global};

/// The name under which a database has its owner and the number of its newest turn.
const TURN: &str = ".turn";

/// Why the saves of a turn are not durable.
#[derive(Clone, Copy)]
pub(crate) enum Unsaved {
    /// The database could not be opened or written.
    Failed(Error),
    /// The database is not as this server left it: another server has written to it, or an older
    /// copy has replaced it.
    Overtaken,
}

impl From<Error> for Unsaved {
    fn from(error: Error) -> Unsaved {
        Unsaved::Failed(error)
    }
}

impl From<AllocError> for Unsaved {
    fn from(error: AllocError) -> Unsaved {
        Unsaved::Failed(Error::from(error))
    }
}

/// The owner of a database, and the number of turns that this server has written to it.
#[derive(Drop)]
pub(crate) struct Fence {
    owner: Owner,
    turn: u64,
}

impl Fence {
    /// Creates the fence of a database to which no turn has been written.
    pub(crate) fn new(owner: Owner) -> Fence {
        Fence { owner, turn: 0 }
    }

    /// Returns the owner of the database.
    pub(crate) fn owner(&self) -> &str {
        self.owner.as_str()
    }

    /// Returns the file that a database has before its first turn.
    pub(crate) fn file(&self, alloc: Global) -> Result<FileText, AllocError> {
        Ok(FileText {
            name: String::from_str(alloc, TURN)?,
            text: self.text(alloc, self.turn)?,
        })
    }

    /// Opens the database, and checks that it is as this server left it. It may have all or nothing
    /// of a turn that failed.
    pub(crate) fn adopt(&mut self, rt: &HostRuntime, path: &str) -> Result<Journal, Unsaved> {
        let mut journal = open_there(rt, path)?;
        let found = journal.find(TURN)?;
        self.adopt_turn(rt.alloc(), found.as_deref())?;
        Ok(journal)
    }

    /// Adopts the newest turn of a database, which must be the one that this server wrote last or
    /// the one after it.
    fn adopt_turn(&mut self, alloc: Global, found: Option<&[u8]>) -> Result<(), Unsaved> {
        let next = self.turn.saturating_add(1);
        if found == Some(self.text(alloc, next)?.as_slice()) {
            self.turn = next;
        } else if found != Some(self.text(alloc, self.turn)?.as_slice()) {
            return Err(Unsaved::Overtaken);
        }
        Ok(())
    }

    /// Writes the changes of the next turn.
    pub(crate) fn write(
        &mut self,
        alloc: Global,
        journal: &mut Journal,
        changes: &[Change],
    ) -> Result<(), Unsaved> {
        let next = self.turn.saturating_add(1);
        let (before, after) = (self.text(alloc, self.turn)?, self.text(alloc, next)?);
        let swap = Swap {
            name: TURN,
            before: &before,
            after: &after,
        };
        if !journal.write_after(swap, changes)? {
            return Err(Unsaved::Overtaken);
        }
        self.turn = next;
        Ok(())
    }

    /// Returns the text under [`TURN`] in a database whose newest turn has this number.
    fn text(&self, alloc: Global, turn: u64) -> Result<Vec<u8>, AllocError> {
        let owner = self.owner.as_str();
        Ok(format!(in alloc; "{owner} {turn}")?.into_bytes())
    }
}
