//! How a server joins the servers that share the matches of a store. The mark in its folder has the
//! same digits as the store of which the folder is a copy.

use crate::cluster_words::tell_long;
use crate::clusters::Cluster;
use crate::folders::FolderStore;
use crate::seat_files::random_digits;
use crate::settling::{CLUSTER, read_mark, write_mark};
use bg_etcd::{Changes, File, MOST_TEXT, taken_in, transaction_text};
use bg_stores::{Copies, Members, Trouble, TurnSaves, hosts_in};
use std::alloc::{AllocError, Global};
use std::io;

/// The folder and the file in which a store has its ID. No match has a name with a dot.
const OWNER: &str = ".owner";

const OWNER_FILE: &str = ".owner/id";

/// What the mark says while a store is being filled from the folder.
const FILLING: &str = "filling";

/// The reason why a server can't share the matches of a store.
#[derive(Drop)]
pub(crate) enum Unjoined {
    Trouble(Trouble),
    /// The option names no members.
    NoMembers,
    /// The folder has matches of its own, and the store has others.
    OwnMatches,
    /// The folder is a copy of another store.
    OtherStore,
    /// The folder is a copy of a store that has been emptied since.
    Emptied,
    /// The match of this name in the folder has more bytes than the store takes.
    TooLong(String),
}

impl From<Trouble> for Unjoined {
    fn from(trouble: Trouble) -> Unjoined {
        Unjoined::Trouble(trouble)
    }
}

impl From<io::Error> for Unjoined {
    fn from(error: io::Error) -> Unjoined {
        Unjoined::Trouble(Trouble::from(error))
    }
}

impl From<AllocError> for Unjoined {
    fn from(error: AllocError) -> Unjoined {
        Unjoined::Trouble(Trouble::from(error))
    }
}

/// Joins the servers that share the matches of the store that an option names. The first server
/// fills the store with the matches of its folder. The folder of any other server becomes a copy of
/// the store.
///
/// # Errors
/// The reason why the server can't join.
pub(crate) fn join<'a>(
    rt: &'a HostRuntime,
    folder: &'a str,
    words: &str,
    store: &mut FolderStore<'a>,
) -> Result<Box<Cluster<'a>>, Unjoined> {
    let alloc = rt.alloc();
    let Some(hosts) = hosts_in(alloc, words.strip_prefix(CLUSTER).unwrap_or(""))? else {
        return Err(Unjoined::NoMembers);
    };
    let gathered = store.gather(TurnSaves::shared(alloc))?;
    let copies = Copies { rt, folder };
    let mut cluster = Cluster::new(copies, Members::new(rt, hosts), gathered)?;
    cluster.check_owner(words)?;
    let _ = cluster.catch_up()?;
    cluster.remove_others()?;
    Ok(cluster)
}

impl<'a> Cluster<'a> {
    /// Checks that the folder is a copy of the store, or makes it one.
    fn check_owner(&mut self, words: &str) -> Result<(), Unjoined> {
        let owner = owner_in(self.page("", 0)?.files);
        match read_mark(self.rt, self.copies.folder)? {
            Some(mark) => self.check_mark(words, owner.as_deref(), mark.owner.as_str()),
            None => self.make_copy(words, owner.as_deref()),
        }
    }

    /// Checks that the mark of the folder names the owner of the store. If the store was being
    /// filled from the folder, that is done again.
    fn check_mark(
        &mut self,
        words: &str,
        owner: Option<&str>,
        marked: &str,
    ) -> Result<(), Unjoined> {
        match owner {
            _ if marked == FILLING => self.fill(words),
            Some(owner) if owner == marked => Ok(()),
            Some(_) => Err(Unjoined::OtherStore),
            None => Err(Unjoined::Emptied),
        }
    }

    /// Makes a folder without a mark a copy of the store. A store without an owner is filled from
    /// the folder.
    fn make_copy(&mut self, words: &str, owner: Option<&str>) -> Result<(), Unjoined> {
        let Some(owner) = owner else {
            return self.fill(words);
        };
        if !self.copies.names()?.is_empty() {
            return Err(Unjoined::OwnMatches);
        }
        Ok(write_mark(self.rt, self.copies.folder, words, owner)?)
    }

    /// Fills the store with the matches of the folder. If the process is killed meanwhile, nothing
    /// is lost: the next start fills the store again.
    fn fill(&mut self, words: &str) -> Result<(), Unjoined> {
        let Copies { rt, folder } = self.copies;
        for name in self.copies.names()? {
            if !self.add_all(name.as_str())? {
                return Err(Unjoined::TooLong(name));
            }
        }
        write_mark(rt, folder, words, FILLING)?;
        let _ = self.commit_whole()?;
        let owner = random_digits(rt, 16)?;
        match self.put_owner(owner.as_str())? {
            Some(other) => Ok(write_mark(rt, folder, words, other.as_str())?),
            None => Ok(write_mark(rt, folder, words, owner.as_str())?),
        }
    }

    /// Adds all files of a match to the pending changes. Returns false, and adds none, if one of
    /// them has more bytes than the store takes.
    fn add_all(&mut self, name: &str) -> Result<bool, Trouble> {
        let files = self.copies.all_files(name)?;
        if files.iter().any(|file| file.text.len() > MOST_TEXT) {
            return Ok(false);
        }
        let folder = String::from_str(self.rt.alloc(), name)?;
        self.add(Changes {
            folder,
            known: 0,
            files,
        })?;
        Ok(true)
    }

    /// Gives the store an ID, unless another server has done so. Returns the one that it has then,
    /// if that is another.
    fn put_owner(&mut self, owner: &str) -> Result<Option<String>, Trouble> {
        let alloc = self.rt.alloc();
        let text = owner_text(alloc, owner)?;
        let (status, body) = self.ask("/v3/kv/txn", text.as_str())?;
        Ok(owner_in(taken_in(alloc, status, &body)?.files))
    }

    /// Removes the matches of the folder that the store doesn't have: they were deleted.
    fn remove_others(&mut self) -> Result<(), Trouble> {
        let names = self.copies.names()?;
        for name in names.iter() {
            if self.known.of(name.as_str()) == 0 {
                self.remove_other(name.as_str())?;
            }
        }
        Ok(())
    }

    /// Removes a match that the store doesn't have. If the operator has restored it since, it is put
    /// into the store instead, unless it is too long.
    fn remove_other(&mut self, name: &str) -> Result<(), Trouble> {
        if self.copies.is_changed(name)? {
            if self.add_all(name)? {
                return Ok(());
            }
            tell_long(self.rt, name, true);
        }
        Ok(self.copies.remove(name)?)
    }
}

/// Returns the transaction that gives a store an ID if it has none.
fn owner_text(alloc: Global, owner: &str) -> Result<String, AllocError> {
    let mut changes = Changes::new(alloc, OWNER, 0)?;
    changes.put(File {
        name: String::from_str(alloc, OWNER_FILE)?,
        text: owner.as_bytes().to_vec(alloc)?,
        revision: 0,
    })?;
    transaction_text(alloc, &[changes])
}

/// Returns the ID of the store, if it is among these files.
fn owner_in(files: Vec<File>) -> Option<String> {
    for file in files {
        if file.name.as_str() == OWNER_FILE {
            return String::from_utf8(file.text).ok();
        }
    }
    None
}
