//! Who owns a database, and how the files of matches are brought up to date from it.
//!
//! While a folder of matches has a database, a file in the folder names it: the mark. So nobody who
//! serves or manages the folder overlooks the database.

use crate::durable::{OWNER_ALONE, read_text, replace_file, sync, write_through};
use crate::fence::{Fence, Unsaved};
use crate::seat_files::random_digits;
use bg_console::path_in;
use bg_journal::{Change, Error, ErrorCode, FileText, Journal};
use bg_processes::read_saved;
use std::alloc::{AllocError, Global};
use std::fs::Permissions;
use std::io::ErrorKind;
use std::os::unix::fs::PermissionsExt;
use std::{fs, io};

/// The name of the mark. No match has a name with a dot.
const MARK: &str = ".database";

/// The name under which a database has its owner.
const OWNER: &str = ".owner";

/// The prefix of an option that names a store.
pub(crate) const CLUSTER: &str = "etcd:";

/// The error if the database belongs to another folder, or is missing.
pub(crate) const NOT_THERE: Error = Error::SqliteFailure(ErrorCode::CannotOpen);

/// Thirty-two random digits that a folder and its database share.
pub(crate) type Owner = String;

/// The reason why a database can't be used.
#[derive(Drop)]
pub(crate) enum Unusable {
    /// It could not be opened, read or written.
    Database(Error),
    /// A file could not be read or written.
    File(io::Error),
    /// It has saves of another folder.
    Anothers,
}

impl From<Error> for Unusable {
    fn from(error: Error) -> Unusable {
        Unusable::Database(error)
    }
}

impl From<io::Error> for Unusable {
    fn from(error: io::Error) -> Unusable {
        Unusable::File(error)
    }
}

impl From<AllocError> for Unusable {
    fn from(error: AllocError) -> Unusable {
        Unusable::File(io::Error::from(error))
    }
}

impl From<Unsaved> for Unusable {
    fn from(why: Unsaved) -> Unusable {
        match why {
            Unsaved::Failed(error) => Unusable::Database(error),
            Unsaved::Overtaken => Unusable::Anothers,
        }
    }
}

/// What a mark says: the owner of the database, and its path.
#[derive(Drop)]
pub(crate) struct Mark {
    pub(crate) owner: Owner,
    pub(crate) path: String,
}

/// Reads the mark of a folder, if it has one.
///
/// # Errors
/// The reason why it can't be read; `InvalidData` if it is malformed.
pub(crate) fn read_mark(rt: &HostRuntime, folder: &str) -> io::Result<Option<Mark>> {
    match read_text(rt, folder, MARK)? {
        Some(text) => Ok(Some(mark_in(rt.alloc(), text.as_str())?)),
        None => Ok(None),
    }
}

/// Parses the text of a mark: two lines, the owner and the path.
fn mark_in(alloc: Global, text: &str) -> io::Result<Mark> {
    match text.split_once('\n') {
        Some((owner, rest)) if rest.ends_with('\n') => Ok(Mark {
            owner: String::from_str(alloc, owner)?,
            path: String::from_str(alloc, rest.trim_end_matches('\n'))?,
        }),
        _ => Err(io::Error::from(ErrorKind::InvalidData)),
    }
}

/// Opens an existing database.
pub(crate) fn open_there(rt: &HostRuntime, path: &str) -> Result<Journal, Error> {
    if fs::metadata(rt, path).is_err() {
        return Err(NOT_THERE);
    }
    Journal::open(rt, path)
}

/// Brings the files of a folder up to date from the database that its mark names, and gives that
/// database up. If the process is killed meanwhile, nothing is lost: the next call does it again. A
/// kill at the end leaves a database without files, as does one at the beginning of [`begin`].
///
/// # Errors
/// The reason why it can't be done. The folder then still has its database.
pub(crate) fn settle(rt: &HostRuntime, folder: &str, mark: &Mark) -> Result<(), Unusable> {
    let mut journal = open_there(rt, mark.path.as_str())?;
    settle_all(rt, folder, mark.owner.as_str(), &mut journal)?;
    Ok(remove_mark(rt, folder)?)
}

/// Brings the files of a folder up to date from a database, if it has this owner, and empties it.
fn settle_all(
    rt: &HostRuntime,
    folder: &str,
    owner: &str,
    journal: &mut Journal,
) -> Result<(), Unusable> {
    let files = journal.files()?;
    if !has_owner(journal, owner, files.is_empty())? {
        return Err(Unusable::Database(NOT_THERE));
    }
    for file in files.iter() {
        settle_file(rt, folder, file)?;
    }
    Ok(journal.clear()?)
}

/// Returns whether a database has this owner, or neither an owner nor files.
fn has_owner(journal: &mut Journal, owner: &str, is_empty: bool) -> Result<bool, Error> {
    match journal.find(OWNER)? {
        Some(found) => Ok(found.as_slice() == owner.as_bytes()),
        None => Ok(is_empty),
    }
}

/// Brings a file up to date. Skips files in folders that no longer exist.
fn settle_file(rt: &HostRuntime, folder: &str, file: &FileText) -> io::Result<()> {
    let Some((name, _)) = file.name.as_str().split_once('/') else {
        return Ok(());
    };
    let above = path_in(rt.alloc(), folder, name)?;
    if fs::metadata(rt, above.as_str()).is_err() {
        return Ok(());
    }
    let path = path_in(rt.alloc(), folder, file.name.as_str())?;
    settle_text(rt, path.as_str(), &file.text)?;
    sync(rt, above.as_str())
}

/// Gives a file this text, and makes it durable.
fn settle_text(rt: &HostRuntime, path: &str, text: &[u8]) -> io::Result<()> {
    if read_saved(rt, path)?.as_slice() == text {
        sync(rt, path)
    } else {
        write_through(rt, path, text)
    }
}

/// Gives a folder a database, which is created if it is missing, and notes that in the folder.
/// Returns the fence that each turn written to the database must pass.
///
/// # Errors
/// `Anothers` if it already has files; otherwise the reason why it can't be opened or written.
pub(crate) fn begin(rt: &HostRuntime, folder: &str, path: &str) -> Result<Fence, Unusable> {
    let fence = Fence::new(random_digits(rt, 16)?);
    begin_with(rt, folder, path, &fence)?;
    Ok(fence)
}

/// Gives a folder a database with this fence.
fn begin_with(rt: &HostRuntime, folder: &str, path: &str, fence: &Fence) -> Result<(), Unusable> {
    let mut journal = Journal::open(rt, path)?;
    if !journal.files()?.is_empty() {
        return Err(Unusable::Anothers);
    }
    close_to_others(rt, path)?;
    let whole = fs::canonicalize(rt, path)?;
    write_mark(rt, folder, whole.as_str(), fence.owner())?;
    Ok(journal.write(&first_changes(rt.alloc(), fence)?)?)
}

/// Returns the changes that give a database its owner, and say that it has no turn yet.
fn first_changes(alloc: Global, fence: &Fence) -> Result<[Change; 2], AllocError> {
    let text = fence.owner().as_bytes().to_vec(alloc)?;
    let name = String::from_str(alloc, OWNER)?;
    Ok([
        Change::Put(FileText { name, text }),
        Change::Put(fence.file(alloc)?),
    ])
}

/// Lets only the owner read a database and its log, as with saved files.
fn close_to_others(rt: &HostRuntime, path: &str) -> io::Result<()> {
    fs::set_permissions(rt, path, Permissions::from_mode(OWNER_ALONE))?;
    let log = format!(in rt.alloc(); "{path}-wal")?;
    fs::set_permissions(rt, log.as_str(), Permissions::from_mode(OWNER_ALONE))
}

/// Writes the mark of a folder: the owner of the database, and its path. The file is replaced
/// atomically.
pub(crate) fn write_mark(
    rt: &HostRuntime,
    folder: &str,
    path: &str,
    owner: &str,
) -> io::Result<()> {
    let text = format!(in rt.alloc(); "{owner}\n{path}\n")?;
    replace_file(rt, folder, MARK, text.as_str())
}

/// Removes the mark of a folder.
fn remove_mark(rt: &HostRuntime, folder: &str) -> io::Result<()> {
    let mark = path_in(rt.alloc(), folder, MARK)?;
    fs::remove_file(rt, mark.as_str())?;
    sync(rt, folder)
}
