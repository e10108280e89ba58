//! Messages about databases that can't be used.

use crate::cluster_words::is_copy;
use crate::fence::Unsaved;
use crate::settling::{CLUSTER, Mark, NOT_THERE, Unusable, read_mark, settle};
use bg_console::{failed, failed_at, say, wrong};
use bg_journal::{Error, ErrorCode};
use bg_processes::Printable;
use bg_reports::Ending;

/// Brings the files of a folder of matches up to date from the database with which it was last
/// served, if any. Ends with `Failed` if that can't be done. A folder that is a copy of a store can
/// be used only with a store.
pub(crate) fn settle_first(
    rt: &HostRuntime,
    folder: &str,
    database: Option<&str>,
) -> Result<(), Ending> {
    match read_mark(rt, folder) {
        Ok(Some(mark)) => settle_marked(rt, folder, &mark, database),
        Ok(None) => Ok(()),
        Err(error) => Err(failed_at(rt, folder, "/.database could not be read", &error)),
    }
}

/// Brings the files of a folder with a mark up to date.
fn settle_marked(
    rt: &HostRuntime,
    folder: &str,
    mark: &Mark,
    database: Option<&str>,
) -> Result<(), Ending> {
    let path = mark.path.as_str();
    if path.starts_with(CLUSTER) {
        return match database {
            Some(words) if words.starts_with(CLUSTER) => Ok(()),
            _ => Err(is_copy(rt, folder, path)),
        };
    }
    match settle(rt, folder, mark) {
        Ok(()) => {
            let path = Printable(path);
            say(
                rt,
                format_args!("the folders are brought up to date from the database {path}"),
            );
            Ok(())
        }
        Err(Unusable::File(error)) => Err(failed_at(
            rt,
            folder,
            " could not be brought up to date from its database",
            &error,
        )),
        Err(Unusable::Database(error)) => Err(not_settled(rt, folder, path, error)),
        Err(Unusable::Anothers) => Err(not_settled(rt, folder, path, NOT_THERE)),
    }
}

/// Reports why the newest saves of a folder can't be read.
fn not_settled(rt: &HostRuntime, folder: &str, path: &str, error: Error) -> Ending {
    let (folder, path) = (Printable(folder), Printable(path));
    match error {
        Error::SqliteFailure(ErrorCode::DatabaseBusy) => is_busy(rt, path),
        Error::SqliteFailure(ErrorCode::CannotOpen) => failed(
            rt,
            format_args!(
                "the newest saves of {folder} are in the database {path}, which is not there: bring it back, and {path}-wal with it"
            ),
        ),
        _ => failed(
            rt,
            format_args!(
                "the newest saves of {folder} are in the database {path}, which can't be read: {error}"
            ),
        ),
    }
}

/// Reports that another process uses a database.
fn is_busy(rt: &HostRuntime, path: Printable<'_>) -> Ending {
    failed(
        rt,
        format_args!(
            "another process has the database {path}: end it first; `fuser {path}` names it"
        ),
    )
}

/// Reports why a database can't be used.
pub(crate) fn not_usable(rt: &HostRuntime, path: &str, error: Error) -> Ending {
    let path = Printable(path);
    match error {
        Error::SqliteFailure(ErrorCode::DatabaseBusy) => is_busy(rt, path),
        Error::SqliteFailure(ErrorCode::NotADatabase) => wrong(
            rt,
            format_args!("{path} is no database of a server: name a new file by --store"),
        ),
        _ => {
            let remedy = remedy_of(error);
            failed(
                rt,
                format_args!("the database {path} can't be used: {error}{remedy}"),
            )
        }
    }
}

/// Returns what to do about a database that can't be used, if that is known.
fn remedy_of(error: Error) -> &'static str {
    match error {
        Error::SqliteFailure(ErrorCode::CannotOpen) =>
            "; name a file in a folder that is there, and that it may write to",
        _ => "",
    }
}

/// Reports that a database has the saves of another folder.
pub(crate) fn is_anothers(rt: &HostRuntime, path: &str) -> Ending {
    let path = Printable(path);
    wrong(
        rt,
        format_args!(
            "the database {path} has the saves of other matches: name a new file by --store"
        ),
    )
}

/// Logs whether the saves can be made durable, if that has changed.
pub(crate) fn tell_outage(
    rt: &HostRuntime,
    path: &str,
    before: Option<Unsaved>,
    after: Option<Unsaved>,
) {
    let path = Printable(path);
    match (before, after) {
        (None, Some(Unsaved::Failed(error))) => say(
            rt,
            format_args!(
                "the saves can't be made durable in {path}: {error}; nobody is told anything until they are"
            ),
        ),
        (None | Some(Unsaved::Failed(_)), Some(Unsaved::Overtaken)) => say(
            rt,
            format_args!(
                "{path} is not as this server left it: another one has written to it, or an older copy is in its place; nobody is told anything until it is back"
            ),
        ),
        (Some(_), None) => say(
            rt,
            format_args!("the saves are durable in {path} again: the matches go on"),
        ),
        _ => {}
    }
}
