//! The command with which an operator changes the matches in a folder, even while they are served.

use crate::database_words::settle_first;
use crate::durable::sync;
use crate::tables::{Tables, check_of_all};
use bg_board::Player;
use bg_console::{
    check_folder, check_out_folder, failed_at, failed_for, say, say_of, say_why, written, wrong,
};
use bg_options::{ManageOptions, Management};
use bg_processes::{FolderLock, Printable};
use bg_reports::Ending;
use std::fs::TryLockError;
use std::io;
use std::io::ErrorKind;
use std::path::Path;

/// The message if the options name nothing to do, or more than one thing.
const NOTHING: &str =
    "give one of --hide, --show, --delete, --forget-names, --new-link, --backup and --restore";

/// The messages on what can't be copied, and on what can't be restored.
const NO_WHOLE_COPY: &str = " has no whole copy: name a new folder";

const NOT_COPIED: &str =
    " is not copied: its files are of no whole match (`bg_relay list` and `show` say how); put back a copy of them or move it away, and name a new folder";

const NOT_RESTORED: &str =
    " is not restored: its copy is of no whole match (`bg_relay list` and `show` say how); name a folder with another copy";

const NO_COPIES: &str = " is no folder: name one that `manage --backup` made";

/// Does what an operator wants with a match in a folder, or with all matches.
pub fn run(rt: &HostRuntime, options: ManageOptions<'_>) -> Result<Ending, Ending> {
    let ManageOptions {
        folder,
        name,
        wanted,
    } = options;
    let Some(wanted) = wanted else {
        return Err(wrong(rt, NOTHING));
    };
    check_folder(rt, folder, " is no folder: name the one that `serve` has")?;
    check_of_all(rt, folder)?;
    let lock = lock_unless_served(rt, folder)?;
    if lock.is_some() {
        settle_first(rt, folder, None)?;
    }
    let tables = Tables {
        rt,
        folder,
        is_served: lock.is_none(),
    };
    do_wanted(rt, tables, name, wanted)
}

/// Does what is wanted with a match, or with all matches.
fn do_wanted(
    rt: &HostRuntime,
    tables: Tables<'_>,
    name: Option<&str>,
    wanted: Management<'_>,
) -> Result<Ending, Ending> {
    match (wanted, name) {
        (Management::Backup(out), None) => back_up(rt, tables, out),
        (Management::Backup(_), Some(_)) => {
            Err(wrong(rt, "--backup copies all matches: leave out --match"))
        }
        (Management::Restore(from), Some(name)) => restore(rt, tables, from, name),
        (Management::Restore(from), None) => restore_all(rt, tables, from),
        (_, Some(name)) => change(rt, tables, name, wanted),
        (_, None) => Err(wrong(rt, "name the match: --match NAME")),
    }
}

/// Locks the folder; returns `None` if a server runs over it.
fn lock_unless_served(rt: &HostRuntime, folder: &str) -> Result<Option<FolderLock>, Ending> {
    match FolderLock::take(rt, folder) {
        Ok(lock) => Ok(Some(lock)),
        Err(TryLockError::WouldBlock) => Ok(None),
        Err(TryLockError::Error(error)) => {
            Err(failed_at(rt, folder, " could not be locked", &error))
        }
    }
}

/// Changes a match.
fn change(
    rt: &HostRuntime,
    tables: Tables<'_>,
    name: &str,
    wanted: Management<'_>,
) -> Result<Ending, Ending> {
    let path = match tables.path_of(name) {
        Ok(Some(path)) => path,
        Ok(None) => return Err(no_match(rt, tables.folder, name)),
        Err(error) => return Err(failed_for(rt, "the match can't be read", &error)),
    };
    match changed(tables, path.as_str(), wanted) {
        Ok(secret) => {
            tell_server(rt, tables, name)?;
            tell_change(rt, wanted, secret.as_deref())
        }
        Err(error) => Err(not_changed(rt, path.as_str(), wanted, &error)),
    }
}

/// Reports why a match could not be changed: its file that is malformed, if one is.
fn not_changed(rt: &HostRuntime, path: &str, wanted: Management<'_>, error: &io::Error) -> Ending {
    let words = match (wanted, error.kind()) {
        (Management::NewLink(_), ErrorKind::InvalidData) =>
            "/seats is damaged: nothing was changed; put back a copy of it",
        (Management::ForgetNames, ErrorKind::InvalidData) =>
            "/match is no match file: nothing was changed; put back a copy of it",
        _ => return failed_at(rt, path, " could not be changed", error),
    };
    say_of(rt, path, words);
    Ending::Failed
}

/// Prints the result of a change: the link of a seat, if it has a new one.
fn tell_change(
    rt: &HostRuntime,
    wanted: Management<'_>,
    secret: Option<&str>,
) -> Result<Ending, Ending> {
    match (wanted, secret) {
        (Management::NewLink(player), Some(link)) => {
            let letter = if player == Player::X { "X" } else { "O" };
            written(rt, println!(rt; "{letter} plays at /play#{link}"))?;
            Ok(Ending::Served)
        }
        (Management::NewLink(_), None) => Err(wrong(
            rt,
            "nobody can play it here: `new` has made it, and it has no links",
        )),
        _ => Ok(Ending::Served),
    }
}

/// Does what is wanted with the folder of a match. Returns the secret of a seat, if it has a new
/// one.
fn changed(tables: Tables<'_>, path: &str, wanted: Management<'_>) -> io::Result<Option<String>> {
    match wanted {
        Management::NewLink(player) => return tables.renew(path, player),
        Management::Hide => tables.set_hidden(path, true)?,
        Management::Show => tables.set_hidden(path, false)?,
        Management::Delete => tables.delete(path)?,
        Management::ForgetNames => tables.forget_names(path)?,
        Management::Backup(_) | Management::Restore(_) => {}
    }
    Ok(None)
}

/// Reports that a folder has no match of a name.
fn no_match(rt: &HostRuntime, folder: &str, name: &str) -> Ending {
    let (name, folder) = (Printable(name), Printable(folder));
    wrong(rt, format_args!("{folder} has no match {name}"))
}

/// Tells the server that a match was changed, if one runs.
fn tell_server(rt: &HostRuntime, tables: Tables<'_>, name: &str) -> Result<(), Ending> {
    match tables.tell(name) {
        Ok(true) => Ok(()),
        Ok(false) => {
            say(
                rt,
                "it is changed, but the server has not answered within 5 seconds: it takes that in when it goes on, or is started again",
            );
            Ok(())
        }
        Err(error) => Err(failed_for(rt, "the server could not be told", &error)),
    }
}

/// Copies all matches into a new folder. If some can't be copied, it reports why, copies the
/// others, and ends with `Failed`.
fn back_up(rt: &HostRuntime, tables: Tables<'_>, out: &str) -> Result<Ending, Ending> {
    let names = begin_copies(rt, tables, out)?;
    let (mut count, mut has_all) = (0u64, true);
    for name in names.iter() {
        if copy_out(rt, tables, out, name.as_str())? {
            count = count.saturating_add(1);
        } else {
            has_all = false;
        }
    }
    if let Err(error) = sync(rt, out) {
        return Err(failed_at(rt, out, NO_WHOLE_COPY, &error));
    }
    written(rt, println!(rt; "matches copied: {count}"))?;
    if has_all {
        Ok(Ending::Served)
    } else {
        Err(Ending::Failed)
    }
}

/// Makes a new folder for copies, and returns the names of the matches that are to be copied.
fn begin_copies(rt: &HostRuntime, tables: Tables<'_>, out: &str) -> Result<Vec<String>, Ending> {
    if out.is_empty() {
        return Err(wrong(rt, "the name of a folder is empty"));
    }
    match Path::new(out).parent() {
        Some(above) if !above.as_str().is_empty() => check_out_folder(rt, above.as_str())?,
        _ => {}
    }
    match tables.begin_copies(out) {
        Ok(names) => Ok(names),
        Err(error) if error.kind() == ErrorKind::AlreadyExists => {
            let shown = Printable(out);
            Err(wrong(
                rt,
                format_args!("{shown} is there already: name a new folder"),
            ))
        }
        Err(error) => Err(failed_at(rt, out, NO_WHOLE_COPY, &error)),
    }
}

/// Copies a match into the folder of copies. Returns false, and reports why, if that can't be done.
/// Ends with `Failed` if there is no room for any other either.
fn copy_out(rt: &HostRuntime, tables: Tables<'_>, out: &str, name: &str) -> Result<bool, Ending> {
    let Err(error) = tables.copy_out(out, name) else {
        return Ok(true);
    };
    match error.kind() {
        ErrorKind::StorageFull | ErrorKind::QuotaExceeded => {
            return Err(failed_at(rt, out, NO_WHOLE_COPY, &error));
        }
        ErrorKind::Interrupted => say_of(rt, name, NOT_COPIED),
        _ => say_why(rt, name, " could not be copied", &error),
    }
    Ok(false)
}

/// Copies a match back.
fn restore(rt: &HostRuntime, tables: Tables<'_>, from: &str, name: &str) -> Result<Ending, Ending> {
    check_folder(rt, from, NO_COPIES)?;
    match tables.is_kept_in(from, name) {
        Ok(true) => {}
        Ok(false) => return Err(no_match(rt, from, name)),
        Err(error) => return Err(failed_at(rt, from, " could not be read", &error)),
    }
    let shown = Printable(name);
    if put_back(rt, tables, from, name)? {
        written(rt, println!(rt; "restored: {shown}"))?;
        return Ok(Ending::Served);
    }
    Err(wrong(
        rt,
        format_args!("{shown} is there: delete it first, if the copy is to take its place"),
    ))
}

/// Copies back all matches that no longer exist.
fn restore_all(rt: &HostRuntime, tables: Tables<'_>, from: &str) -> Result<Ending, Ending> {
    check_folder(rt, from, NO_COPIES)?;
    let names = match tables.names_in(from) {
        Ok(names) => names,
        Err(error) => return Err(failed_at(rt, from, " could not be read", &error)),
    };
    let mut count = 0u64;
    for name in names.iter() {
        if put_back(rt, tables, from, name.as_str())? {
            count = count.saturating_add(1);
        }
    }
    written(rt, println!(rt; "matches restored: {count}"))?;
    Ok(Ending::Served)
}

/// Copies a match back, and tells the server. Returns false if the match still exists.
fn put_back(rt: &HostRuntime, tables: Tables<'_>, from: &str, name: &str) -> Result<bool, Ending> {
    match tables.put_back(from, name) {
        Ok(true) => {
            tell_server(rt, tables, name)?;
            Ok(true)
        }
        Ok(false) => Ok(false),
        Err(error) if error.kind() == ErrorKind::Interrupted => {
            say_of(rt, name, NOT_RESTORED);
            Err(Ending::Failed)
        }
        Err(error) => Err(failed_at(rt, name, " could not be restored", &error)),
    }
}
