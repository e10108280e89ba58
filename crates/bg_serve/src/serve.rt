//! The command that serves matches to browsers.

use crate::crowds::Crowd;
use crate::database_words::{is_anothers, not_usable, settle_first, tell_outage};
use crate::databases::Database;
use crate::folders::FolderStore;
use crate::pauses::pause;
use crate::servers::Server;
use crate::settling::{CLUSTER, Unusable};
use crate::sharing::run_shared;
use crate::sockets::Sockets;
use crate::tables::check_of_all;
use crate::unserved::LeftOut;
use bg_console::{failed, failed_or, own_folder, say, wrong};
use bg_options::ServeOptions;
use bg_processes::{Failures, Printable};
use bg_reports::Ending;
use std::io;
use std::io::ErrorKind;

/// Parts of the messages on why a server can't start or continue.
const FOLDER_AND_PORT: &str =
    "; allow it to read the folder and to listen at the port, and start it again";

const NOT_WAITED: &str = "the sockets can't be waited for";

const MORE_FILES: &str = "; allow it more open files (`ulimit -n`), and start it again";

/// Serves the matches of a folder at a port of this machine until the process is ended. Logs each
/// request if the options say so.
pub fn run(rt: &HostRuntime, options: ServeOptions<'_>) -> Result<Ending, Ending> {
    if let Some("") = options.database {
        return Err(wrong(rt, "the name of a file is empty"));
    }
    check_of_all(rt, options.folder)?;
    let _lock = own_folder(rt, options.folder)?;
    settle_first(rt, options.folder, options.database)?;
    run_owned(rt, options, &Failures::new())
}

/// Serves the matches of a folder that no other process uses.
fn run_owned(
    rt: &HostRuntime,
    options: ServeOptions<'_>,
    failures: &Failures,
) -> Result<Ending, Ending> {
    let words = options.database.unwrap_or_default();
    if words.starts_with(CLUSTER) {
        return run_shared(rt, &options, words, failures);
    }
    match serve_owned(rt, &options, words, failures) {
        Ok(ending) => ending,
        Err(why) => Err(not_begun(rt, options.port, words, why)),
    }
}

/// Reports why the matches of a folder can't be served at a port, or with a database.
pub(crate) fn not_begun(rt: &HostRuntime, port: u16, database: &str, why: Unusable) -> Ending {
    match why {
        Unusable::File(error) if error.kind() == ErrorKind::AddrInUse => failed(
            rt,
            format_args!(
                "port {port} is taken: end the process that has it, or name another by --port"
            ),
        ),
        // The port may be what it has no right to, and `ls -ld` says nothing of that.
        Unusable::File(error) if error.kind() == ErrorKind::PermissionDenied => failed(
            rt,
            format_args!("the matches can't be served: {error}{FOLDER_AND_PORT}"),
        ),
        Unusable::File(error) => {
            failed_or(rt, "the matches can't be served", &error, FOLDER_AND_PORT)
        }
        Unusable::Database(error) => not_usable(rt, database, error),
        Unusable::Anothers => is_anothers(rt, database),
    }
}

/// Binds the port, opens the database if one is named, opens the matches of the folder, and serves
/// them until the process is ended. `words` is the path of the database.
///
/// # Errors
/// The reason why the matches can't be served.
fn serve_owned<'a>(
    rt: &'a HostRuntime,
    options: &ServeOptions<'a>,
    words: &str,
    failures: &'a Failures,
) -> Result<Result<Ending, Ending>, Unusable> {
    let sockets = Sockets::bind(rt, options.port)?;
    let mut store = FolderStore::new(rt, options.folder, failures)?;
    let mut database = match options.database {
        Some(path) => Some(Database::begin(rt, options.folder, path, &mut store)?),
        None => None,
    };
    let mut server = Server::begin_over(
        rt,
        sockets,
        store,
        options.idle_hours,
        options.tells_requests,
    )?;
    tell_begin(rt, &server);
    Ok(go_on(rt, &mut server, &mut database, words))
}

/// Runs the turns of a server. If there is a database at `path`, the saves of a turn are committed
/// before clients are told of them. If the operator deletes or restores a match, that is committed
/// before files that are older than the database are written.
fn go_on(
    rt: &HostRuntime,
    server: &mut Server<'_>,
    database: &mut Option<Box<Database<'_>>>,
    path: &str,
) -> Result<Ending, Ending> {
    for _ in 0..u64::MAX {
        let now = waited(rt, server.hear())?;
        commit(rt, &mut server.crowd, database, path)?;
        let made = waited(rt, server.tell(now))?;
        commit(rt, &mut server.crowd, database, path)?;
        if let Some(database) = database {
            database.follow(now);
        }
        tell_turn(rt, server, made);
    }
    Ok(Ending::Served)
}

/// Ends a turn whose saves are all durable: logs its results, such as the number of matches made,
/// and the requests that were answered, if a log of them is kept.
pub(crate) fn tell_turn(rt: &HostRuntime, server: &mut Server<'_>, made: u64) {
    server.forget_changes();
    tell_counts(rt, made, server.ended(), server.changed());
    if let Some(log) = &server.turns.log {
        say_lines(rt, log.as_str());
    }
}

/// Commits the saves of a turn, if there is a database, and retries until that succeeds. Logs
/// failures, and tells clients that connect meanwhile.
fn commit(
    rt: &HostRuntime,
    crowd: &mut Crowd<'_>,
    database: &mut Option<Box<Database<'_>>>,
    path: &str,
) -> Result<(), Ending> {
    let Some(database) = database else {
        return Ok(());
    };
    let mut failed = None;
    for _ in 0..u64::MAX {
        let before = failed;
        failed = database.commit().err();
        tell_outage(rt, path, before, failed);
        if failed.is_none() {
            if before.is_some() {
                crowd.welcome();
            }
            return Ok(());
        }
        crowd.turn_away();
        waited(rt, pause(rt))?;
    }
    Ok(())
}

/// Returns the value of an attempt; reports that the sockets can't be waited for if it failed.
pub(crate) fn waited<T>(rt: &HostRuntime, attempt: io::Result<T>) -> Result<T, Ending> {
    match attempt {
        Ok(value) => Ok(value),
        Err(error) => Err(failed_or(rt, NOT_WAITED, &error, MORE_FILES)),
    }
}

/// Logs which matches are left out, how many are served, and where.
pub(crate) fn tell_begin(rt: &HostRuntime, server: &Server<'_>) {
    tell_left_out(rt, server.left_out());
    let count = server.matches();
    match server.address().ok() {
        Some(address) => say(
            rt,
            format_args!("serving at http://{address}, matches: {count}"),
        ),
        None => say(rt, format_args!("serving, matches: {count}")),
    }
}

/// Logs which matches are left out, and why.
fn tell_left_out(rt: &HostRuntime, matches: &[LeftOut]) {
    for one in matches.iter() {
        one.why.tell(rt, one.name.as_str());
    }
}

/// Logs how many matches were made, how many have ended, and how many the operator has changed, if
/// any.
fn tell_counts(rt: &HostRuntime, made: u64, ended: u64, changed: u64) {
    if made > 0 {
        say(rt, format_args!("matches made: {made}"));
    }
    if ended > 0 {
        say(rt, format_args!("matches ended: {ended}"));
    }
    if changed > 0 {
        say(rt, format_args!("changes by `manage`: {changed}"));
    }
}

/// Logs lines, without anything that a terminal would take for commands.
fn say_lines(rt: &HostRuntime, lines: &str) {
    for line in lines.lines() {
        let shown = Printable(line);
        say(rt, format_args!("{shown}"));
    }
}
