//! The turns of a server that shares its matches with others.

use crate::cluster_words::{not_joined, tell_long, tell_lost, tell_trouble, tell_watch, tell_well};
use crate::clusters::Cluster;
use crate::crowds::Crowd;
use crate::folders::FolderStore;
use crate::joining::{Unjoined, join};
use crate::pauses::pause;
use crate::serve::{not_begun, tell_begin, tell_turn, waited};
use crate::servers::Server;
use crate::settling::Unusable;
use crate::sockets::Sockets;
use bg_options::ServeOptions;
use bg_processes::Failures;
use bg_reports::Ending;
use bg_stores::Trouble;

/// A store, and what was logged about it.
#[derive(Drop)]
struct Shared<'a> {
    rt: &'a HostRuntime,
    cluster: Box<Cluster<'a>>,
    /// The option that names it.
    words: &'a str,
    is_away: bool,
    is_untold: bool,
}

/// Serves the matches of a store until the process is ended. The folder is a copy of the store.
pub(crate) fn run_shared<'a>(
    rt: &'a HostRuntime,
    options: &ServeOptions<'a>,
    words: &'a str,
    failures: &'a Failures,
) -> Result<Ending, Ending> {
    let sockets = match Sockets::bind(rt, options.port) {
        Ok(sockets) => sockets,
        Err(error) => {
            return Err(not_begun(rt, options.port, words, Unusable::File(error)));
        }
    };
    match share(rt, options, words, failures, sockets) {
        Ok(ending) => ending,
        Err(why) => Err(not_joined(rt, options.folder, words, &why)),
    }
}

/// Joins the servers that share the matches of a store, and serves the matches at these sockets
/// until the process is ended.
///
/// # Errors
/// The reason why the server can't join the others.
fn share<'a>(
    rt: &'a HostRuntime,
    options: &ServeOptions<'a>,
    words: &'a str,
    failures: &'a Failures,
    sockets: Sockets,
) -> Result<Result<Ending, Ending>, Unjoined> {
    let mut store = FolderStore::new(rt, options.folder, failures)?;
    let cluster = join(rt, options.folder, words, &mut store)?;
    let mut server = Server::begin_over(
        rt,
        sockets,
        store,
        options.idle_hours,
        options.tells_requests,
    )?;
    let mut shared = Shared {
        rt,
        cluster,
        words,
        is_away: false,
        is_untold: false,
    };
    Ok(go_on(&mut shared, &mut server))
}

/// Commits what the operator changed while no server was running, before any client is served, and
/// runs the turns of a server. The saves of a turn are in the store before clients are told of
/// them. What changes while clients are told is put there too.
fn go_on(shared: &mut Shared<'_>, server: &mut Server<'_>) -> Result<Ending, Ending> {
    server.take_changes();
    shared.commit(server)?;
    server.forget_changes();
    tell_begin(shared.rt, server);
    for _ in 0..u64::MAX {
        let now = waited(shared.rt, server.hear())?;
        shared.commit(server)?;
        shared.take_news(server, now)?;
        let made = waited(shared.rt, server.tell(now))?;
        shared.commit(server)?;
        shared.cluster.follow(now);
        tell_turn(shared.rt, server, made);
        shared.tell_long();
    }
    Ok(Ending::Served)
}

impl<'a> Shared<'a> {
    /// Puts all saves into the store. If another server changed a match first, the match continues
    /// from what that server saved. Clients with answers that may depend on anything else are
    /// closed: they reconnect, and send again.
    fn commit(&mut self, server: &mut Server<'_>) -> Result<(), Ending> {
        for _ in 0..u64::MAX {
            let lost = self.committed(&mut server.crowd)?;
            if lost.is_empty() {
                break;
            }
            server.crowd.drop_answers(&mut server.site, &lost);
            server.renew_all(&lost);
            tell_lost(self.rt, lost.len());
        }
        Ok(())
    }

    /// Puts the saves into the store, and retries until that succeeds. Clients that connect
    /// meanwhile are told so. Returns the matches that another server changed first.
    fn committed(&mut self, crowd: &mut Crowd<'_>) -> Result<Vec<String>, Ending> {
        let mut has_failed = false;
        for _ in 0..u64::MAX {
            if let Some(lost) = self.try_commit()? {
                if has_failed {
                    crowd.welcome();
                }
                self.tell_well();
                return Ok(lost);
            }
            has_failed = true;
            crowd.turn_away();
        }
        Ok(Vec::new(self.rt.alloc()))
    }

    /// Tries once to put the saves into the store. Logs why that fails, and pauses; returns `None`
    /// if the saves aren't put yet.
    fn try_commit(&mut self) -> Result<Option<Vec<String>>, Ending> {
        match self.cluster.commit() {
            Ok(lost) => return Ok(Some(lost)),
            Err(Trouble::NotYet) => {}
            Err(trouble) => {
                self.tell_trouble(&trouble);
                waited(self.rt, pause(self.rt))?;
            }
        }
        Ok(None)
    }

    /// Applies what other servers have changed in the matches.
    fn take_news(&mut self, server: &mut Server<'_>, now: u64) -> Result<(), Ending> {
        self.tell_watch(now);
        match self.cluster.news(server.crowd.sockets.poll.registry(), now) {
            Ok(names) if names.is_empty() => Ok(()),
            Ok(names) => {
                server.renew_all(&names);
                self.commit(server)
            }
            Err(trouble) => {
                self.tell_trouble(&trouble);
                Ok(())
            }
        }
    }

    /// Logs whether watches report what other servers do, if that has changed.
    fn tell_watch(&mut self, now: u64) {
        let is_untold = !self.is_away && self.cluster.is_untold(now);
        if is_untold != self.is_untold {
            self.is_untold = is_untold;
            tell_watch(self.rt, self.words, is_untold);
        }
    }

    /// Logs why the store can't be used, unless that was logged already.
    fn tell_trouble(&mut self, trouble: &Trouble) {
        if !self.is_away {
            self.is_away = true;
            tell_trouble(self.rt, self.words, trouble);
        }
    }

    /// Logs that the store can be used again, if it could not.
    fn tell_well(&mut self) {
        if self.is_away && self.cluster.is_well() {
            self.is_away = false;
            tell_well(self.rt, self.words);
        }
    }

    /// Logs which matches come near the limit of the store, or can't go on.
    fn tell_long(&self) {
        let Some(long) = &self.cluster.saves.long else {
            return;
        };
        for _ in 0..u64::MAX {
            let Some((name, is_full)) = long.next_untold() else {
                return;
            };
            tell_long(self.rt, name.as_str(), is_full);
        }
    }
}
