//! The server: its matches, its listener and its clients.

use crate::crowds::Crowd;
use crate::folders::FolderStore;
use crate::served_keepers::ServedKeeper;
use crate::sockets::Sockets;
use crate::turns::Turns;
use crate::unserved::{LeftOut, Unserved};
use bg_processes::FolderLock;
use bg_requests::is_name;
use bg_site::{Site, Store};
use bg_world::Keeper;
use std::alloc::Global;
use std::io;
use std::net::SocketAddr;

/// The server of a folder. It is large, so it is boxed. Each function that uses the site of these
/// keepers and this store takes seconds to check. So whatever needs no more than a site is a
/// function over any site.
#[derive(Drop)]
pub struct Server<'a> {
    pub(crate) site: Site<ServedKeeper<'a>, FolderStore<'a>>,
    /// The matches in the folder that can't be served.
    left_out: Vec<LeftOut>,
    /// The locks of folders over which other processes might play.
    locks: Vec<FolderLock>,
    pub(crate) crowd: Crowd<'a>,
    pub(crate) turns: Turns<'a>,
    /// The number of the operator's changes that were taken in, but not reported yet.
    pub(crate) changed: u64,
    /// The matches with changes that were taken in, but may not be saved yet.
    pub(crate) taken: Vec<String>,
    /// The number of ended matches that were reported.
    ended: u64,
}

impl<'a> Server<'a> {
    /// Opens the matches of a store, and serves them at these sockets. A match without an action
    /// for `idle_hours` is listed as idle, unless that is 0. Keeps a log of requests if `keeps_log`
    /// says so.
    ///
    /// # Errors
    /// The reason why the folder can't be read.
    pub(crate) fn begin_over(
        rt: &'a HostRuntime,
        sockets: Sockets,
        store: FolderStore<'a>,
        idle_hours: u32,
        keeps_log: bool,
    ) -> io::Result<Box<Server<'a>>> {
        let turns = Turns::begin(rt)?;
        let server = Server {
            site: site_over(rt.alloc(), store, idle_hours, keeps_log),
            left_out: Vec::new(rt.alloc()),
            locks: Vec::new(rt.alloc()),
            crowd: Crowd::none(rt, sockets),
            turns,
            changed: 0,
            taken: Vec::new(rt.alloc()),
            ended: 0,
        };
        let mut server = Box::new(rt.alloc(), server)?;
        server.open_all()?;
        Ok(server)
    }

    /// Waits until there is something to do, does it, and answers the clients. Returns how many
    /// matches were made. Saves must be durable before that, as they are without a database.
    ///
    /// # Errors
    /// The reason why the sockets can't be waited for; `OutOfMemory` if memory runs out.
    pub fn turn(&mut self) -> io::Result<u64> {
        let now = self.hear()?;
        let made = self.tell(now)?;
        self.forget_changes();
        Ok(made)
    }

    /// Waits until there is something to do, and does it, but sends nothing. Returns the second.
    pub(crate) fn hear(&mut self) -> io::Result<u64> {
        self.turns.hear(&mut self.crowd, &mut self.site)
    }

    /// Sends the results of the turn to the clients, once its saves are durable. Returns how many
    /// matches were made.
    pub(crate) fn tell(&mut self, now: u64) -> io::Result<u64> {
        let is_second = self.turns.begins_second(now);
        if is_second {
            self.take_changes();
        }
        Ok(
            self.turns
                .tell(&mut self.crowd, &mut self.site, now, is_second)?,
        )
    }

    /// Returns the store.
    pub(crate) fn store(&self) -> &FolderStore<'a> {
        self.site.store()
    }

    /// Opens the matches of the folder. Skips entries that aren't matches, and leaves out matches
    /// that can't be served.
    fn open_all(&mut self) -> io::Result<()> {
        for entry in self.store().entries()? {
            let name = entry.name;
            if is_name(name.as_str()) {
                if let Some(why) = self.open(name.as_str())? {
                    self.left_out.push(LeftOut { name, why })?;
                }
            }
        }
        Ok(())
    }

    /// Opens the match of a folder, if it has one, and keeps the lock of the folder. Returns why it
    /// can't be served, if it can't.
    pub(crate) fn open(&mut self, name: &str) -> io::Result<Option<Unserved>> {
        let (found, lock) = match self.store().find(name) {
            Ok(Some(found)) => found,
            Ok(None) => return Ok(None),
            Err(why) => return Ok(Some(why)),
        };
        if let Err(why) = self.store().check_saves(name, found.id, found.terms) {
            return Ok(Some(why));
        }
        if !self.site.open(Box::into_inner(found)) {
            return Ok(Some(Unserved::NoRoom));
        }
        if let Some(lock) = lock {
            self.locks.push(lock)?;
        }
        Ok(None)
    }

    /// Returns how many of the operator's changes were taken in since the last call.
    pub fn changed(&mut self) -> u64 {
        let changed = self.changed;
        self.changed = 0;
        changed
    }

    /// Returns how many matches have ended since the last call, up to the end of the last turn.
    pub fn ended(&mut self) -> u64 {
        let fresh = self.turns.ended.saturating_sub(self.ended);
        self.ended = self.turns.ended;
        fresh
    }

    /// Returns the address that the server listens on.
    ///
    /// # Errors
    /// The reason why the system doesn't report it.
    pub fn address(&self) -> io::Result<SocketAddr> {
        self.crowd.address()
    }

    /// Returns the number of matches.
    pub fn matches(&self) -> usize {
        self.site.len()
    }

    /// Returns the matches that are not served, because they can't be read, another process plays
    /// over them, or there are too many.
    pub(crate) fn left_out(&self) -> &[LeftOut] {
        &self.left_out
    }
}

/// Returns the site of the matches of a store, without any of them so far. A match without an
/// action for `idle_hours` is listed as idle, unless that is 0. Keeps a log of requests if
/// `keeps_log` says so.
fn site_over<K: Keeper + Drop, S: Store<K> + Drop>(
    alloc: Global,
    store: S,
    idle_hours: u32,
    keeps_log: bool,
) -> Site<K, S> {
    let mut site = Site::new(alloc, store);
    site.set_idle(u64::from(idle_hours) * 60);
    if keeps_log {
        site.keep_log();
    }
    site
}
