//! The clients of a server: which are served in a turn, and which are closed.

use crate::clients::Client;
use crate::sockets::Sockets;
use crate::visitors::Visitor;
use bg_site::{Site, Step, Store};
use bg_stores::WATCH;
use bg_world::Keeper;
use mio::Token;
use std::alloc::AllocError;
use std::io;
use std::net::SocketAddr;

/// The clients of a server, and the sockets that it waits for.
#[derive(Drop)]
pub(crate) struct Crowd<'a> {
    pub(crate) rt: &'a HostRuntime,
    pub(crate) sockets: Sockets,
    /// The clients, by index; `None` where a slot is free.
    pub(crate) clients: Vec<Option<Box<Client>>>,
    /// The indices of clients that may have more to do.
    pub(crate) again: Vec<usize>,
    /// The indices of the clients that were heard in this turn, and are to be answered.
    heard: Vec<usize>,
    /// Whether connections may be waiting to be accepted.
    pub(crate) is_accepting: bool,
    /// The visitors who came while nothing could be saved.
    pub(crate) visitors: Vec<Visitor>,
}

impl<'a> Crowd<'a> {
    /// Creates a crowd without clients.
    pub(crate) fn none(rt: &'a HostRuntime, sockets: Sockets) -> Crowd<'a> {
        Crowd {
            rt,
            sockets,
            clients: Vec::new(rt.alloc()),
            again: Vec::new(rt.alloc()),
            heard: Vec::new(rt.alloc()),
            is_accepting: true,
            visitors: Vec::new(rt.alloc()),
        }
    }

    /// Returns the address that the server listens on.
    ///
    /// # Errors
    /// The reason why the system doesn't report it.
    pub(crate) fn address(&self) -> io::Result<SocketAddr> {
        self.sockets.listener.local_addr()
    }

    /// Waits until a socket is ready, or it is time for something else. Doesn't block if
    /// connections may be waiting to be accepted, since no new event reports them.
    ///
    /// # Errors
    /// The reason why the sockets can't be waited for.
    pub(crate) fn wait<K: Keeper + Drop, S: Store<K> + Drop>(
        &mut self,
        site: &Site<K, S>,
    ) -> io::Result<()> {
        let most = if !self.again.is_empty() || self.is_accepting {
            0
        } else if site.is_restless() {
            100
        } else {
            1000
        };
        self.sockets.wait(most)
    }

    /// Reads and answers what has arrived from the clients whose sockets are ready, and from those
    /// that had more to do. Sends nothing yet.
    ///
    /// # Errors
    /// `AllocError` if memory runs out, as for the other steps.
    pub(crate) fn hear_ready<K: Keeper + Drop, S: Store<K> + Drop>(
        &mut self,
        site: &mut Site<K, S>,
        now: u64,
    ) -> Result<(), AllocError> {
        self.gather_ready()?;
        for index in self.heard.iter() {
            if let Some(Some(client)) = self.clients.get_mut(*index) {
                client.hear(site, now);
            }
        }
        Ok(())
    }

    /// Collects the clients that are to be heard in this turn.
    fn gather_ready(&mut self) -> Result<(), AllocError> {
        self.heard.clear();
        self.heard.append(&mut self.again)?;
        for event in &self.sockets.events {
            let Token(token) = event.token();
            if token > 0 && event.token() != WATCH {
                self.heard.push(token - 1)?;
            }
        }
        Ok(())
    }

    /// Sends what is waiting to the clients that were heard.
    pub(crate) fn tell_heard<K: Keeper + Drop, S: Store<K> + Drop>(
        &mut self,
        site: &mut Site<K, S>,
        now: u64,
    ) -> Result<(), AllocError> {
        for at in 0..self.heard.len() {
            let Some(index) = self.heard.get(at).copied() else {
                return Ok(());
            };
            if let Some(Some(client)) = self.clients.get_mut(index) {
                let step = client.tell(site, now);
                self.note(site, index, step)?;
            }
        }
        Ok(())
    }

    /// Closes the clients heard in this turn whose answers may depend on what one of these matches
    /// hasn't saved.
    pub(crate) fn drop_answers<K: Keeper + Drop, S: Store<K> + Drop>(
        &mut self,
        site: &mut Site<K, S>,
        names: &[String],
    ) {
        for at in 0..self.heard.len() {
            let Some(index) = self.heard.get(at).copied() else {
                return;
            };
            let may_rest = match self.clients.get(index) {
                Some(Some(client)) => client.may_rest_on(site, names),
                _ => false,
            };
            if may_rest {
                self.close(site, index);
            }
        }
    }

    /// Closes a client that is gone; notes one that may have more to do.
    fn note<K: Keeper + Drop, S: Store<K> + Drop>(
        &mut self,
        site: &mut Site<K, S>,
        index: usize,
        step: Step,
    ) -> Result<(), AllocError> {
        match step {
            Step::Waits => Ok(()),
            Step::More => Ok(self.again.push(index)?),
            Step::Gone => {
                self.close(site, index);
                Ok(())
            }
        }
    }

    /// Closes a client.
    fn close<K: Keeper + Drop, S: Store<K> + Drop>(&mut self, site: &mut Site<K, S>, index: usize) {
        if let Some(mut client) = self.take_out(index) {
            client.leave(site);
            self.sockets.deregister(&mut client.stream);
        }
    }

    /// Takes a client out of its slot.
    fn take_out(&mut self, index: usize) -> Option<Box<Client>> {
        match self.clients.get_mut(index) {
            Some(slot) => slot.take(),
            None => None,
        }
    }

    /// Counts the connections, closes the clients that may not stay, and has connections accepted
    /// again.
    pub(crate) fn look<K: Keeper + Drop, S: Store<K> + Drop>(
        &mut self,
        site: &mut Site<K, S>,
        now: u64,
    ) {
        self.is_accepting = true;
        let mut connections = 0u64;
        for index in 0..self.clients.len() {
            if let Some(Some(client)) = self.clients.get_mut(index) {
                connections = connections.saturating_add(1);
                if !client.may_stay(site, now) {
                    self.close(site, index);
                }
            }
        }
        site.note_connections(connections);
    }

    /// Sends each WebSocket what its peer lacks.
    pub(crate) fn send_news<K: Keeper + Drop, S: Store<K> + Drop>(
        &mut self,
        site: &mut Site<K, S>,
        now: u64,
    ) -> Result<(), AllocError> {
        for index in 0..self.clients.len() {
            if let Some(Some(client)) = self.clients.get_mut(index) {
                let step = client.send(site, now);
                self.note(site, index, step)?;
            }
        }
        Ok(())
    }
}
