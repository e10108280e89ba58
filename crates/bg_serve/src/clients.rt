//! A client: a connection that starts with HTTP, and may become a WebSocket.

use crate::exchanges::{explain, new_connection, read_http, write_http};
use crate::limits::{MOST_READS, MOST_WRITES};
use bg_site::{Caller, Channel, Peer, Site, Step, Store};
use bg_world::Keeper;
use http_server::{Connection, State};
use mio::net::TcpStream;
use std::alloc::{AllocError, Global};
use std::hash::RandomState;

/// A client of the server.
#[derive(Drop)]
pub(crate) struct Client {
    alloc: Global,
    keys: RandomState,
    pub(crate) stream: TcpStream,
    /// `None` once it is a WebSocket.
    http: Option<Box<Connection>>,
    /// The address that the connection counts toward, if known.
    caller: Caller,
    /// The peer, once its request for a WebSocket was granted.
    upgraded: Option<Peer>,
    pub(crate) channel: Option<Channel>,
    /// The state after it was last heard.
    pub(crate) state: Step,
    /// Whether it is to be closed once its pending output is sent.
    pub(crate) is_leaving: bool,
    /// Whether a request of it was refused before all of it was read.
    pub(crate) is_refused: bool,
    /// Whether it has its last answer, and the rest of its refused request is dropped.
    pub(crate) is_lingering: bool,
    /// The second in which it connected, was last answered, or became a WebSocket.
    pub(crate) since: u64,
    /// The second in which something was last sent, or nothing was waiting.
    pub(crate) sent: u64,
    /// The second in which something last arrived from it.
    pub(crate) heard: u64,
    /// The second in which it was last pinged.
    pub(crate) asked: u64,
}

impl Client {
    /// Returns the client of a new connection, from which nothing has been read.
    ///
    /// # Errors
    /// `AllocError` if memory runs out.
    pub(crate) fn new(
        alloc: Global,
        keys: RandomState,
        stream: TcpStream,
        now: u64,
    ) -> Result<Box<Client>, AllocError> {
        let client = Client {
            alloc,
            keys,
            stream,
            http: Some(new_connection(alloc, keys)?),
            caller: Caller::UNKNOWN,
            upgraded: None,
            channel: None,
            state: Step::Waits,
            is_leaving: false,
            is_refused: false,
            is_lingering: false,
            since: now,
            sent: now,
            heard: now,
            asked: now,
        };
        Ok(Box::new(alloc, client)?)
    }

    /// Returns whether a pending answer may depend on one of these matches. For HTTP, any pending
    /// answer may, since it isn't known which match it is about.
    pub(crate) fn may_rest_on<K: Keeper + Drop, S: Store<K> + Drop>(
        &self,
        site: &Site<K, S>,
        names: &[String],
    ) -> bool {
        match &self.channel {
            Some(channel) => match site.name_of(channel.peer()) {
                Some(name) => names.iter().any(|other| other.as_str() == name),
                None => false,
            },
            None => self.http.as_ref().is_some_and(|http| http.wants_write()),
        }
    }

    /// Tells the site that the client is gone.
    pub(crate) fn leave<K: Keeper + Drop, S: Store<K> + Drop>(&self, site: &mut Site<K, S>) {
        if let Some(channel) = &self.channel {
            site.end_socket(channel.peer());
        }
        site.end_connection(self.caller);
    }

    /// Reads what has arrived, and answers it. Sends nothing yet: the saves are made durable first.
    pub(crate) fn hear<K: Keeper + Drop, S: Store<K> + Drop>(
        &mut self,
        site: &mut Site<K, S>,
        now: u64,
    ) {
        self.state = match &self.channel {
            _ if self.state == Step::Gone => Step::Gone,
            Some(_) => self.hear_channel(site, now),
            None if self.is_lingering => self.drop_input(),
            None => self.hear_http(site),
        };
    }

    /// Sends what is waiting. The client may become a WebSocket then.
    pub(crate) fn tell<K: Keeper + Drop, S: Store<K> + Drop>(
        &mut self,
        site: &mut Site<K, S>,
        now: u64,
    ) -> Step {
        if self.state == Step::Gone && !self.is_leaving {
            return Step::Gone;
        }
        match &self.channel {
            Some(_) => self.tell_channel(site, now),
            None if self.is_lingering => self.state,
            None => self.tell_http(site, now),
        }
    }

    /// Reads requests, and answers them. Notes whose connection it is, and the peer if the site has
    /// granted a WebSocket.
    fn hear_http<K: Keeper + Drop, S: Store<K> + Drop>(&mut self, site: &mut Site<K, S>) -> Step {
        let Some(connection) = &mut self.http else {
            return Step::Gone;
        };
        for _ in 0..MOST_READS {
            let Some(has_read) = read_http(connection, &mut self.stream) else {
                return Step::Gone;
            };
            site.begin_requests(self.caller);
            connection.advance(site);
            self.caller = site.caller();
            if self.upgraded.is_none() && connection.state() == State::Upgraded {
                self.upgraded = site.take_upgraded();
            }
            self.is_refused |= explain(self.alloc, self.keys, connection);
            if !connection.wants_read() {
                break;
            }
            if !has_read {
                return Step::Waits;
            }
        }
        Step::More
    }

    /// Sends answers. The client may become a WebSocket then.
    fn tell_http<K: Keeper + Drop, S: Store<K> + Drop>(
        &mut self,
        site: &mut Site<K, S>,
        now: u64,
    ) -> Step {
        match self.send_answers(now) {
            Some(step) => step,
            None => self.end_http(site, now),
        }
    }

    /// Sends answers. Returns `None` if the connection has no more to send or to read.
    fn send_answers(&mut self, now: u64) -> Option<Step> {
        let Some(connection) = &mut self.http else {
            return None;
        };
        for _ in 0..MOST_WRITES {
            if connection.is_done() {
                return None;
            }
            match write_http(connection, &mut self.stream) {
                None => return Some(Step::Gone),
                Some(false) if connection.wants_write() => return Some(Step::Waits),
                Some(false) => return Some(self.state),
                Some(true) => self.since = now,
            }
        }
        Some(Step::More)
    }

    /// Turns the client into a WebSocket if that was granted. Otherwise it is gone, unless the rest of
    /// a refused request is still to be dropped.
    fn end_http<K: Keeper + Drop, S: Store<K> + Drop>(
        &mut self,
        site: &mut Site<K, S>,
        now: u64,
    ) -> Step {
        let Some(peer) = self.upgraded.take() else {
            return self.linger();
        };
        let Some(connection) = self.http.take() else {
            return Step::Gone;
        };
        site.begin_socket(&peer);
        self.begin_channel(Box::into_inner(connection), peer, now);
        let _ = self.send(site, now);
        Step::More
    }

    /// Turns the connection into a WebSocket.
    fn begin_channel(&mut self, connection: Connection, peer: Peer, now: u64) {
        let (input, output) = connection.into_buffers();
        self.channel = Some(Channel::new(self.alloc, input, output, peer));
        self.since = now;
        self.sent = now;
        self.heard = now;
        self.asked = now;
    }
}
