//! Limits for the clients of one address.

use bytes::Bytes;
use http::Request;
use std::alloc::{AllocError, Global};
use std::net::{IpAddr, Ipv6Addr};

/// The most WebSockets that an address can have at once.
pub const MOST_OF_ADDRESS: u32 = 64;

/// The most connections that an address can have at once, including those that have become
/// WebSockets.
pub const MOST_CONNECTIONS_OF_ADDRESS: u32 = 128;

/// The most matches that an address can make in a minute.
pub const MOST_MADE_BY_ADDRESS: u32 = 10;

/// The address of a client, in 16 bytes. For IPv6 it has only the first 8 bytes of the address and
/// then zeros, because one network can hand out all the others.
pub(crate) type Address = [u8; 16];

/// Returns the address of a client whose request a proxy has passed on: the last address in the
/// last `x-forwarded-for`. Returns `None` if no proxy has named one; then the client is on this
/// machine.
pub(crate) fn address_of(request: &Request<Bytes>) -> Option<Address> {
    let mut said = None;
    for value in request.headers().get_all("x-forwarded-for") {
        said = Some(address_in(value.as_bytes()));
    }
    said
}

/// Returns the last address in a list. All text that isn't an address counts as the same address.
fn address_in(list: &[u8]) -> Address {
    let text = str::from_utf8(list).unwrap_or("");
    let last = match text.rsplit_once(',') {
        Some((_, last)) => last,
        None => text,
    };
    match last.trim().parse::<IpAddr>() {
        Ok(address) => key_of(address),
        Err(_) => [0; 16],
    }
}

/// Returns the part of an address that is compared.
fn key_of(address: IpAddr) -> Address {
    match address.to_canonical() {
        IpAddr::V4(address) => address.to_ipv6_mapped().octets(),
        IpAddr::V6(address) => {
            let [one, two, three, four, ..] = address.segments();
            Ipv6Addr::new(one, two, three, four, 0, 0, 0, 0).octets()
        }
    }
}

/// What is known about an address.
#[derive(Clone, Copy)]
struct Known {
    address: Address,
    /// The number of its connections, and that of its WebSockets.
    connections: u32,
    sockets: u32,
    /// The minute in which it last made a match, and how many it made in that minute.
    minute: u64,
    made: u32,
}

impl Known {
    /// Returns how many matches it made in this minute.
    fn made_in(&self, minute: u64) -> u32 {
        if self.minute == minute { self.made } else { 0 }
    }

    /// Returns whether it can be forgotten.
    fn is_idle(&self, minute: u64) -> bool {
        self.connections == 0 && self.sockets == 0 && self.made_in(minute) == 0
    }
}

/// What is known about all addresses that have connections or WebSockets, or have made matches in
/// this minute.
#[derive(Drop)]
pub(crate) struct Addresses {
    known: Vec<Known>,
    minute: u64,
}

impl Addresses {
    /// Returns an empty table: nothing is known about any address.
    pub(crate) fn none(alloc: Global) -> Addresses {
        Addresses {
            known: Vec::new(alloc),
            minute: 0,
        }
    }

    /// Sets the current minute, and forgets the addresses that no longer matter.
    pub(crate) fn begin_minute(&mut self, minute: u64) {
        if minute != self.minute {
            self.minute = minute;
            self.known.retain(|known| !known.is_idle(minute));
        }
    }

    /// Returns whether a client may have one more WebSocket.
    pub(crate) fn may_come(&self, address: Option<Address>) -> bool {
        match self.find(address) {
            Some(known) => known.sockets < MOST_OF_ADDRESS,
            None => true,
        }
    }

    /// Returns whether a client may have one more connection.
    pub(crate) fn may_connect(&self, address: Option<Address>) -> bool {
        match self.find(address) {
            Some(known) => known.connections < MOST_CONNECTIONS_OF_ADDRESS,
            None => true,
        }
    }

    /// Counts one connection more of a client.
    pub(crate) fn connect(&mut self, address: Option<Address>) {
        if let Some(known) = self.find_or_add(address) {
            known.connections = known.connections.saturating_add(1);
        }
    }

    /// Counts one connection fewer of a client.
    pub(crate) fn disconnect(&mut self, address: Option<Address>) {
        if let Some(known) = self.find_or_add(address) {
            known.connections = known.connections.saturating_sub(1);
        }
    }

    /// Returns whether a client may make one more match.
    pub(crate) fn may_make(&self, address: Option<Address>) -> bool {
        match self.find(address) {
            Some(known) => known.made_in(self.minute) < MOST_MADE_BY_ADDRESS,
            None => true,
        }
    }

    /// Counts one WebSocket more of a client.
    pub(crate) fn come(&mut self, address: Option<Address>) {
        if let Some(known) = self.find_or_add(address) {
            known.sockets = known.sockets.saturating_add(1);
        }
    }

    /// Counts one WebSocket fewer of a client.
    pub(crate) fn leave(&mut self, address: Option<Address>) {
        if let Some(known) = self.find_or_add(address) {
            known.sockets = known.sockets.saturating_sub(1);
        }
    }

    /// Counts a match that a client has made.
    pub(crate) fn make(&mut self, address: Option<Address>) {
        let minute = self.minute;
        if let Some(known) = self.find_or_add(address) {
            known.made = known.made_in(minute).saturating_add(1);
            known.minute = minute;
        }
    }

    /// Returns what is known about an address; `None` if nothing is, or if there is no address.
    fn find(&self, address: Option<Address>) -> Option<Known> {
        let address = address?;
        for known in self.known.iter() {
            if known.address == address {
                return Some(*known);
            }
        }
        None
    }

    /// Returns what is known about an address, after adding it if it is new. Returns `None` if
    /// there is no address, or if memory runs out.
    fn find_or_add(&mut self, address: Option<Address>) -> Option<&mut Known> {
        let address = address?;
        let mut found = self.known.len();
        for (index, known) in self.known.iter().enumerate() {
            if known.address == address {
                found = index;
            }
        }
        if found == self.known.len() {
            self.add(address).ok()?;
        }
        self.known.get_mut(found)
    }

    /// Adds an address about which nothing is known.
    fn add(&mut self, address: Address) -> Result<(), AllocError> {
        self.known.push(Known {
            address,
            connections: 0,
            sockets: 0,
            minute: self.minute,
            made: 0,
        })?;
        Ok(())
    }
}
