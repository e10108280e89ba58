//! The clients of connections.

use crate::addresses::{Address, address_of};
use crate::sites::Site;
use crate::stores::Store;
use bg_world::Keeper;
use bytes::Bytes;
use http::Request;

/// The client of a connection: the address that its latest admitted request came from, if a proxy
/// has named one.
#[derive(Clone, Copy)]
pub struct Caller {
    address: Option<Address>,
}

impl Caller {
    /// The client of a connection for which no address has been named yet.
    pub const UNKNOWN: Caller = Caller { address: None };
}

impl<K: Keeper + Drop, S: Store<K> + Drop> Site<K, S> {
    /// Sets the client of the connection whose requests are handed in next.
    pub fn begin_requests(&mut self, caller: Caller) {
        self.caller = caller;
    }

    /// Returns the client of the connection after these requests.
    pub fn caller(&self) -> Caller {
        self.caller
    }

    /// Notes that a client's connection has ended.
    pub fn end_connection(&mut self, caller: Caller) {
        self.addresses.disconnect(caller.address);
    }

    /// Returns whether a request is admitted. If its address differs from that of the current
    /// connection, the connection counts for the new address from then on. The request is refused
    /// if the new address already has too many connections.
    pub(crate) fn admit(&mut self, request: &Request<Bytes>) -> bool {
        let address = address_of(request);
        if address == self.caller.address {
            return true;
        }
        if !self.addresses.may_connect(address) {
            return false;
        }
        self.addresses.disconnect(self.caller.address);
        self.addresses.connect(address);
        self.caller = Caller { address };
        true
    }
}
