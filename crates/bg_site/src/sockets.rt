//! Requests for a WebSocket.

use crate::addresses::address_of;
use crate::peers::Peer;
use crate::requests::{asks_for_socket, is_own_origin};
use crate::sites::Site;
use crate::stores::Store;
use bg_pages::refuse;
use bg_world::Keeper;
use bytes::Bytes;
use http::header::{
    CONNECTION, HeaderValue, SEC_WEBSOCKET_ACCEPT, SEC_WEBSOCKET_KEY, SEC_WEBSOCKET_VERSION,
    UPGRADE,
};
use http::{Request, StatusCode};
use http_server::Response;
use std::alloc::{AllocError, Global};
use websocket::handshake::server::accept_key;

impl<K: Keeper + Drop, S: Store<K> + Drop> Site<K, S> {
    /// Upgrades a connection to a WebSocket, for a watcher of a match, or for a peer that has yet
    /// to send the secret of its seat.
    pub(crate) fn upgrade(
        &mut self,
        request: &Request<Bytes>,
        place: Option<usize>,
        response: &mut Response,
    ) -> Result<(), AllocError> {
        if !is_own_origin(request) {
            return refuse(
                response,
                StatusCode::FORBIDDEN,
                "this comes from a page of another site\n",
            );
        }
        if !asks_for_socket(request) {
            return refuse_others(response);
        }
        let Some(key) = key_for(request) else {
            return refuse(
                response,
                StatusCode::BAD_REQUEST,
                "the key of the WebSocket is invalid\n",
            );
        };
        let address = address_of(request);
        if !self.addresses.may_come(address) {
            return refuse(
                response,
                StatusCode::TOO_MANY_REQUESTS,
                "too many sockets of one address\n",
            );
        }
        give_socket(self.alloc, &key, response)?;
        self.upgraded = Some(Peer {
            address,
            ..peer_at(place)
        });
        Ok(())
    }
}

/// Returns a watcher of a match, or a peer that has yet to send the secret of its seat.
fn peer_at(place: Option<usize>) -> Peer {
    match place {
        Some(index) => Peer::watching(index),
        None => Peer::unknown(),
    }
}

/// Returns the accept key that answers the key of a request, if the request has a valid one.
fn key_for(request: &Request<Bytes>) -> Option<[u8; 28]> {
    let value = request.headers().get(SEC_WEBSOCKET_KEY)?;
    match accept_key(value.as_bytes()) {
        Ok(key) => Some(key),
        Err(_) => None,
    }
}

/// Answers that this path is only for WebSockets.
fn refuse_others(response: &mut Response) -> Result<(), AllocError> {
    response.add_header(UPGRADE, HeaderValue::from_static("websocket"))?;
    response.add_header(SEC_WEBSOCKET_VERSION, HeaderValue::from_static("13"))?;
    refuse(
        response,
        StatusCode::UPGRADE_REQUIRED,
        "this address needs a WebSocket\n",
    )
}

/// Answers that the connection is a WebSocket from now on.
fn give_socket(alloc: Global, key: &[u8], response: &mut Response) -> Result<(), AllocError> {
    let Ok(value) = HeaderValue::from_bytes(alloc, key) else {
        return Err(AllocError);
    };
    response.status = StatusCode::SWITCHING_PROTOCOLS;
    response.add_header(CONNECTION, HeaderValue::from_static("upgrade"))?;
    response.add_header(UPGRADE, HeaderValue::from_static("websocket"))?;
    response.add_header(SEC_WEBSOCKET_ACCEPT, value)
}
