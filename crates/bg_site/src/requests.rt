//! The parts of requests.

use bytes::Bytes;
use http::{Request, Version};

/// Returns the value of a header as text, if it has one that is UTF-8.
pub(crate) fn header_of<'a>(request: &'a Request<Bytes>, name: &str) -> Option<&'a str> {
    let value = request.headers().get(name)?;
    match str::from_utf8(value.as_bytes()) {
        Ok(text) => Some(text),
        Err(_) => None,
    }
}

/// Returns whether the header says, in small or capital letters, that the body is JSON. A page of
/// another site can't send that without asking this server first.
pub(crate) fn is_json(request: &Request<Bytes>) -> bool {
    let kind = header_of(request, "content-type").unwrap_or("");
    let media = match kind.split_once(';') {
        Some((media, _)) => media,
        None => kind,
    };
    media
        .trim_ascii_end()
        .eq_ignore_ascii_case("application/json")
}

/// Returns whether a request comes from a page of this server, or from no browser, as its `origin`
/// says.
pub(crate) fn is_own_origin(request: &Request<Bytes>) -> bool {
    if request.headers().get("origin").is_none() {
        return true;
    }
    let (Some(origin), Some(host)) = (header_of(request, "origin"), header_of(request, "host"))
    else {
        return false;
    };
    match origin.split_once("://") {
        Some((_, own)) => own == host,
        None => false,
    }
}

/// Returns the secret in `authorization: Bearer SECRET`. That word may have small or capital
/// letters.
pub(crate) fn bearer_of(request: &Request<Bytes>) -> Option<&str> {
    let (scheme, secret) = header_of(request, "authorization")?.split_once(' ')?;
    if scheme.eq_ignore_ascii_case("bearer") {
        Some(secret)
    } else {
        None
    }
}

/// Returns the key in `idempotency-key: KEY`. A repeat of the request has the same key.
pub(crate) fn key_of(request: &Request<Bytes>) -> Option<&str> {
    header_of(request, "idempotency-key")
}

/// Returns whether a request asks for a WebSocket of the supported version.
pub(crate) fn asks_for_socket(request: &Request<Bytes>) -> bool {
    let upgrade = header_of(request, "upgrade").unwrap_or("");
    let version = header_of(request, "sec-websocket-version").unwrap_or("");
    request.method().as_str() == "GET"
        && may_upgrade(request)
        && upgrade.eq_ignore_ascii_case("websocket")
        && version == "13"
}

/// Returns whether the connection of a request can become one of another protocol: it has HTTP/1.1,
/// and a `connection` header lists `upgrade`. A proxy may have left that header out.
fn may_upgrade(request: &Request<Bytes>) -> bool {
    if request.version() != Version::HTTP_11 {
        return false;
    }
    for value in request.headers().get_all("connection") {
        if lists_upgrade(value.as_bytes()) {
            return true;
        }
    }
    false
}

/// Returns whether one of the words between commas is `upgrade`.
fn lists_upgrade(list: &[u8]) -> bool {
    for word in str::from_utf8(list).unwrap_or("").split(',') {
        if word.trim_ascii().eq_ignore_ascii_case("upgrade") {
            return true;
        }
    }
    false
}

/// Returns the value of a query parameter, as it is encoded.
pub(crate) fn query_part<'a>(query: Option<&'a str>, name: &str) -> Option<&'a str> {
    for part in query?.split('&') {
        if let Some((key, value)) = part.split_once('=') {
            if key == name {
                return Some(value);
            }
        }
    }
    None
}
