//! Requests to a member, and its answers, as bytes.

use crate::checks::check;
use crate::helpers::lasting::lasting;
use bg_etcd::{Exchange, Fault};
use std::alloc::Global;
use std::process::Abort;

/// An answer in two chunks, with a trailer, as etcd gives one to what it refuses.
const CHUNKED: &[u8] = b"HTTP/1.1 400 Bad Request\r\nTrailer: Grpc-Trailer-Content-Type\r\n\
    Transfer-Encoding: chunked\r\n\r\n3\r\n{\"e\r\n4\r\n\":1}\r\n0\r\n\
    Grpc-Trailer-Content-Type: application/grpc\r\n\r\n";

/// What a watch sends: an answer without an end.
const WATCH: &[u8] = b"HTTP/1.1 200 OK\r\nTransfer-Encoding: chunked\r\n\r\n\
    4\r\none\n\r\n6\r\ntwo\nth\r\n";

/// What is sent to ask for a range.
const REQUEST: &str = "POST /v3/kv/range HTTP/1.1\r\nhost: 127.0.0.1:2379\r\n\
    content-type: application/json\r\ncontent-length: 2\r\n\r\n{}";

fn try_asked(alloc: Global, host: &str, path: &str, text: &str) -> Result<Exchange, Fault> {
    let mut exchange = Exchange::new(alloc);
    exchange.ask(host, path, text)?;
    Ok(exchange)
}

/// An exchange that has asked this. It lasts as long as the process.
fn asked<'a>(
    rt: &(impl AllocGlobal + Abort),
    host: &str,
    path: &str,
    text: &str,
) -> &'a mut Exchange {
    lasting(rt, try_asked(rt.alloc(), host, path, text).expect(rt, path))
}

/// Whether all that is sent is this.
fn sends(alloc: Global, exchange: &mut Exchange, wanted: &str) -> bool {
    let mut sent = Vec::new(alloc);
    let count = exchange.write_to(&mut sent).ok();
    count == Some(sent.len()) && sent.as_slice() == wanted.as_bytes() && !exchange.wants_write()
}

/// Whether bytes are read one by one, with no whole answer before the last.
fn reads(exchange: &mut Exchange, bytes: &[u8]) -> bool {
    for byte in bytes.iter() {
        let is_whole = exchange.answer().is_some();
        if is_whole || exchange.read_from(&mut [*byte].as_slice()).is_err() {
            return false;
        }
    }
    true
}

#[test]
fn an_answer_is_read_byte_by_byte(rt: HostRuntime) {
    check_bytes(&rt);
}

/// A request is sent, and answered in two chunks.
fn check_bytes(rt: &(impl AllocGlobal + Abort)) {
    let exchange = asked(rt, "127.0.0.1:2379", "/v3/kv/range", "{}");
    check(rt, sends(rt.alloc(), exchange, REQUEST), "the request");
    check(rt, reads(exchange, CHUNKED), "not whole before its end");
    let answer = exchange.answer();
    let wanted = Some((400, b"{\"e\":1}".as_slice()));
    check(rt, answer == wanted, "the answer");
    check(rt, exchange.is_idle(), "the next request may follow");
}

#[test]
fn an_answer_that_is_cut_is_none(rt: HostRuntime) {
    let exchange = asked(&rt, "a", "/", "");
    check(&rt, is_cut(exchange), "cut");
}

/// Whether an answer that ends after forty bytes is none.
fn is_cut(exchange: &mut Exchange) -> bool {
    let begun = exchange.read_from(&mut CHUNKED.get(..40).unwrap_or_default());
    let read = exchange.read_from(&mut b"".as_slice());
    begun.is_ok() && matches!(read, Err(Fault::Away(_)))
}

/// Whether there is this line next.
fn is_next(exchange: &mut Exchange, line: &str) -> bool {
    match exchange.take_line() {
        Ok(Some(found)) => found.as_slice() == line.as_bytes(),
        _ => false,
    }
}

#[test]
fn a_watch_gives_lines(rt: HostRuntime) {
    check_watch(&rt);
}

/// There are two lines, and the watch goes on.
fn check_watch(rt: &(impl AllocGlobal + Abort)) {
    let exchange = asked(rt, "a", "/v3/watch", "{}");
    check(rt, exchange.read_from(&mut WATCH).is_ok(), "the bytes");
    for line in ["one", "two"] {
        check(rt, is_next(exchange, line), line);
    }
    let goes_on = matches!(exchange.take_line(), Ok(None)) && exchange.check_goes_on().is_ok();
    check(rt, goes_on, "the third is not whole");
}
