//! What requests are answered, by their bytes.
use crate::keepers::{Shelf, ShelfKeeper};
use crate::lasting::lasting;
use crate::plays::check_play;
use bg_match::{Record, Terms};
use bg_site::{Found, Made, Seats, Site, Store, digest_of};
use bg_system::Names;
use http_server::{Config, Connection, Service};
use std::alloc::{AllocError, Global};
use std::hash::RandomState;
use std::io;
use std::process::Abort;

/// A store that makes matches over one shelf, each with the same secrets.
#[derive(Drop)]
pub(crate) struct OneShelf<'a> {
    alloc: Global,
    shelf: &'a Shelf,
}

impl<'a> OneShelf<'a> {
    fn made(&self, terms: Terms, names: Names) -> Result<Made<ShelfKeeper<'a>>, AllocError> {
        let name = String::from_str(self.alloc, "made")?;
        let x = String::from_str(self.alloc, "of x")?;
        let o = String::from_str(self.alloc, "of o")?;
        let found = Found {
            name,
            names,
            id: 7,
            terms,
            seats: Some(Seats {
                x: digest_of("of x"),
                o: digest_of("of o"),
            }),
            key: [3; 32],
            digest: Some(bg_dice::digest_of(&[3; 32])),
            keepers: self.shelf.keepers(),
            is_hidden: false,
            quiet_minutes: 0,
        };
        Ok(Made { found, x, o })
    }
}

impl<'a> Store<ShelfKeeper<'a>> for OneShelf<'a> {
    fn make(&mut self, terms: Terms, names: Names) -> Option<Made<ShelfKeeper<'a>>> {
        self.made(terms, names).ok()
    }

    fn load(&self, _name: &str) -> Option<Record> {
        self.shelf.record()
    }

    fn is_full(&self, _name: &str) -> bool {
        self.shelf.is_full()
    }
}

/// A store over a shelf, which lasts as long as the process.
pub(crate) fn lasting_store<'a>(
    rt: &(impl AllocGlobal + Abort),
    shelf: &'a Shelf,
) -> &'a mut OneShelf<'a> {
    let alloc = rt.alloc();
    lasting(rt, OneShelf { alloc, shelf })
}

/// A site without matches over a shelf, which lasts as long as the process.
pub(crate) fn lasting_site<'a>(
    rt: &(impl AllocGlobal + Abort),
    shelf: &'a Shelf,
) -> &'a mut Site<ShelfKeeper<'a>, OneShelf<'a>> {
    let alloc = rt.alloc();
    lasting(rt, Site::new(alloc, OneShelf { alloc, shelf }))
}

/// The bytes of the answer to a request, which last as long as the process.
pub(crate) fn answer_to<'a, S: Service>(
    rt: &(impl AllocGlobal + Abort),
    host: &HostRuntime,
    site: &mut S,
    request: &str,
) -> &'a str {
    let keys = RandomState::new(host).expect(rt, "random bytes");
    let connection = lasting(rt, Connection::new(rt.alloc(), keys, Config::default()));
    let mut answer = Vec::new(rt.alloc());
    let talked = talk(connection, site, request.as_bytes(), &mut answer);
    talked.expect(rt, "memory");
    str::from_utf8(answer.leak()).unwrap_or("no text")
}

/// The largest number of reads of a request, and of writes of its answer.
const MOST_TURNS: u32 = 100;

/// Hands in a request, and takes what is answered.
fn talk<S: Service>(
    connection: &mut Connection,
    site: &mut S,
    request: &[u8],
    answer: &mut Vec<u8>,
) -> io::Result<()> {
    let mut left = request;
    for _ in 0..MOST_TURNS {
        if connection.wants_read() && !left.is_empty() {
            let _ = connection.read_from(&mut left)?;
            connection.advance(site);
        }
        if connection.wants_write() {
            let _ = connection.write_to(answer)?;
        }
    }
    Ok(())
}

/// A request for a path.
fn get<'a>(rt: &(impl AllocGlobal + Abort), path: &str) -> &'a str {
    let text = format!(in rt.alloc(); "GET {path} HTTP/1.1\r\nhost: a\r\n\r\n");
    lasting(rt, text.expect(rt, "memory")).as_str()
}

/// A request that posts a body. Its head ends with a header whose value comes behind it.
fn post<'a>(rt: &(impl AllocGlobal + Abort), head: &str, value: &str, body: &str) -> &'a str {
    let length = body.len();
    let text = format!(in rt.alloc();
        "POST /matches{head}{value}\r\nhost: a\r\ncontent-length: {length}\r\n\r\n{body}"
    );
    lasting(rt, text.expect(rt, "memory")).as_str()
}

/// The heads of requests that order a match, that order one with a key, and that an action is
/// carried out, by who has a secret. `/matches` stands before them.
const ORDER: &str = " HTTP/1.1\r\ncontent-type: ";

const KEYED: &str = " HTTP/1.1\r\ncontent-type: application/json\r\nidempotency-key: ";

const ACTION: &str = "/made/actions HTTP/1.1\r\nauthorization: Bearer ";

/// A request for the WebSocket of whoever watches the match `made`.
const WATCH: &str =
    "GET /matches/made/live HTTP/1.1\r\nhost: a\r\nconnection: upgrade\r\nupgrade: websocket\r\nsec-websocket-version: 13\r\nsec-websocket-key: AAAAAAAAAAAAAAAAAAAAAA==\r\n\r\n";

/// The request that words stand for: "get PATH"; "x ACTION" and "o ACTION", where the player of X
/// or of O acts; "key KEY", where a match to one point is ordered with a key; "watch", where
/// somebody wants to watch; or the body of an order.
pub(crate) fn request_of<'a>(rt: &(impl AllocGlobal + Abort), words: &str) -> &'a str {
    let (word, rest) = words.split_once(' ').unwrap_or((words, ""));
    match word {
        "get" => get(rt, rest),
        "x" => post(rt, ACTION, "of x", rest),
        "o" => post(rt, ACTION, "of o", rest),
        "key" => post(rt, KEYED, rest, "{\"length\":1}"),
        "watch" => WATCH,
        _ => post(rt, ORDER, "application/json", words),
    }
}

/// Bodies, and the status and the words of the answer.
const ORDERS: &str = r#"{"length":3} > 201 Created > "match":"made"
{"length":99,"rules":2,"x":"A","o":""} > 201 Created > "x":"/play#of x","o":"/play#of o"
{"length":3,"name_x":"Anna"} > 400 Bad Request > "name_x" is not known: a match has "length", "rules", "x" and "o"
{"length":3,"X":"Anna"} > 400 Bad Request > "X" is not known
{"length":3,"":1} > 400 Bad Request > "" is not known
{"length":3,"z\"\u0007":1} > 400 Bad Request > "z\" " is not known
{"b":1,"a":2,"length":0} > 400 Bad Request > "a" is not known
{} > 400 Bad Request > "length" is a whole number from 1 to 99
{"length":100} > 400 Bad Request > "length" is a whole number from 1 to 99
{"length":0} > 400 Bad Request > "length" is a whole number from 1 to 99
{"length":-1} > 400 Bad Request > "length" is a whole number from 1 to 99
{"length":1.5} > 400 Bad Request > "length" is a whole number from 1 to 99
{"length":"3"} > 400 Bad Request > "length" is a whole number from 1 to 99
{"length":3,"rules":3} > 400 Bad Request > "rules" is 1 or 2
{"length":3,"rules":"2"} > 400 Bad Request > "rules" is 1 or 2
{"length":3,"x":7} > 400 Bad Request > "x" is a name between quotes
{"length":3,"o":null} > 400 Bad Request > "o" is a name between quotes
{"length":3,"x":"a\nb"} > 400 Bad Request > "x" is refused: a name has no control characters
{"length":3,"o":" b"} > 400 Bad Request > "o" is refused: a name neither begins nor ends with a blank
[3] > 400 Bad Request > the body is no JSON object like {"length":3}
{"length":3 > 400 Bad Request > the body is no JSON object like {"length":3}
"#;

#[test]
fn orders_of_matches(rt: HostRuntime) {
    for row in ORDERS.lines() {
        check_play(&rt, &rt, row);
    }
}

/// Keys of one order after the other, and how many matches there are then. Those of 16 bytes and
/// more are remembered.
const KEYS: &str = r#"key 0123456789abcdef > 201 Created > "match":"made"
matches 1
key 0123456789abcdef > 201 Created > "match":"made"
matches 1
key 0123456789abcdeg > 201 Created > "match":"made"
matches 2
key easy > 201 Created > "match":"made"
matches 3
key easy > 201 Created > "match":"made"
matches 4
key 0123456789abcde > 201 Created > "match":"made"
matches 5
key 0123456789abcde > 201 Created > "match":"made"
matches 6
key äöüäöüäö > 201 Created > "match":"made"
matches 7
key äöüäöüäö > 201 Created > "match":"made"
matches 7"#;

#[test]
fn an_order_that_is_repeated_makes_no_other_match(rt: HostRuntime) {
    check_play(&rt, &rt, KEYS);
}
