//! What is sent to whoever watches a match.

use crate::checks::check_row;
use crate::keepers::{Shelf, lasting_shelf};
use crate::lasting::lasting;
use crate::plays::check_line;
use crate::requests::{lasting_site, lasting_store};
use bg_site::{Peer, Site, Store};
use bg_world::Keeper;
use std::process::Abort;

/// X and O end the match, whoever of them has its first turn.
const END: &str = r#"x 2 resign normal > "re":
o 2 resign normal > "re":
x 3 accept > "re":
o 3 accept > "re":"#;

#[test]
fn a_state_that_could_not_be_read_is_sent_later(rt: HostRuntime) {
    check_unread(&rt, &rt);
}

fn check_unread(rt: &(impl AllocGlobal + Abort), host: &HostRuntime) {
    let shelf = lasting_shelf(rt);
    let (store, site) = (lasting_store(rt, shelf), lasting_site(rt, shelf));
    check_watched(rt, host, shelf, store, site);
}

/// Who watches a match that ends is sent its last state once that can be read.
fn check_watched<K: Keeper + Drop, S: Store<K> + Drop>(
    rt: &(impl AllocGlobal + Abort),
    host: &HostRuntime,
    shelf: &Shelf,
    store: &mut S,
    site: &mut Site<K, S>,
) {
    check_line(rt, host, shelf, store, site, "{\"length\":1} > 201 Created");
    check_line(
        rt,
        host,
        shelf,
        store,
        site,
        "watch > 101 Switching Protocols",
    );
    let mut peer = site.take_upgraded().expect(rt, "a peer");
    for line in END.lines() {
        check_line(rt, host, shelf, store, site, line);
    }
    check_row(rt, "the match has ended", site.ended() == 1);
    shelf.set_unread(true);
    check_frame(rt, site, &mut peer, "\"match\":\"made\"");
    check_frame(rt, site, &mut peer, "\"here\":[false,false,0]");
    check_frame(rt, site, &mut peer, NO_FRAME);
    shelf.set_unread(false);
    check_frame(rt, site, &mut peer, "\"number\":3");
    check_frame(rt, site, &mut peer, NO_FRAME);
}

/// Stands for the words of a frame where there is none.
const NO_FRAME: &str = "no frame";

/// The next frame that a peer lacks has these words, or there is none.
fn check_frame<K: Keeper + Drop, S: Store<K> + Drop>(
    rt: &(impl AllocGlobal + Abort),
    site: &mut Site<K, S>,
    peer: &mut Peer,
    words: &str,
) {
    let is_so = match lasting(rt, site.next_frame(peer).expect(rt, "memory")) {
        Some(frame) => text_in(frame.as_slice()).contains(words),
        None => words == NO_FRAME,
    };
    check_row(rt, words, is_so);
}

/// The text in a frame, which begins with a brace.
fn text_in(frame: &[u8]) -> &str {
    let start = frame.iter().position(|byte| *byte == b'{').unwrap_or(0);
    str::from_utf8(&frame[start..]).unwrap_or("")
}
