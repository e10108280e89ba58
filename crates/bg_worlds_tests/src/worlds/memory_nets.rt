//! The link in memory: what it hands over and counts, and which of its sends fail.
use crate::checks::{check_number, check_row};
use crate::fronts::is_front;
use crate::worlds::lines::has_line;
use crate::worlds::memory_worlds::{
    MemoryWorld, check_plays, happen, played, record_of, sent_to, step,
};
use bg_world::{Event, Outcome};
use std::process::Abort;

/// The number that names no call and no datagram.
pub(crate) const LAST: u32 = 4294967295;

/// In `datagrams_are_handed_over` each party is handed its own datagrams, by their order, and as
/// often as it asks.
///
/// In `garbled_pick` the last pick gives what is no packet, also where nothing was sent.
///
/// In `counts_of_datagrams` how many were sent is counted for each party by itself, and takes don't
/// change it.
///
/// In `failing_sends` a failed send that went out is counted and can be picked; one that did not go
/// out left nothing. Of two entries for the first send the first counts. The last two entries name
/// no send.
const PLAYS: &str = "\
datagrams_are_handed_over
watchers 253
as the_opening
take 0 0 0 -> no datagram
tick 1 -> sent 1
tick 255 -> sent 1
tick 3 -> sent 1
take 0 1 0 -> answer to 255: entries 1 to 1
take 0 0 0 -> answer to 1: entries 1 to 1
take 0 0 0 -> answer to 1: entries 1 to 1
take 0 2 0 -> answer to 3: entries 1 to 1
take 0 3 0 -> no datagram
take 255 0 0 -> learned 1
take 255 1 0 -> no datagram
take 1 1 0 -> learned 1
take 1 0 0 -> nothing
take 1 2 0 -> no datagram
take 2 0 0 -> no datagram
take 254 0 0 -> no datagram

garbled_pick
watchers 1
take 0 4294967295 0 -> no packet: short
take 2 4294967295 0 -> no packet: short
take 3 4294967295 0 -> no packet: short
tick 2 -> sent 1
take 0 4294967295 0 -> no packet: short
take 0 4294967294 0 -> no datagram
sent to 0: 1
sent to 2: 0
sent to 3: 0

counts_of_datagrams
watchers 2
as the_opening
tick 4 -> sent 1
tick 1 -> sent 1
take 0 0 0 -> answer to 4: entries 1 to 1
take 0 1 0 -> answer to 1: entries 1 to 1
take 0 0 0 -> answer to 4: entries 1 to 1
take 0 0 0 -> answer to 4: entries 1 to 1
take 4 2 0 -> learned 1
sent to 0: 2
sent to 1: 1
sent to 2: 0
sent to 3: 0
sent to 4: 3
sent to 5: 0

failing_sends
watchers 2
fails: send 1 lost
fails: send 1 went
fails: send 3 went
fails: send 0 lost
fails: send 4294967295 lost
as the_opening
tick 1 -> link fault
take 0 0 0 -> no datagram
tick 2 -> sent 1
tick 3 -> link fault
tick 4 -> sent 1
take 0 0 0 -> answer to 2: entries 1 to 1
take 0 1 0 -> answer to 3: entries 1 to 1
take 0 2 0 -> answer to 4: entries 1 to 1
take 0 3 0 -> no datagram
sent to 0: 3
sent to 1: 0
sent to 2: 1
";

#[test]
fn links_in_memory(rt: HostRuntime) {
    check_plays(&rt, PLAYS);
}

const THE_OPENING: &str = "\
the_opening
watchers 1
as the_opening
";

/// A party takes the datagram of this index.
fn take(world: &mut MemoryWorld, party: u8, pick: u32) -> Outcome {
    let word = 0;
    step(world, Event::Take { party, pick, word })
}

/// A party takes what was sent to it last.
pub(crate) fn take_last(world: &mut MemoryWorld, party: u8) -> Outcome {
    let last = sent_to(world, party).saturating_sub(1);
    take(world, party, last)
}

/// The seat of a party asks, and learns what the referee has saved.
fn learn(world: &mut MemoryWorld, party: u8) {
    step(world, Event::Tick { party });
    take_last(world, 0);
    take_last(world, party);
}

/// The seat of a party saves, and tells the referee what it claims.
fn tell(world: &mut MemoryWorld, party: u8) {
    step(world, Event::Save { party });
    step(world, Event::Tick { party });
    take_last(world, 0);
}

/// The seat of a party asks, does this after what the referee has saved, and the referee saves it.
fn act(rt: &impl Abort, world: &mut MemoryWorld, party: u8, choice: &str) {
    learn(world, party);
    happen(rt, world, choice);
    tell(world, party);
    happen(rt, world, "save 0");
}

/// The watcher forgets all and asks: what the referee sends.
fn ask_anew(rt: &impl Abort, world: &mut MemoryWorld) -> Outcome {
    happen(rt, world, "restart 3");
    happen(rt, world, "tick 3");
    take_last(world, 0)
}

/// The watcher forgets all, and learns so many entries from the datagram of this index: those of
/// the referee.
fn learns(rt: &impl Abort, world: &mut MemoryWorld, index: u32) -> bool {
    happen(rt, world, "restart 3");
    take(world, 3, index);
    match (record_of(world, 3), record_of(world, 0)) {
        (Some(record), Some(whole)) => {
            index.checked_add(1) == Some(record.len()) && is_front(record, whole)
        }
        _ => false,
    }
}

const ANSWERS: &str = "\
answer to 3: entries 1 to 1
answer to 3: entries 1 to 2
answer to 3: entries 1 to 3
answer to 3: entries 1 to 4
answer to 3: entries 1 to 5
answer to 3: entries 1 to 6
answer to 3: entries 1 to 7
answer to 3: entries 1 to 8";

fn check_texts_of_many_lengths(rt: &(impl AllocGlobal + Abort)) {
    let world = played(rt, THE_OPENING, "the_opening", None);
    check_many_lengths(rt, world);
    for index in [7, 0, 3, 1, 6, 2, 5, 4] {
        check_number(rt, "datagram", index.into(), learns(rt, world, index));
    }
}

/// Texts of eight lengths, from 21 bytes to 32, are handed over as they were sent, though they are
/// kept one behind the other: an opening, and then by turns an offer to resign and its rejection,
/// from one entry to eight.
#[test]
fn texts_of_many_lengths(rt: HostRuntime) {
    check_texts_of_many_lengths(&rt);
}

/// The watcher is answered with an entry more each time.
fn check_many_lengths(rt: &impl Abort, world: &mut MemoryWorld) {
    for (i, answer) in ANSWERS.lines().enumerate() {
        check_row(rt, i, has_line(&ask_anew(rt, world), answer));
        match i % 2 {
            0 => act(rt, world, 1, "choose X resign normal"),
            _ => act(rt, world, 2, "choose O reject"),
        }
    }
}
