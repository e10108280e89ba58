//! Matches in rounds over devices that have something as they begin, and the comparison of their
//! calls with texts.
use super::round_calls::{CALLS, SHARED_CALLS};
use crate::checks::check;
use crate::devices::keepers::OwnKeeper;
use crate::devices::links::OwnLink;
use crate::devices::{Failing, NO_FAILURE, Recorder};
use crate::sections::lines_of;
use bg_auto::{LoopFault, run_rounds};
use bg_match::Rules;
use bg_streams::Writing;
use bg_world::Keepers;
use std::process::Abort;
use std::str;

/// What the slots of a party have.
#[derive(Clone, Copy)]
pub(crate) struct Slots<'a> {
    zero: &'a [u8],
    one: &'a [u8],
}

const EMPTY: Slots<'static> = Slots {
    zero: &[],
    one: &[],
};

/// Where both have one byte, the first of a saved text.
pub(crate) const ONE_BYTE: Slots<'static> = Slots {
    zero: &[0x42],
    one: &[0x42],
};

/// Slots in which save 1 stands alone.
pub(crate) fn first_save<'a>(one: &'a [u8]) -> Slots<'a> {
    Slots { zero: &[], one }
}

/// The devices of a match as it begins.
#[derive(Clone, Copy)]
pub(crate) struct Devices<'a> {
    /// What the slots of the referee have, of X and of O.
    pub(crate) of_referee: Slots<'a>,
    pub(crate) of_x: Slots<'a>,
    pub(crate) of_o: Slots<'a>,
    /// How many datagrams that are no packets wait for the referee, for X and for O.
    pub(crate) garbled: [u8; 3],
    /// Which of their calls fail.
    pub(crate) failing: Failing,
}

/// Devices of which nothing was asked.
pub(crate) const UNUSED: Devices<'static> = Devices {
    of_referee: EMPTY,
    of_x: EMPTY,
    of_o: EMPTY,
    garbled: [0, 0, 0],
    failing: NO_FAILURE,
};

/// The slots of a keeper have these bytes.
fn fill(rt: &impl Abort, keeper: &mut OwnKeeper<'_>, slots: &Slots<'_>) {
    check(
        rt,
        "memory for slots",
        keeper.fill(slots.zero, slots.one).is_ok(),
    );
}

/// On a link these datagrams wait that are no packets.
fn garble(rt: &impl Abort, link: &mut OwnLink<'_>, garbled: &[u8; 3]) {
    for (party, count) in (0..3u8).zip(garbled) {
        for _ in 0..*count {
            check(rt, "memory for a datagram", link.wait(party, &[0]).is_ok());
        }
    }
}

/// The link and the keepers have what they begin with.
fn set_up(
    rt: &impl Abort,
    devices: &Devices<'_>,
    link: &mut OwnLink<'_>,
    keepers: &mut Keepers<OwnKeeper<'_>>,
) {
    garble(rt, link, &devices.garbled);
    fill(rt, &mut keepers.referee, &devices.of_referee);
    fill(rt, &mut keepers.x, &devices.of_x);
    fill(rt, &mut keepers.o, &devices.of_o);
}

/// What becomes of so many rounds of a match, whose calls the recorder notes.
fn played(
    rt: &(impl AllocGlobal + Abort),
    recorder: &Recorder,
    seed: u64,
    length: u8,
    rounds: u32,
    devices: &Devices<'_>,
) -> Result<(), LoopFault> {
    let mut link = OwnLink::in_order(recorder);
    let mut keepers = Keepers {
        referee: OwnKeeper::empty(recorder, 0),
        x: OwnKeeper::empty(recorder, 1),
        o: OwnKeeper::empty(recorder, 2),
    };
    set_up(rt, devices, &mut link, &mut keepers);
    run_rounds(
        rt.alloc(),
        seed,
        length,
        Rules::One,
        rounds,
        link,
        keepers,
        &mut Writing::new(&mut Vec::new(rt.alloc())),
    )
}

/// The lines of the calls are those of the section of this name.
fn check_calls(rt: &impl Abort, calls: &[u8], name: &str) {
    let calls = str::from_utf8(calls).expect(rt, "a text");
    check_lines(rt, calls, &lines_of(rt, CALLS, SHARED_CALLS, name), name);
}

/// The lines of the calls are these.
fn check_lines(rt: &impl Abort, calls: &str, lines: &[&str], name: &str) {
    let mut calls = calls.lines();
    for expected in lines {
        let call = calls.next().unwrap_or("no call");
        assert!(rt; call == *expected, "{name}: {expected}, and not {call}");
    }
    check(rt, name, calls.next().is_none());
}

/// What became of the rounds of this name.
fn check_result(
    rt: &impl Abort,
    found: &Result<(), LoopFault>,
    expected: &Result<(), LoopFault>,
    name: &str,
) {
    check(rt, name, found == expected);
}

/// So many rounds of a match make the calls of the section of this name, and come to this.
pub(crate) fn check_rounds(
    rt: &(impl AllocGlobal + Abort),
    name: &str,
    seed: u64,
    length: u8,
    rounds: u32,
    devices: &Devices<'_>,
    expected: &Result<(), LoopFault>,
) {
    let recorder = Recorder::new(rt.alloc(), devices.failing);
    let result = played(rt, &recorder, seed, length, rounds, devices);
    check_result(rt, &result, expected, name);
    check_calls(rt, &recorder.into_calls(), name);
}
