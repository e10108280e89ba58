//! The queue between the parties of a hosted match.
use crate::checks::{check_number, check_row};
use crate::lasting::lasting;
use arrayvec::ArrayVec;
use bg_hosted::{MOST_WAITING, QueueLink};
use bg_wire::{Datagram, PacketBytes};
use bg_world::{DeviceFault, Link};
use std::process::Abort;

/// A queue that lasts as long as the process.
fn queue<'a>(rt: &(impl AllocGlobal + Abort)) -> &'a mut QueueLink {
    lasting(rt, QueueLink::new(rt.alloc()))
}

fn datagram(to: u8, byte: u8) -> Datagram {
    let mut bytes = ArrayVec::new();
    bytes.push(byte);
    Datagram {
        to,
        bytes: PacketBytes { bytes },
    }
}

fn take(link: &mut QueueLink, party: u8) -> Option<u8> {
    match link.take(party, 0) {
        Ok(Some(bytes)) => bytes.first().copied(),
        _ => None,
    }
}

/// A datagram of a byte is sent to a party, or the party takes one; it takes `None` where there is
/// none.
enum Step {
    Sent(u8, u8),
    Taken(u8, Option<u8>),
}

/// Each step succeeds.
fn check_steps(rt: &impl Abort, link: &mut QueueLink, steps: &[Step]) {
    for step in steps {
        let (party, is_so) = match step {
            Step::Sent(to, byte) => (*to, link.send(&datagram(*to, *byte)).is_ok()),
            Step::Taken(party, byte) => (*party, take(link, *party) == *byte),
        };
        check_number(rt, "a datagram of party", u32::from(party), is_so);
    }
}

/// Each party takes what was sent to it once, and in order.
const ORDER: [Step; 8] = [
    Step::Sent(1, 10),
    Step::Sent(2, 20),
    Step::Sent(1, 11),
    Step::Taken(1, Some(10)),
    Step::Taken(1, Some(11)),
    Step::Taken(1, None),
    Step::Taken(2, Some(20)),
    Step::Taken(0, None),
];

#[test]
fn each_is_taken_once_and_in_order(rt: HostRuntime) {
    check_steps(&rt, queue(&rt), &ORDER);
}

#[test]
fn one_more_than_wait_at_most_is_lost(rt: HostRuntime) {
    check_lost(&rt, queue(&rt));
}

fn check_lost(rt: &impl Abort, link: &mut QueueLink) {
    for _ in 0..MOST_WAITING {
        check_steps(rt, link, &[Step::Sent(3, 5)]);
    }
    let is_lost = link.send(&datagram(3, 6)) == Err(DeviceFault::Failed);
    check_row(rt, "one more is lost", is_lost);
    check_steps(rt, link, &[Step::Taken(3, Some(5)), Step::Sent(3, 7)]);
}
