//! A link in memory of the tests' own: what is handed over is what was sent.
ghost use Rattle.std.specs.Prelude.{◌≡◌, [], IfSome, Ok, Some};
ghost use Rattle.bg_protocol.specs.Devices.Handed.{handed};

use crate::checks::{check_row, lasting};
use crate::devices::links::OwnLink;
use crate::devices::{NO_FAILURE, Recorder};
use arrayvec::ArrayVec;
use bg_wire::{Datagram, MOST_DATAGRAM_BYTES, PacketBytes, REFEREE};
use bg_world::{DeviceFault, Link, Taken};
use std::process::Abort;

/// Who knows nothing of a link but what every link promises is handed what the pick names, where
/// there is a plan.
fn take_over<L: Link>(link: &mut L, party: u8, pick: u32) -> Taken
    ensures { IfSome (L.plan link.old) (λ _. result ≡ Ok (handed (L.sent link.old) party pick)) }
{
    link.take(party, pick)
}

/// Whether the datagram to the referee that the pick names has these bytes.
pub(crate) fn is_taken(link: &mut OwnLink<'_>, pick: u32, bytes: &[u8]) -> bool {
    match take_over(link, REFEREE, pick) {
        Ok(Some(taken)) => taken.as_slice() == bytes,
        Ok(None) | Err(_) => false,
    }
}

/// Who knows nothing of a link but what every link promises knows that it does not fail by itself
/// where its plan is empty.
fn send_over<L: Link>(link: &mut L, datagram: &Datagram) -> Result<(), DeviceFault>
    ensures { L.plan link.old ≡ Some [] → L.faults link.new ≡ L.faults link.old }
{
    link.send(datagram)
}

/// Whether a stranger can send these bytes to the referee.
pub(crate) fn sends(link: &mut OwnLink<'_>, bytes: &[u8]) -> bool {
    let mut sent = ArrayVec::new();
    if sent.try_extend_from_slice(bytes).is_err() {
        return false;
    }
    let datagram = Datagram {
        to: REFEREE,
        bytes: PacketBytes { bytes: sent },
    };
    send_over(link, &datagram).is_ok()
}

/// As many bytes as a datagram has at most.
const BYTES: &[u8; 128] = b"0123456789ABCDEFGHIJKLMNOPQRSTUVWXYZabcdefghijklmnopqrstuvwxyz+-\
      0918273645aZbYcXdWeVfUgThSiRjQkPlOmNnMoLpKqJrIsHtGuFvEwDxCyBzA-+";

/// The first bytes, so many.
fn front(count: usize) -> &'static [u8] {
    BYTES.get(..count).unwrap_or(BYTES)
}

fn check_texts_of_each_length(rt: &(impl AllocGlobal + Abort)) {
    let recorder = Recorder::that_lasts(rt, rt.alloc(), NO_FAILURE);
    let link = lasting(rt.alloc(), OwnLink::by_picks(recorder)).expect(rt, "memory");
    for count in 0..=MOST_DATAGRAM_BYTES {
        check_row(rt, count, sends(link, front(count)));
    }
    for count in 0..=MOST_DATAGRAM_BYTES {
        check_row(rt, count, is_taken(link, count as u32, front(count)));
    }
}

/// A text of each length, from no byte to as many as a datagram may have, is handed over as it was
/// sent, though texts of other lengths stand before it and behind it.
#[test]
fn texts_of_each_length(rt: HostRuntime) {
    check_texts_of_each_length(&rt);
}
