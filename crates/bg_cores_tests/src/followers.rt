//! Followers of match 1, of length 1, packet by packet. The packets are read from bytes, as they
//! come from the referee.
//!
//! A test is a table of rows, and each row a call with what it gives. The rows are compared by
//! short functions with no contract, so that neither what a call ensures nor the values that it
//! makes burden the proof of the test.
mod claims;
mod learning;
mod passes;
mod saves;
mod seats;
mod sending;
mod watchers;
mod windows;

ghost use Rattle.std.specs.Prelude.{IfSome};
ghost use Rattle.bg_wire.specs.Packets.PacketText.{IsPacket};

use arrayvec::ArrayVec;
use bg_board::Step;
use bg_match::{Number, Rules};
use bg_turns::Turn;
use bg_wire::{Packet, decode};

/// Entries as bytes: none, the opening 3 1, the opening 5 1, 8-5 6-5, 8-5 6-4, 8-5 alone, a double,
/// an offer of a normal game, one of a gammon, a rejection.
const NONE: [u8; 0] = [];

const OPENING: [u8; 3] = [1, 3, 1];

const OTHER_OPENING: [u8; 3] = [1, 5, 1];

const MOVED: [u8; 6] = [6, 2, 8, 5, 6, 5];

const MOVED_OTHERWISE: [u8; 6] = [6, 2, 8, 5, 6, 4];

const HALF_A_MOVE: [u8; 4] = [6, 1, 8, 5];

const DOUBLED: [u8; 1] = [3];

const OFFERED: [u8; 2] = [7, 1];

const OFFERED_A_GAMMON: [u8; 2] = [7, 2];

const REJECTED: [u8; 1] = [9];

fn add(bytes: &mut ArrayVec<u8, 128>, part: &[u8]) -> Option<()> {
    bytes.try_extend_from_slice(part).ok()
}

/// The packet of this kind in match `id`, with these bytes; `None` where they are no packet.
fn packet(kind: u8, id: u8, head: &[u8], first: &[u8], second: &[u8]) -> Option<Packet>
    ensures { IfSome result IsPacket }
{
    let mut bytes = ArrayVec::new();
    add(
        &mut bytes,
        &[0x42, 0x47, 2, kind, 0, 0, 0, 0, 0, 0, 0, id, 1],
    )?;
    add(&mut bytes, head)?;
    add(&mut bytes, first)?;
    add(&mut bytes, second)?;
    decode(bytes.as_slice()).ok()
}

/// The packet that tells an entry under a number, and another one behind it unless that has no
/// bytes.
fn entries(number: u8, first: &[u8], second: &[u8]) -> Option<Packet>
    ensures { IfSome result IsPacket }
{
    let count = if second.is_empty() { 1 } else { 2 };
    packet(3, 1, &[0, 0, 0, number, count], first, second)
}

/// What a party wants that holds so many entries.
fn want(sender: u8, held: Number) -> Packet {
    Packet::Want {
        id: 1,
        rules: Rules::One,
        sender,
        held,
    }
}

fn opening_move() -> Turn {
    let mut turn = Turn::new();
    turn.push(Step::new(8, 5).unwrap());
    turn.push(Step::new(6, 5).unwrap());
    turn
}

fn half_a_move() -> Turn {
    let mut turn = Turn::new();
    turn.push(Step::new(8, 5).unwrap());
    turn
}
