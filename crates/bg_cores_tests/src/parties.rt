//! Parties as a host uses them.
//!
//! A test is a table of rows, and each row a call with what it comes to. The rows are compared by
//! short functions with no contract, so that what a call ensures does not burden the proof of the
//! test.
ghost use Rattle.std.specs.Prelude.{◌≤◌};
ghost use Rattle.bg_wire.specs.Entries.Codes.{seat_of_o, seat_of_x};
ghost use Rattle.bg_wire.specs.Packets.PacketText.{IsPacket};

mod growths;
mod openings;
mod roles;
mod rows;
mod save_order;

use crate::lasting::lasting;
use bg_match::{Action, Level, Rules, Terms};
use bg_parties::Party;
use bg_wire::{Packet, REFEREE};
use std::process::Abort;

/// A match of one point.
const TERMS: Terms = Terms {
    length: 1,
    rules: Rules::One,
};

/// A party of the match 1 that has saved nothing. It lasts.
fn fresh(rt: &(impl AllocGlobal + Abort), number: u8) -> &'static mut Party {
    lasting(
        rt,
        Party::open(rt.alloc(), number, 1, TERMS, b"", b"").expect(rt, "a party"),
    )
}

/// What a party wants that holds nothing of the match with this id.
fn want(id: u64, sender: u8) -> Packet
    requires { 1 ≤ sender }
    ensures { IsPacket result }
{
    Packet::Want {
        id,
        rules: Rules::One,
        sender,
        held: 0,
    }
}

/// A player's claim of entry 2, that he gives the match up.
fn resigns(sender: u8) -> Packet
    requires first { seat_of_x ≤ sender }
    requires last { sender ≤ seat_of_o }
    ensures { IsPacket result }
{
    Packet::Claim {
        id: 1,
        rules: Rules::One,
        sender,
        number: 2,
        action: Action::Resign(Level::Normal),
    }
}

/// Whether the next tick sends this packet to the referee, and nothing else.
fn sends(party: &mut Party, packet: &Packet) -> bool {
    let sent = party.tick();
    if sent.len() != 1 {
        return false;
    }
    match sent.as_slice().first() {
        Some((to, one)) => *to == REFEREE && one == packet,
        None => false,
    }
}
