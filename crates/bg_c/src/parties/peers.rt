//! Parties that the host knows: packets whose sender it has authenticated, and peers that a referee
//! has not heard of.
ghost use Rattle.std.specs.Prelude.{◌≡◌, ◌↔◌, IsTrue, None, Some};
ghost use Rattle.bg_c.specs.Handle.{Held};
ghost use Rattle.bg_c.specs.Peers.{Hears, HearsPeer, IsPeer, TakesBytesFrom, TakesFrom, Told};
ghost use Rattle.bg_c.specs.Sets.{Sets};
ghost use Rattle.bg_c.specs.Status.{status_code};
ghost use Rattle.bg_c.specs.declared.statuses.Status.TheVariants.{NotOpen};

use crate::datagrams::Datagram;
use crate::handle::Handle;
use crate::outcomes::Outcome;
use crate::packets::sender_of;
use crate::parties::play::{set_both, take_packet};
use crate::statuses::Status;
use bg_match::MOST_ENTRIES;
use bg_parties::Party;
use bg_wire::{LAST_WATCHER, Packet, SEAT_OF_X, decode};
use std::alloc::Global;

/// The word for a packet that needs none: it claims no roll.
const NO_WORD: u32 = 0;

/// Takes a packet of a sender that the host knows, as
/// [`bg_proved_party_take`](crate::parties::play::bg_proved_party_take) does. The referee is the
/// sender of entries. `outcome` and `answer` are set where the result is BG_OK.
///
/// Returns BG_BAD_ARGUMENT where there is no such sender; BG_NOT_A_PACKET where the bytes are no
/// packet; BG_OTHER_SENDER where the packet says another sender; or BG_MEMORY. Then everything is
/// as before.
#[unsafe(no_mangle)]
pub extern "C" fn bg_proved_party_take_from(
    alloc: Global,
    handle: &mut Handle,
    sender: u32,
    packet: &[u8],
    word: u32,
    outcome: &mut Outcome,
    answer: &mut Datagram,
) -> u32
    ensures closed { handle.old.value ≡ None → (result ≡ status_code NotOpen) × (handle.new.value ≡ None)
        × (outcome.new ≡ outcome.old) × (answer.new ≡ answer.old) }
    ensures takes { (old : Held) → handle.old.value ≡ Some old → (made : Told) × (new : Held)
        × TakesFrom old sender packet.now word made new × (handle.new.value ≡ Some new)
        × Sets made (outcome.old, answer.old) result (outcome.new, answer.new) }
{
    let Some(mut party) = handle.take(alloc) else {
        return Status::NotOpen.code();
    };
    let made = take_from(&mut party, sender, packet, word);
    handle.put(party);
    set_both(made, outcome, answer)
}

/// Takes the packet whose encoding the bytes are, of a sender that there may be.
fn take_from(
    party: &mut Party,
    sender: u32,
    bytes: &[u8],
    word: u32,
) -> Result<(Outcome, Datagram), Status>
    ensures { TakesFrom party.old sender bytes.now word result party.new }
{
    if sender > u32::from(LAST_WATCHER) {
        return Err(Status::BadArgument);
    }
    take_bytes(party, sender, bytes, word)
}

/// Takes the packet whose encoding the bytes are, where it says this sender.
fn take_bytes(
    party: &mut Party,
    sender: u32,
    bytes: &[u8],
    word: u32,
) -> Result<(Outcome, Datagram), Status>
    ensures { TakesBytesFrom party.old sender bytes.now word result party.new }
{
    let packet = decode(bytes)?;
    if u32::from(sender_of(&packet)) != sender {
        return Err(Status::OtherSender);
    }
    take_packet(party, &packet, word)
}

/// Tells a referee that a peer is there, and how many entries that holds: the referee does what it
/// would do at a want of that peer. A referee that was opened again knows no peer until it hears of
/// it. `outcome` and `answer` are set where the result is BG_OK.
///
/// Returns BG_BAD_ARGUMENT where there is no such peer, 1 to 255, or no such number of entries, 0
/// to 1000000; else BG_WRONG_PARTY where the party is not the referee. Then everything is as
/// before.
#[unsafe(no_mangle)]
pub extern "C" fn bg_proved_referee_heard(
    alloc: Global,
    handle: &mut Handle,
    peer: u32,
    held: u32,
    outcome: &mut Outcome,
    answer: &mut Datagram,
) -> u32
    ensures closed { handle.old.value ≡ None → (result ≡ status_code NotOpen) × (handle.new.value ≡ None)
        × (outcome.new ≡ outcome.old) × (answer.new ≡ answer.old) }
    ensures hears { (old : Held) → handle.old.value ≡ Some old → (made : Told) × (new : Held)
        × Hears old peer held made new × (handle.new.value ≡ Some new)
        × Sets made (outcome.old, answer.old) result (outcome.new, answer.new) }
{
    let Some(mut party) = handle.take(alloc) else {
        return Status::NotOpen.code();
    };
    let made = hear(&mut party, peer, held);
    handle.put(party);
    set_both(made, outcome, answer)
}

/// Returns whether a referee has such a peer, and there may be so many entries.
fn is_peer(peer: u32, held: u32) -> bool
    ensures { IsTrue result ↔ IsPeer peer held }
{
    peer >= u32::from(SEAT_OF_X) && peer <= u32::from(LAST_WATCHER) && held <= MOST_ENTRIES
}

/// Tells a referee how many entries a peer holds, if there is such a peer.
fn hear(party: &mut Party, peer: u32, held: u32) -> Result<(Outcome, Datagram), Status>
    ensures { Hears party.old peer held result party.new }
{
    if !is_peer(peer, held) {
        return Err(Status::BadArgument);
    }
    hear_peer(party, peer as u8, held)
}

/// Tells a referee how many entries a peer holds.
fn hear_peer(party: &mut Party, peer: u8, held: u32) -> Result<(Outcome, Datagram), Status>
    requires { IsPeer peer held }
    ensures { HearsPeer party.old peer held result party.new }
{
    if party.saved().is_none() {
        return Err(Status::WrongParty);
    }
    let log = party.held();
    let want = Packet::Want {
        id: log.id(),
        rules: log.rules(),
        sender: peer,
        held,
    };
    take_packet(party, &want, NO_WORD)
}
