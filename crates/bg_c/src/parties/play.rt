//! The play of parties: entries of their own, packets, claims, and what they send.
ghost use Rattle.std.specs.Prelude.{◌≡◌, ℕ, List, None, Some, Result, slice_get};
ghost use Rattle.bg_wire.specs.Packets.PacketText.{IsPacket};
ghost use Rattle.bg_wire.specs.declared.packets.Packet.{Packet as APacket};
ghost use Rattle.bg_c.specs.Answers.{due_status, role_status};
ghost use Rattle.bg_c.specs.Datagrams.{datagram_of};
ghost use Rattle.bg_c.specs.Handle.{Held};
ghost use Rattle.bg_c.specs.PartyCalls.{ChoosesText, DueAnswer, HeldDues, HeldTicks, TakesBytes, TakesPacket, why_after};
ghost use Rattle.bg_c.specs.Sets.{Sets, with_status};
ghost use Rattle.bg_c.specs.Status.{status_code};
ghost use Rattle.bg_c.specs.declared.datagrams.Datagram.{Datagram as ADatagram};
ghost use Rattle.bg_c.specs.declared.outcomes.Outcome.{Outcome as AnOutcome};
ghost use Rattle.bg_c.specs.declared.statuses.Status.{Status as AStatus};
ghost use Rattle.bg_c.specs.declared.statuses.Status.TheVariants as status;

use crate::datagrams::Datagram;
use crate::handle::Handle;
use crate::outcomes::{Outcome, why_code};
use crate::rooms::set;
use crate::statuses::Status;
use bg_match::Number;
use bg_parties::{Party, RoleFault};
use bg_party::ChooseFault;
use bg_text::parse_action;
use bg_wire::{Packet, decode};
use std::alloc::Global;

/// Adds the entry that is the referee's to add: opens a game with the dice of a random word, or
/// passes a turn without steps. `number` is that entry's where the result is BG_OK, and else as
/// before. Save after BG_OK.
///
/// Returns BG_WRONG_PARTY where the party is not the referee; else BG_NOT_DUE, BG_WORD_REFUSED or
/// BG_MEMORY with what [`Party::due`] refuses.
#[unsafe(no_mangle)]
pub extern "C" fn bg_proved_referee_due(
    alloc: Global,
    handle: &mut Handle,
    word: u32,
    number: &mut u32,
) -> u32
    ensures closed { handle.old.value ≡ None → (result ≡ status_code status.NotOpen) × (handle.new.value ≡ None)
        × (number.new ≡ number.old) }
    ensures due { (old : Held) → handle.old.value ≡ Some old → (answer : DueAnswer) × (new : Held)
        × HeldDues old word answer new × (handle.new.value ≡ Some new)
        × Sets (with_status (role_status due_status) answer) number.old result number.new }
{
    let Some(mut party) = handle.take(alloc) else {
        return Status::NotOpen.code();
    };
    let made = due(&mut party, word);
    handle.put(party);
    set(made, number)
}

/// Adds the entry that is the referee's to add.
fn due(party: &mut Party, word: u32) -> Result<Number, Status>
    ensures { (answer : DueAnswer) × HeldDues party.old word answer party.new
        × (result ≡ with_status (role_status due_status) answer) }
{
    Ok(party.due(word)?)
}

/// Takes a packet. The random word, a new one for each call, gives the dice where the referee
/// accepts a roll; followers do not read it. `outcome` and `answer` are set where the result is
/// BG_OK.
///
/// Returns BG_NOT_A_PACKET where the bytes are no packet, or BG_MEMORY; then everything is as
/// before.
#[unsafe(no_mangle)]
pub extern "C" fn bg_proved_party_take(
    alloc: Global,
    handle: &mut Handle,
    packet: &[u8],
    word: u32,
    outcome: &mut Outcome,
    answer: &mut Datagram,
) -> u32
    ensures closed { handle.old.value ≡ None → (result ≡ status_code status.NotOpen) × (handle.new.value ≡ None)
        × (outcome.new ≡ outcome.old) × (answer.new ≡ answer.old) }
    ensures takes { (old : Held) → handle.old.value ≡ Some old → (made : Result (AnOutcome × ADatagram) AStatus)
        × (new : Held) × TakesBytes old packet.now word made new × (handle.new.value ≡ Some new)
        × Sets made (outcome.old, answer.old) result (outcome.new, answer.new) }
{
    let Some(mut party) = handle.take(alloc) else {
        return Status::NotOpen.code();
    };
    let made = take(&mut party, packet, word);
    handle.put(party);
    set_both(made, outcome, answer)
}

/// Sets the outcome and the answer to those that were made, if they were, and returns the number of
/// the status.
pub(crate) fn set_both(
    made: Result<(Outcome, Datagram), Status>,
    outcome: &mut Outcome,
    answer: &mut Datagram,
) -> u32
    ensures { Sets made (outcome.old, answer.old) result (outcome.new, answer.new) }
{
    match made {
        Ok((told, reply)) => {
            *outcome = told;
            *answer = reply;
            Status::Ok.code()
        }
        Err(why) => why.code(),
    }
}

/// Takes the packet whose encoding the bytes are, and returns the outcome and what to send back.
fn take(party: &mut Party, bytes: &[u8], word: u32) -> Result<(Outcome, Datagram), Status>
    ensures { TakesBytes party.old bytes.now word result party.new }
{
    let packet = decode(bytes)?;
    take_packet(party, &packet, word)
}

/// Takes a packet, and returns the outcome and what to send back.
pub(crate) fn take_packet(
    party: &mut Party,
    packet: &Packet,
    word: u32,
) -> Result<(Outcome, Datagram), Status>
    requires { IsPacket packet.now }
    ensures { TakesPacket party.old packet.now word result party.new }
{
    let taken = party.take(packet, word);
    match Outcome::of(&taken) {
        Some(outcome) => Ok((outcome, Datagram::reply(&taken))),
        None => Err(Status::Memory),
    }
}

/// Claims an action for a seat, such as `roll` or `move 8-5 6-5`. Where the result is BG_OK,
/// `number` is that of the entry that shall answer it. `why` is set where it is BG_ILLEGAL. Else
/// they are as before. Save after BG_OK: a claim is sent once it is saved.
///
/// Returns BG_NOT_AN_ACTION where the text is no action's; else BG_WRONG_PARTY where the party is
/// no seat; else BG_NOT_YOUR_TURN, BG_ALREADY_CLAIMED or BG_ILLEGAL with what [`Party::choose`]
/// refuses.
#[unsafe(no_mangle)]
pub extern "C" fn bg_proved_seat_choose(
    alloc: Global,
    handle: &mut Handle,
    action: &[u8],
    number: &mut u32,
    why: &mut u32,
) -> u32
    ensures closed { handle.old.value ≡ None → (result ≡ status_code status.NotOpen) × (handle.new.value ≡ None)
        × (number.new ≡ number.old) × (why.new ≡ why.old) }
    ensures chooses { (old : Held) → handle.old.value ≡ Some old → (made : Result ℕ AStatus) × (new : Held)
        × ChoosesText old action.now why.old made why.new new × (handle.new.value ≡ Some new)
        × Sets made number.old result number.new }
{
    let Some(mut party) = handle.take(alloc) else {
        return Status::NotOpen.code();
    };
    let made = choose(&mut party, action, why);
    handle.put(party);
    set(made, number)
}

/// Claims the action whose text this is, for a seat.
fn choose(party: &mut Party, text: &[u8], why: &mut u32) -> Result<Number, Status>
    ensures { ChoosesText party.old text.now why.old result why.new party.new }
{
    let action = parse_action(text)?;
    let chosen = party.choose(action);
    *why = why_after(chosen, *why);
    Ok(chosen?)
}

/// Returns the reason why the action of a claim does not follow, where it does not; else the reason
/// that was there before.
pub(crate) fn why_after(chosen: Result<Number, RoleFault<ChooseFault>>, before: u32) -> u32
    ensures { result ≡ why_after chosen before }
{
    match chosen {
        Err(RoleFault::Core(ChooseFault::Illegal(why))) => why_code(why),
        _ => before,
    }
}

/// Sets the packets to send now, at most two; call it about once a second. Both are set where the
/// result is BG_OK.
#[unsafe(no_mangle)]
pub extern "C" fn bg_proved_party_tick(
    alloc: Global,
    handle: &mut Handle,
    first: &mut Datagram,
    second: &mut Datagram,
) -> u32
    ensures closed { handle.old.value ≡ None → (result ≡ status_code status.NotOpen) × (handle.new.value ≡ None)
        × (first.new ≡ first.old) × (second.new ≡ second.old) }
    ensures ticks { (old : Held) → handle.old.value ≡ Some old → (sent : List (ℕ × APacket)) × (new : Held)
        × HeldTicks old sent new × (handle.new.value ≡ Some new) × (result ≡ status_code status.Ok)
        × (first.new ≡ datagram_of (slice_get sent 0)) × (second.new ≡ datagram_of (slice_get sent 1)) }
{
    let Some(mut party) = handle.take(alloc) else {
        return Status::NotOpen.code();
    };
    let sent = party.tick();
    handle.put(party);
    let sent = sent.as_slice();
    *first = Datagram::at(sent, 0);
    *second = Datagram::at(sent, 1);
    Status::Ok.code()
}
