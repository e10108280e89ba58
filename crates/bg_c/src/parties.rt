//! Parties behind handles: closing them, and reading what they have.
ghost use Rattle.std.specs.Prelude.{◌≡◌, None, Some, length, unwrap_or};
ghost use Rattle.bg_match.specs.Actor.{actor_of};
ghost use Rattle.bg_match.specs.State.{State};
ghost use Rattle.bg_parties.specs.Calls.{log_of, saved_of};
ghost use Rattle.bg_c.specs.Handle.{Held};
ghost use Rattle.bg_c.specs.Outcomes.{actor_code};
ghost use Rattle.bg_c.specs.PartyCalls.{PartyStands, count_told};
ghost use Rattle.bg_c.specs.Standings.{standing_fields};
ghost use Rattle.bg_c.specs.Status.{status_code};
ghost use Rattle.bg_c.specs.declared.statuses.Status.TheVariants as status;

pub(crate) mod claims;
pub(crate) mod openings;
pub(crate) mod options;
pub(crate) mod peers;
pub(crate) mod play;
pub(crate) mod saves;
pub(crate) mod shown;
pub(crate) mod texts;

use crate::handle::Handle;
use crate::outcomes::actor_code;
use crate::standings::StandingFields;
use crate::statuses::Status;
use bg_match::Number;
use bg_parties::Party;
use std::alloc::Global;

/// Closes the handle and drops its party. A handle without one stays so.
#[unsafe(no_mangle)]
pub extern "C" fn bg_proved_party_close(alloc: Global, handle: &mut Handle)
    ensures { handle.new.value ≡ None }
{
    *handle = Handle::empty(alloc);
}

/// Sets `entries` to the number of entries in the record of a party.
#[unsafe(no_mangle)]
pub extern "C" fn bg_proved_party_entries(
    alloc: Global,
    handle: &mut Handle,
    entries: &mut u32,
) -> u32
    ensures same { handle.new.value ≡ handle.old.value }
    ensures closed { handle.old.value ≡ None → (result ≡ status_code status.NotOpen) × (entries.new ≡ entries.old) }
    ensures entries { (party : Held) → handle.old.value ≡ Some party
        → (result ≡ status_code status.Ok) × (entries.new ≡ length (log_of party.core).entries) }
{
    let Some(party) = handle.take(alloc) else {
        return Status::NotOpen.code();
    };
    *entries = party.held().len();
    handle.put(party);
    Status::Ok.code()
}

/// Sets `saved` to the number of entries that the referee has saved: it tells the parties no
/// others. It is 0 for another party.
#[unsafe(no_mangle)]
pub extern "C" fn bg_proved_party_saved(alloc: Global, handle: &mut Handle, saved: &mut u32) -> u32
    ensures same { handle.new.value ≡ handle.old.value }
    ensures closed { handle.old.value ≡ None → (result ≡ status_code status.NotOpen) × (saved.new ≡ saved.old) }
    ensures saved { (party : Held) → handle.old.value ≡ Some party
        → (result ≡ status_code status.Ok) × (saved.new ≡ unwrap_or (saved_of party.core) 0) }
{
    let Some(party) = handle.take(alloc) else {
        return Status::NotOpen.code();
    };
    *saved = party.saved().unwrap_or(0);
    handle.put(party);
    Status::Ok.code()
}

/// Returns the number of entries that a party may show to others.
pub(crate) fn count_told(party: &Party) -> Number
    ensures { result ≡ count_told party.now }
{
    party.saved().unwrap_or(party.held().len())
}

/// Sets `entries` to the number of entries that a party may show to others: of the referee those
/// that are saved, of a seat or a watcher all that it holds. A host that shows boards or
/// transcripts of a referee shows these alone.
#[unsafe(no_mangle)]
pub extern "C" fn bg_proved_party_told(alloc: Global, handle: &mut Handle, entries: &mut u32) -> u32
    ensures same { handle.new.value ≡ handle.old.value }
    ensures closed { handle.old.value ≡ None → (result ≡ status_code status.NotOpen) × (entries.new ≡ entries.old) }
    ensures told { (party : Held) → handle.old.value ≡ Some party
        → (result ≡ status_code status.Ok) × (entries.new ≡ count_told party) }
{
    let Some(party) = handle.take(alloc) else {
        return Status::NotOpen.code();
    };
    *entries = count_told(&party);
    handle.put(party);
    Status::Ok.code()
}

/// Sets `actor` to the one who acts by the record of a party: 0 the referee, 1 X, 2 O, 3 nobody, as
/// the match is over.
#[unsafe(no_mangle)]
pub extern "C" fn bg_proved_party_actor(alloc: Global, handle: &mut Handle, actor: &mut u32) -> u32
    ensures same { handle.new.value ≡ handle.old.value }
    ensures closed { handle.old.value ≡ None → (result ≡ status_code status.NotOpen) × (actor.new ≡ actor.old) }
    ensures acts { (party : Held) → handle.old.value ≡ Some party → (s : State) × PartyStands party s
        × (result ≡ status_code status.Ok) × (actor.new ≡ actor_code (actor_of s)) }
{
    let Some(party) = handle.take(alloc) else {
        return Status::NotOpen.code();
    };
    *actor = actor_code(party.held().standing().actor());
    handle.put(party);
    Status::Ok.code()
}

/// Sets `standing` to where the match stands by the record of a party, by all entries that it
/// holds.
#[unsafe(no_mangle)]
pub extern "C" fn bg_proved_party_standing(
    alloc: Global,
    handle: &mut Handle,
    standing: &mut StandingFields,
) -> u32
    ensures same { handle.new.value ≡ handle.old.value }
    ensures closed { handle.old.value ≡ None → (result ≡ status_code status.NotOpen) × (standing.new ≡ standing.old) }
    ensures standing { (party : Held) → handle.old.value ≡ Some party → (s : State) × PartyStands party s
        × (result ≡ status_code status.Ok) × (standing.new ≡ standing_fields s) }
{
    let Some(party) = handle.take(alloc) else {
        return Status::NotOpen.code();
    };
    *standing = StandingFields::of(&party.held().standing());
    handle.put(party);
    Status::Ok.code()
}
