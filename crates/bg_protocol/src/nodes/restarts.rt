//! Restarts of a party from what it saved.
ghost use Rattle.std.specs.Prelude.{◌≡◌, IfOk, IfSome};
ghost use Rattle.bg_match.specs.Limits.{IsMatchLength};
ghost use Rattle.bg_match.specs.Terms.{match_length};
ghost use Rattle.bg_wire.specs.Entries.Codes.{referee as referee_party};
ghost use Rattle.bg_wire.specs.Parties.{party_of};
ghost use Rattle.bg_wire.specs.Saved.Restoring.{Restores};
ghost use Rattle.bg_wire.specs.Saved.SavedText.{IsSavable, parts_of};
ghost use Rattle.bg_referee.specs.Referee.{fresh_referee, resumed_referee};
ghost use Rattle.bg_party.specs.Views.{fresh_seat, resumed_seat};
ghost use Rattle.bg_protocol.specs.Devices.KeeperCalls.{ReadsBoth, RestartCallsAt, refusal_outcome};
ghost use Rattle.bg_protocol.specs.Worlds.Views.{keeper_view};

use crate::nodes::keeper_calls::{read_outcome, read_slot};
use crate::{Keeper, Outcome, RestoreCause};
use bg_board::Player;
use bg_match::Terms;
use bg_party::Seat;
use bg_referee::Referee;
use bg_wire::{REFEREE, RestoreRefusal, Saved, Slot, party_of, restore};
use std::alloc::Global;

/// Returns the outcome of a refusal to restore.
fn refusal_outcome(refusal: RestoreRefusal) -> Outcome
    ensures { result ≡ refusal_outcome refusal }
{
    match refusal {
        RestoreRefusal::Damaged => Outcome::RestoreFault(RestoreCause::Damaged),
        RestoreRefusal::WrongMatch => Outcome::RestoreFault(RestoreCause::WrongMatch),
        RestoreRefusal::Memory => Outcome::Memory,
    }
}

/// Returns what the bytes of a party's slots restore.
fn restored(
    alloc: Global,
    zero: &[u8],
    one: &[u8],
    party: u8,
    id: u64,
    terms: Terms,
) -> Result<Option<Saved>, RestoreRefusal>
    ensures restores { Restores zero.now one.now party id terms result }
    ensures party { IfOk result (λ found. IfSome found (λ saved. saved.party ≡ party)) }
    ensures savable { IfOk result (λ found. IfSome found (λ saved. IsSavable (parts_of saved))) }
{
    restore(alloc, zero, one, party, id, terms.length, terms.rules)
}

/// Returns what the slots of a party restore, or the outcome where nothing is restored.
fn read_both<K: Keeper>(
    alloc: Global,
    keeper: &mut K,
    party: u8,
    id: u64,
    terms: Terms,
) -> Result<Option<Saved>, Outcome>
    ensures reads { ReadsBoth K.is_honest party id terms (keeper_view K.Keeper keeper.old)
        result (keeper_view K.Keeper keeper.new) }
    ensures party { IfOk result (λ found. IfSome found (λ saved. saved.party ≡ party)) }
    ensures savable { IfOk result (λ found. IfSome found (λ saved. IsSavable (parts_of saved))) }
{
    let zero = match read_slot(keeper, Slot::Zero) {
        Ok(zero) => zero,
        Err(fault) => return Err(read_outcome(fault)),
    };
    let one = match read_slot(keeper, Slot::One) {
        Ok(one) => one,
        Err(fault) => return Err(read_outcome(fault)),
    };
    match restored(alloc, &zero, &one, party, id, terms) {
        Ok(found) => Ok(found),
        Err(refusal) => Err(refusal_outcome(refusal)),
    }
}

/// Restarts the referee.
pub(crate) fn restart_referee<K: Keeper>(
    alloc: Global,
    keeper: &mut K,
    referee: &mut Option<Referee>,
    id: u64,
    terms: Terms,
) -> Outcome
    requires { IsMatchLength (match_length terms) }
    ensures { RestartCallsAt resumed_referee (fresh_referee id terms) K.is_honest referee_party id terms
        (keeper_view K.Keeper keeper.old) result (keeper_view K.Keeper keeper.new) referee.new }
{
    *referee = None;
    match read_both(alloc, keeper, REFEREE, id, terms) {
        Ok(Some(saved)) => {
            *referee = Some(Referee::resume(alloc, saved));
            Outcome::Restarted
        }
        Ok(None) => {
            *referee = Some(Referee::fresh(alloc, id, terms.length, terms.rules).unwrap());
            Outcome::Restarted
        }
        Err(why) => why,
    }
}

/// Restarts a seat.
pub(crate) fn restart_seat<K: Keeper>(
    alloc: Global,
    keeper: &mut K,
    seat: &mut Option<Seat>,
    player: Player,
    id: u64,
    terms: Terms,
) -> Outcome
    requires { IsMatchLength (match_length terms) }
    ensures { RestartCallsAt resumed_seat (fresh_seat player id terms) K.is_honest (party_of player) id terms
        (keeper_view K.Keeper keeper.old) result (keeper_view K.Keeper keeper.new) seat.new }
{
    *seat = None;
    match read_both(alloc, keeper, party_of(player), id, terms) {
        Ok(Some(saved)) => {
            *seat = Some(Seat::resume(alloc, saved));
            Outcome::Restarted
        }
        Ok(None) => {
            *seat = Some(Seat::fresh(alloc, player, id, terms.length, terms.rules).unwrap());
            Outcome::Restarted
        }
        Err(why) => why,
    }
}
