//! The claims of seats: the last one, and what could be claimed.
ghost use Rattle.std.specs.Prelude.{◌≡◌, ◌++◌, ℕ, None, Some, OnOk, Result};
ghost use Rattle.std.specs.Global.{Vec};
ghost use Rattle.bg_match.specs.declared.actions.Action.TheVariants.{Resign};
ghost use Rattle.bg_party.specs.Claims.{MayClaim};
ghost use Rattle.bg_text.specs.Entries.EntryText.{action_text};
ghost use Rattle.bg_c.specs.Claims.{MakesClaim, TriesText, TriesOf, player_numbered};
ghost use Rattle.bg_c.specs.Handle.{Held};
ghost use Rattle.bg_c.specs.Sets.{GivesBeside, Sets};
ghost use Rattle.bg_c.specs.Status.{status_code};
ghost use Rattle.bg_c.specs.declared.statuses.Status.{Status as AStatus};
ghost use Rattle.bg_c.specs.declared.statuses.Status.TheVariants.{NotOpen};

use crate::handle::Handle;
use crate::parties::play::why_after;
use crate::rooms::{give_beside, set};
use crate::statuses::Status;
use crate::turns::put_move;
use bg_board::{Die, Player};
use bg_match::{Action, Actor, Level, Number, Record, entry_of};
use bg_parties::{Party, RoleFault};
use bg_party::ChooseFault;
use bg_text::{level_word, parse_action, put_text};
use bg_turns::Dice;
use std::alloc::{AllocError, Global};

/// The dice with which a roll is tried: whether it follows does not depend on them.
pub(crate) const TRIAL_DICE: Dice = Dice {
    first: Die::One,
    second: Die::One,
};

/// Adds an offer to resign, as it is claimed.
fn put_offer(out: &mut Vec<u8>, level: Level) -> Result<(), AllocError>
    ensures { OnOk result (out.new.items ≡ out.old.items ++ action_text (Resign level)) }
{
    put_text(out, "resign ")?;
    put_text(out, level_word(level))
}

/// Adds an action, as it is claimed.
fn put_action(out: &mut Vec<u8>, action: &Action) -> Result<(), AllocError>
    ensures { OnOk result (out.new.items ≡ out.old.items ++ action_text action.now) }
{
    match action {
        Action::Roll => put_text(out, "roll"),
        Action::Double => put_text(out, "double"),
        Action::Take => put_text(out, "take"),
        Action::Drop => put_text(out, "drop"),
        Action::Move(turn) => put_move(out, Player::X, turn),
        Action::Resign(level) => put_offer(out, *level),
        Action::Accept => put_text(out, "accept"),
        Action::Reject => put_text(out, "reject"),
    }
}

/// Returns the number and the text of a party's last claim; 0 and no text where it has none.
fn claim(alloc: Global, party: &Party) -> Result<(Number, Vec<u8>), Status>
    ensures { MakesClaim party.now result }
{
    let mut text = Vec::new(alloc);
    match party.claim() {
        Some((number, action)) => {
            put_action(&mut text, &action)?;
            Ok((number, text))
        }
        None => Ok((0, text)),
    }
}

/// Writes the last claim of a seat, such as `move 8-5 6-5`, and sets `number` to that of the entry
/// that shall answer it. Where it has none, and for another party, `number` is 0 and there is no
/// text. `number` is set where the result is BG_OK.
#[unsafe(no_mangle)]
pub extern "C" fn bg_proved_party_claim(
    alloc: Global,
    handle: &mut Handle,
    number: &mut u32,
    out: &mut [u8],
    needed: &mut usize,
) -> u32
    ensures same { handle.new.value ≡ handle.old.value }
    ensures closed { handle.old.value ≡ None → (result ≡ status_code NotOpen) × (number.new ≡ number.old)
        × (out.new ≡ out.old) × (needed.new ≡ needed.old) }
    ensures claim { (party : Held) → handle.old.value ≡ Some party → (made : Result (ℕ × Vec ℕ) AStatus)
        × MakesClaim party made × GivesBeside made out.old needed.old number.old result out.new needed.new number.new }
{
    let Some(party) = handle.take(alloc) else {
        return Status::NotOpen.code();
    };
    let made = claim(alloc, &party);
    handle.put(party);
    give_beside(made, number, out, needed).code()
}

/// Returns the player of a number, 1 X or 2 O.
fn player_numbered(number: u32) -> Option<Player>
    ensures { result ≡ player_numbered number }
{
    match number {
        1 => Some(Player::X),
        2 => Some(Player::O),
        _ => None,
    }
}

/// Returns the number under which a player could claim an action by this record, if he has no claim
/// that is not answered.
fn try_action(log: &Record, player: Player, action: &Action) -> Result<Number, ChooseFault>
    ensures { MayClaim log.now player None action.now result }
{
    let Actor::Seat(acting) = log.actor() else {
        return Err(ChooseFault::NotYourTurn);
    };
    if acting != player {
        return Err(ChooseFault::NotYourTurn);
    }
    let entry = entry_of(action.copy(), Some(TRIAL_DICE)).unwrap();
    if let Err(fault) = log.check(&entry) {
        return Err(ChooseFault::Illegal(fault));
    }
    Ok(log.len() + 1)
}

/// Tries the action whose text this is, for a player.
fn try_text(party: &Party, player: Player, text: &[u8], why: &mut u32) -> Result<Number, Status>
    ensures { TriesOf party.now player text.now why.old result why.new }
{
    let action = parse_action(text)?;
    let tried = match try_action(party.held(), player, &action) {
        Ok(number) => Ok(number),
        Err(fault) => Err(RoleFault::Core(fault)),
    };
    *why = why_after(tried, *why);
    Ok(tried?)
}

/// Tries the action whose text this is, for the player of a number.
fn try_numbered(party: &Party, player: u32, text: &[u8], why: &mut u32) -> Result<Number, Status>
    ensures { TriesText party.now player text.now why.old result why.new }
{
    let Some(player) = player_numbered(player) else {
        return Err(Status::BadArgument);
    };
    try_text(party, player, text, why)
}

/// Tries whether a player (1 X, 2 O) could claim an action by the record of a party, and claims
/// nothing. Where the result is BG_OK, `number` is that of the entry that would answer it. `why` is
/// set where it is BG_ILLEGAL. Else they are as before.
///
/// Returns BG_BAD_ARGUMENT where there is no such player; BG_NOT_AN_ACTION where the text is no
/// action's; else BG_NOT_YOUR_TURN or BG_ILLEGAL, as of a seat that has no other claim.
#[unsafe(no_mangle)]
pub extern "C" fn bg_proved_party_try(
    alloc: Global,
    handle: &mut Handle,
    player: u32,
    action: &[u8],
    number: &mut u32,
    why: &mut u32,
) -> u32
    ensures same { handle.new.value ≡ handle.old.value }
    ensures closed { handle.old.value ≡ None → (result ≡ status_code NotOpen) × (number.new ≡ number.old)
        × (why.new ≡ why.old) }
    ensures tries { (party : Held) → handle.old.value ≡ Some party → (made : Result ℕ AStatus)
        × TriesText party player action.now why.old made why.new × Sets made number.old result number.new }
{
    let Some(party) = handle.take(alloc) else {
        return Status::NotOpen.code();
    };
    let made = try_numbered(&party, player, action, why);
    handle.put(party);
    set(made, number)
}
