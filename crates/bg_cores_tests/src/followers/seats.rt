//! Rows of calls of a seat with what each gives: the words of the tests of seats.
use super::saves::is_save;
use super::{MOVED, NONE, OPENING, entries, half_a_move, opening_move, packet, want};
use crate::checks::{check_number, check_row};
use crate::lasting::lasting;
use bg_board::{Die, Player};
use bg_match::{Action, Entry, Number, Rules};
use bg_party::{ChooseFault, Learned, Seat};
use bg_wire::{SaveRefusal, Slot};
use std::process::Abort;

/// A call of a seat and what it gives, or what the seat then has.
#[derive(Clone, Copy)]
pub(crate) enum Row {
    /// It is told the entry of this number, and another behind it unless that has no bytes.
    Told(u8, &'static [u8], &'static [u8], Learned),
    /// It takes the packet of this kind in this match, with these bytes.
    Takes(u8, u8, &'static [u8], &'static [u8], Learned),
    /// It claims to roll.
    Roll(Result<Number, ChooseFault>),
    /// It claims 8-5 6-5.
    Move(Result<Number, ChooseFault>),
    /// It claims 8-5 alone.
    HalfAMove(Result<Number, ChooseFault>),
    /// It has no claim.
    NoClaim,
    /// Its last claim is 8-5 6-5 as entry 2.
    TheClaim,
    /// Its record is the opening 3 1, and no more.
    TheOpening,
    /// Its tick sends what seat X wants, who holds so many entries.
    Asks(Number),
    /// Its tick sends the claim of X, of 8-5 6-5 as entry 2.
    Claims,
    /// Its tick sends nothing.
    Silence,
    /// The next save has this slot, this number and this text, and is not marked.
    NextSave(Slot, u32, &'static [u8]),
    /// The next save has this slot, this number and so many bytes, and is not marked.
    SizeOfSave(Result<(Slot, u32, usize), SaveRefusal>),
    /// The next save has this slot and this number, and is marked.
    Save(Slot, u32),
}

/// What a seat learns from these entries.
pub(crate) fn told(seat: &mut Seat, number: u8, first: &[u8], second: &[u8]) -> Option<Learned> {
    let packet = entries(number, first, second)?;
    Some(seat.take(&packet))
}

/// Whether a seat learns this from these entries.
fn learns(seat: &mut Seat, number: u8, first: &[u8], second: &[u8], learned: Learned) -> bool {
    told(seat, number, first, second) == Some(learned)
}

/// What a seat learns from the packet of this kind in match `id`, with these bytes.
fn taken(seat: &mut Seat, kind: u8, id: u8, head: &[u8], tail: &[u8]) -> Option<Learned> {
    let packet = packet(kind, id, head, tail, &NONE)?;
    Some(seat.take(&packet))
}

/// Whether a seat learns this from that packet.
fn takes(seat: &mut Seat, kind: u8, id: u8, head: &[u8], tail: &[u8], learned: Learned) -> bool {
    taken(seat, kind, id, head, tail) == Some(learned)
}

/// Whether the claim of an action comes to this.
pub(crate) fn chooses(
    seat: &mut Seat,
    action: Action,
    expected: Result<Number, ChooseFault>,
) -> bool {
    seat.choose(action) == expected
}

/// Whether the seat of X sends what it wants, who holds so many entries.
fn asks(seat: &mut Seat, held: Number) -> bool {
    seat.tick() == Some(want(1, held))
}

/// Whether the last claim is the opening move as entry 2.
fn has_the_claim(seat: &Seat) -> bool {
    seat.claim() == Some((2, Action::Move(opening_move())))
}

/// Whether the record is the opening 3 1, and no more.
fn holds_the_opening(seat: &Seat) -> bool {
    let opening = Entry::Opening(Die::Three, Die::One);
    seat.held().len() == 1 && seat.held().entry(1) == Some(&opening)
}

/// Whether the seat of X sends the claim of the opening move as entry 2.
fn sends_the_claim(seat: &mut Seat) -> bool {
    let Some(claim) = packet(2, 1, &[1, 0, 0, 0, 2], &MOVED, &NONE) else {
        return false;
    };
    seat.tick() == Some(claim)
}

/// The slot, the number and the length of the next save, also where the memory for it is refused
/// once.
fn size_of_save(seat: &Seat) -> Result<(Slot, u32, usize), SaveRefusal> {
    let (slot, save, text) = match seat.to_save() {
        Err(SaveRefusal::Memory) => seat.to_save()?,
        other => other?,
    };
    Ok((slot, save, text.len()))
}

fn save(seat: &mut Seat) -> Result<(Slot, u32), SaveRefusal> {
    let (slot, save, _text) = seat.to_save()?;
    seat.mark_saved(save);
    Ok((slot, save))
}

/// Whether the call gives what the row says.
fn gives(seat: &mut Seat, row: &Row) -> bool {
    match row {
        Row::Told(number, first, second, learned) => learns(seat, *number, first, second, *learned),
        Row::Takes(kind, id, head, tail, learned) => takes(seat, *kind, *id, head, tail, *learned),
        Row::Roll(expected) => chooses(seat, Action::Roll, *expected),
        Row::Move(expected) => chooses(seat, Action::Move(opening_move()), *expected),
        Row::HalfAMove(expected) => chooses(seat, Action::Move(half_a_move()), *expected),
        Row::Save(slot, number) => save(seat) == Ok((*slot, *number)),
        _ => sends(seat, row),
    }
}

/// Whether the tick sends what the row says, if it is about that.
fn sends(seat: &mut Seat, row: &Row) -> bool {
    match row {
        Row::Asks(held) => asks(seat, *held),
        Row::Claims => sends_the_claim(seat),
        Row::Silence => seat.tick().is_none(),
        _ => has(seat, row),
    }
}

/// Whether the seat has what the row says, if it is about that.
fn has(seat: &Seat, row: &Row) -> bool {
    match row {
        Row::NoClaim => seat.claim().is_none(),
        Row::TheClaim => has_the_claim(seat),
        Row::TheOpening => holds_the_opening(seat),
        Row::NextSave(slot, number, text) => is_save(seat, *slot, *number, text) == Ok(true),
        Row::SizeOfSave(expected) => size_of_save(seat) == *expected,
        _ => false,
    }
}

/// Every call gives what its row says.
pub(crate) fn check_rows(rt: &impl Abort, seat: &mut Seat, rows: &[Row]) {
    for (i, row) in rows.iter().enumerate() {
        check_number(rt, "row", i, gives(seat, row));
    }
}

/// Whether a fresh seat learns the opening 3 1, told again where the memory for it is refused.
pub(crate) fn learns_the_opening(seat: &mut Seat) -> bool {
    let grew = Some(Learned::Grew(1));
    let learned = told(seat, 1, &OPENING, &NONE);
    if learned == Some(Learned::Memory) {
        return seat.held().is_empty() && told(seat, 1, &OPENING, &NONE) == grew;
    }
    learned == grew
}

/// A seat by these rules that holds nothing. It lasts.
pub(crate) fn fresh(
    rt: &(impl AllocGlobal + Abort),
    player: Player,
    rules: Rules,
) -> &'static mut Seat {
    let seat = Seat::fresh(rt.alloc(), player, 1, 1, rules).expect(rt, "a length from 1 to 99");
    lasting(rt, seat)
}

/// A seat that holds the opening 3 1. It lasts.
pub(crate) fn after_the_opening(
    rt: &(impl AllocGlobal + Abort),
    player: Player,
) -> &'static mut Seat {
    let seat = fresh(rt, player, Rules::One);
    check_row(rt, "the opening", learns_the_opening(seat));
    seat
}
