//! Rows of calls of a referee with what each comes to: the words of the tests of referees.
use super::packets::{
    moved, opening, rolled, taken_by_rules, tells_next, tells_the_move_and_the_roll,
    tells_the_opening, tells_the_roll,
};
use super::pushes::{first_push_goes_to, pushes_to, pushes_to_both};
use super::referees::{offers, save};
use super::saves::is_next_save;
use crate::checks::check_number;
use bg_match::{Actor, Entry, EntryFault, Number, Rules};
use bg_referee::{DueFault, Referee, TakeOutcome};
use bg_wire::Slot;
use std::process::Abort;

/// What the referee makes of a packet, in a form that constants have.
#[derive(Clone, Copy)]
pub(crate) enum Gives {
    OtherMatch,
    Nothing,
    Ahead,
    NotYourTurn,
    WordRefused,
    Illegal(EntryFault),
    /// The claim is the entry of this number.
    Accepted(Number),
    /// A party is told the opening, and no more.
    TheOpening(u8),
    /// A party is told the roll, and no more.
    TheRoll(u8),
    /// A party is told the move and the roll.
    TheMoveAndTheRoll(u8),
    /// Party 255 is told the entries behind the first so many, this many.
    TheNext(u8, usize),
}

/// An entry, in a form that constants have.
#[derive(Clone, Copy)]
pub(crate) enum Told {
    /// 3 1.
    Opening,
    /// 8-5 6-5.
    Move,
    /// 3 1, by O.
    Roll,
    Pass,
}

/// A call of a referee and what it comes to, or what the referee then has.
#[derive(Clone, Copy)]
pub(crate) enum Row {
    /// It is handed a word. Where nothing is due by it, the record is as it was.
    Due(u32, Result<Number, DueFault>),
    /// A party wants the entries behind the first so many.
    Want(u8, u8, Gives),
    /// A party claims an action as the entry of this number; the word is for its dice.
    Claim(u8, u8, &'static [u8], u32, Gives),
    /// A packet by these rules, of this kind and match, with these bytes.
    Packet(u8, u8, u8, &'static [u8], &'static [u8], u32, Gives),
    /// The entries up to this one are offers to resign and their rejections.
    Offers(u8),
    /// The next save has this slot and this number, and is marked.
    Save(Slot, u32),
    /// The next save has this slot, this number and this text, and is not marked.
    NextSave(Slot, u32, &'static [u8]),
    /// So many entries are saved.
    Saved(Number),
    /// It holds so many entries.
    Held(Number),
    /// Its entry of this number is this one.
    Holds(Number, Told),
    /// It is the referee who acts.
    RefereeActs,
    /// No seat acted by the entry of this number.
    ByNoSeat(Number),
    /// The tick sends nothing.
    Silence,
    /// The tick sends the entry of this number to this party, and nothing else.
    Push(u8, Number, Told),
    /// The tick sends it to these two, in this order, and nothing else.
    PushToBoth(u8, u8, Number, Told),
    /// The tick sends its first packet to this party.
    FirstPush(u8),
}

pub(crate) fn entry_of(told: Told) -> Entry {
    match told {
        Told::Opening => opening(),
        Told::Move => moved(),
        Told::Roll => rolled(),
        Told::Pass => Entry::Passed,
    }
}

/// Whether the referee makes this of a packet.
fn is_given(referee: &Referee, taken: &TakeOutcome, gives: Gives) -> bool {
    match gives {
        Gives::TheOpening(party) => tells_the_opening(taken, party),
        Gives::TheRoll(party) => tells_the_roll(taken, party),
        Gives::TheMoveAndTheRoll(party) => tells_the_move_and_the_roll(taken, party),
        Gives::TheNext(held, count) => tells_next(referee, taken, held, count),
        _ => match outcome_of(gives) {
            Some(outcome) => *taken == outcome,
            None => false,
        },
    }
}

/// The outcome, where it is no answer.
fn outcome_of(gives: Gives) -> Option<TakeOutcome> {
    Some(match gives {
        Gives::OtherMatch => TakeOutcome::OtherMatch,
        Gives::Nothing => TakeOutcome::Nothing,
        Gives::Ahead => TakeOutcome::Ahead,
        Gives::NotYourTurn => TakeOutcome::NotYourTurn,
        Gives::WordRefused => TakeOutcome::WordRefused,
        Gives::Illegal(fault) => TakeOutcome::Illegal(fault),
        Gives::Accepted(number) => TakeOutcome::Accepted(number),
        _ => return None,
    })
}

/// Whether the referee makes this of a packet by these rules, of this kind and match, with these
/// bytes.
fn takes(
    referee: &mut Referee,
    rules: u8,
    kind: u8,
    id: u8,
    head: &[u8],
    tail: &[u8],
    word: u32,
    gives: Gives,
) -> bool {
    match taken_by_rules(referee, rules, kind, id, head, tail, word) {
        Some(taken) => is_given(referee, &taken, gives),
        None => false,
    }
}

/// Whether the referee makes this of what a party wants behind the first so many entries.
fn answers(referee: &mut Referee, party: u8, held: u8, gives: Gives) -> bool {
    let rules = rules_of(referee);
    takes(referee, rules, 1, 1, &[party, 0, 0, 0, held], &[], 0, gives)
}

/// Whether the referee makes this of a claim.
fn judges(
    referee: &mut Referee,
    party: u8,
    number: u8,
    action: &[u8],
    word: u32,
    gives: Gives,
) -> bool {
    let rules = rules_of(referee);
    let head = [party, 0, 0, 0, number];
    takes(referee, rules, 2, 1, &head, action, word, gives)
}

/// The number of the rules of the match.
fn rules_of(referee: &Referee) -> u8 {
    match referee.held().rules() {
        Rules::One => 1,
        Rules::Two => 2,
    }
}

fn dues(referee: &mut Referee, word: u32, expected: Result<Number, DueFault>) -> bool {
    let before = referee.held().len();
    let due = referee.due(word);
    due == expected && (due.is_ok() || referee.held().len() == before)
}

/// Whether the next save has this slot and this number; it is marked.
fn saves(referee: &mut Referee, slot: Slot, number: u32) -> bool {
    save(referee) == Ok((slot, number))
}

/// Whether the call comes to what the row says.
fn comes_to(referee: &mut Referee, row: &Row) -> bool {
    match row {
        Row::Due(word, expected) => dues(referee, *word, *expected),
        Row::Want(party, held, gives) => answers(referee, *party, *held, *gives),
        Row::Claim(party, number, action, word, gives) => {
            judges(referee, *party, *number, action, *word, *gives)
        }
        Row::Packet(rules, kind, id, head, tail, word, gives) => {
            takes(referee, *rules, *kind, *id, head, tail, *word, *gives)
        }
        Row::Offers(last) => offers(referee, *last),
        Row::Save(slot, number) => saves(referee, *slot, *number),
        _ => sends(referee, row),
    }
}

/// Whether the tick sends what the row says, if it is about that.
fn sends(referee: &mut Referee, row: &Row) -> bool {
    match row {
        Row::Silence => referee.tick().is_empty(),
        Row::Push(party, number, told) => pushes_to(referee, *party, *number, *told),
        Row::PushToBoth(party, other, number, told) => {
            pushes_to_both(referee, *party, *other, *number, *told)
        }
        Row::FirstPush(party) => first_push_goes_to(referee, *party),
        _ => has(referee, row),
    }
}

/// Whether the referee has what the row says, if it is about that.
fn has(referee: &Referee, row: &Row) -> bool {
    match row {
        Row::NextSave(slot, number, text) => is_next_save(referee, *slot, *number, text)
            == Ok(true),
        Row::Saved(count) => referee.saved() == *count,
        Row::Held(count) => referee.held().len() == *count,
        Row::Holds(number, told) => holds_told(referee, *number, *told),
        Row::RefereeActs => referee.held().actor() == Actor::Referee,
        Row::ByNoSeat(number) => referee.held().by(*number).is_none(),
        _ => false,
    }
}

/// Whether the entry of this number is this one.
fn holds_told(referee: &Referee, number: Number, told: Told) -> bool {
    referee.held().entry(number) == Some(&entry_of(told))
}

/// Every call comes to what its row says.
pub(crate) fn check_rows(rt: &impl Abort, referee: &mut Referee, rows: &[Row]) {
    for (i, row) in rows.iter().enumerate() {
        check_number(rt, "row", i, comes_to(referee, row));
    }
}
