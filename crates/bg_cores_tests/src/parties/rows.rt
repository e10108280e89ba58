//! Rows of calls of a party with what each comes to: the words of the tests of parties.
use crate::checks::check_number;
use crate::parties::{resigns, sends, want};
use bg_match::{Action, Level, Number};
use bg_parties::{NotUnderWay, Party, RoleFault, Taken};
use bg_party::{ChooseFault, Learned};
use bg_referee::{DueFault, TakeOutcome};
use bg_wire::Slot;
use std::process::Abort;

/// What a party makes of a packet, in a form that constants have.
#[derive(Clone, Copy, PartialEq, Eq)]
pub(crate) enum Gives {
    /// Nothing comes of it, and the record has not grown.
    Nothing,
    NotYourTurn,
    /// An answer to this party.
    Answer(u8),
    /// The claim is the entry of this number, by which the record has grown.
    Accepted(Number),
    /// A follower is not of that match.
    OtherMatch,
}

/// A call of a party and what it comes to, or what the party then has.
#[derive(Clone, Copy)]
pub(crate) enum Row {
    /// It is handed a word with the dice 3 1.
    Due(Result<Number, RoleFault<DueFault>>),
    /// It chooses to roll.
    Roll(Result<Number, RoleFault<ChooseFault>>),
    /// It chooses to give the match up.
    Resign(Result<Number, RoleFault<ChooseFault>>),
    /// It takes what watcher 3 wants, who holds nothing of the match of this id.
    Want(u64, Gives),
    /// It takes this seat's claim of entry 2, that it gives the match up.
    Claim(u8, Gives),
    /// A save begins, for this slot and of this number, with a text.
    Save(Slot, u32),
    /// No save begins.
    NoSave,
    /// The save of this number is marked.
    Mark(u32, Result<(), NotUnderWay>),
    /// The save is abandoned.
    Abandon,
    /// Its tick sends nothing.
    Silence,
    /// Its tick sends the referee what this party wants, who holds nothing.
    Asks(u8),
    /// Its tick sends the referee this seat's claim, that it gives the match up.
    Claims(u8),
    /// So many entries are saved.
    Saved(Option<Number>),
    /// It holds so many entries.
    Held(Number),
    /// It has no claim.
    NoClaim,
}

/// Whether this is made of a packet.
fn is_given(taken: &Taken, gives: Gives) -> bool {
    match taken {
        Taken::Referee(TakeOutcome::Answer(to, _)) => gives == Gives::Answer(*to),
        Taken::Referee(TakeOutcome::Accepted(number)) => {
            gives == Gives::Accepted(*number) && taken.grows()
        }
        Taken::Referee(TakeOutcome::Nothing) => gives == Gives::Nothing,
        Taken::Referee(TakeOutcome::NotYourTurn) => gives == Gives::NotYourTurn,
        Taken::Follower(Learned::OtherMatch) => gives == Gives::OtherMatch,
        _ => false,
    }
}

fn takes_a_want(party: &mut Party, id: u64, gives: Gives) -> bool {
    is_given(&party.take(&want(id, 3), 0), gives)
}

fn takes_a_claim(party: &mut Party, sender: u8, gives: Gives) -> bool {
    let (1 | 2) = sender else {
        return false;
    };
    is_given(&party.take(&resigns(sender), 0), gives)
}

/// Whether a save begins for this slot and of this number, with a text.
fn begins(party: &mut Party, slot: Slot, save: u32) -> bool {
    match party.to_save() {
        Ok((to, number, text)) => to == slot && number == save && !text.is_empty(),
        Err(_) => false,
    }
}

fn chooses(
    party: &mut Party,
    action: Action,
    expected: Result<Number, RoleFault<ChooseFault>>,
) -> bool {
    party.choose(action) == expected
}

fn begins_none(party: &mut Party) -> bool {
    party.to_save().is_err()
}

fn asks(party: &mut Party, sender: u8) -> bool {
    sender > 0 && sends(party, &want(1, sender))
}

fn claims(party: &mut Party, sender: u8) -> bool {
    (sender == 1 || sender == 2) && sends(party, &resigns(sender))
}

/// Whether the call comes to what the row says.
fn comes_to(party: &mut Party, row: &Row) -> bool {
    match row {
        Row::Due(expected) => party.due(12) == *expected,
        Row::Roll(expected) => chooses(party, Action::Roll, *expected),
        Row::Resign(expected) => chooses(party, Action::Resign(Level::Normal), *expected),
        Row::Want(id, gives) => takes_a_want(party, *id, *gives),
        Row::Claim(sender, gives) => takes_a_claim(party, *sender, *gives),
        Row::Silence => party.tick().is_empty(),
        Row::Asks(sender) => asks(party, *sender),
        Row::Claims(sender) => claims(party, *sender),
        _ => saves(party, row),
    }
}

/// Whether the call of a save comes to what the row says, if it is about that.
fn saves(party: &mut Party, row: &Row) -> bool {
    match row {
        Row::Save(slot, save) => begins(party, *slot, *save),
        Row::NoSave => begins_none(party),
        Row::Mark(save, expected) => party.mark_saved(*save) == *expected,
        Row::Abandon => {
            party.abandon_save();
            true
        }
        _ => has(party, row),
    }
}

/// Whether the party has what the row says, if it is about that.
fn has(party: &Party, row: &Row) -> bool {
    match row {
        Row::Saved(expected) => party.saved() == *expected,
        Row::Held(count) => party.held().len() == *count,
        Row::NoClaim => party.claim().is_none(),
        _ => false,
    }
}

/// Every call comes to what its row says.
pub(crate) fn check_rows(rt: &impl Abort, party: &mut Party, rows: &[Row]) {
    for (i, row) in rows.iter().enumerate() {
        check_number(rt, "row", i, comes_to(party, row));
    }
}
