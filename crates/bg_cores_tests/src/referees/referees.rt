//! Referees after the first entries, saved or not, and what brings them there.
use super::packets::{MOVE, NO_DICE, O, OFFER, REJECT, THREE_ONE, X, claim_gives, claimed};
use crate::checks::check_row;
use crate::lasting::lasting;
use bg_match::{Number, Rules};
use bg_referee::{DueFault, Referee, TakeOutcome};
use bg_wire::{SaveRefusal, Slot};
use std::process::Abort;

pub(crate) fn opened(referee: &mut Referee, word: u32) -> Result<Number, DueFault> {
    referee.due(word)
}

pub(crate) fn save(referee: &mut Referee) -> Result<(Slot, u32), SaveRefusal> {
    let (slot, save, _text) = referee.to_save()?;
    referee.mark_saved(save);
    Ok((slot, save))
}

/// A referee by these rules who holds nothing. It lasts, as those below do.
pub(crate) fn fresh_by(rt: &(impl AllocGlobal + Abort), rules: Rules) -> &'static mut Referee {
    let referee = Referee::fresh(rt.alloc(), 1, 1, rules).expect(rt, "a length from 1 to 99");
    lasting(rt, referee)
}

pub(crate) fn fresh(rt: &(impl AllocGlobal + Abort)) -> &'static mut Referee {
    fresh_by(rt, Rules::One)
}

/// A referee who has opened the game with 3 1, and saved nothing.
pub(crate) fn with_the_opening(rt: &(impl AllocGlobal + Abort)) -> &'static mut Referee {
    let referee = fresh(rt);
    check_row(rt, "the opening", opened(referee, THREE_ONE) == Ok(1));
    referee
}

/// A referee who has opened the game with 3 1, and saved that.
pub(crate) fn after_the_opening(rt: &(impl AllocGlobal + Abort)) -> &'static mut Referee {
    let referee = with_the_opening(rt);
    check_row(rt, "the first save", save(referee) == Ok((Slot::One, 1)));
    referee
}

/// A referee who holds the opening 3 1 and 8-5 6-5, and has saved the first.
pub(crate) fn after_the_move(rt: &(impl AllocGlobal + Abort)) -> &'static mut Referee {
    let referee = after_the_opening(rt);
    let is_moved = claim_gives(referee, X, 2, &MOVE, NO_DICE, TakeOutcome::Accepted(2));
    check_row(rt, "the move", is_moved);
    referee
}

/// Appends the entry of this number: an offer to resign by X, or its rejection by O. A claim that
/// lacks memory is sent again.
fn offer(referee: &mut Referee, number: u8) -> bool {
    let (party, action) = if number % 2 == 0 {
        (X, OFFER.as_slice())
    } else {
        (O, REJECT.as_slice())
    };
    let accepted = Some(TakeOutcome::Accepted(Number::from(number)));
    let outcome = claimed(referee, party, number, action, 0);
    if outcome == Some(TakeOutcome::Memory) {
        let unchanged = referee.held().len() == Number::from(number).wrapping_sub(1);
        return unchanged && claimed(referee, party, number, action, 0) == accepted;
    }
    outcome == accepted
}

/// Appends the entries from 2 to `last`.
pub(crate) fn offers(referee: &mut Referee, last: u8) -> bool {
    for number in 2..=last {
        if !offer(referee, number) {
            return false;
        }
    }
    true
}
