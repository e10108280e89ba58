//! Typed steps by several dice, cut into steps by one die each.

use bg_board::Step;
use bg_turns::{Dice, Turn};

/// The most steps of a turn.
const MOST_STEPS: usize = 4;

/// Returns a turn with each step that takes several dice cut into one for each die, the larger die
/// first. Returns the turn as it is where that would be more than four steps.
pub(super) fn in_single_dice(turn: Turn, dice: Dice) -> Turn {
    match cut(&turn, dice) {
        Some(cut) => cut,
        None => turn,
    }
}

/// Returns the turn in such steps, if there are at most four.
fn cut(turn: &Turn, dice: Dice) -> Option<Turn> {
    let mut single = Turn::new();
    for step in turn.steps() {
        let mut from = step.from();
        for pips in parts(*step, dice) {
            if from == step.to() {
                break;
            }
            if single.steps().len() >= MOST_STEPS {
                return None;
            }
            let to = from.saturating_sub(pips);
            single.push(Step::new(from, to)?);
            from = to;
        }
    }
    Some(single)
}

/// Returns the pips of the parts of a step, of which the first ones count until its end is reached:
/// those of the dice where it takes several, and else its own.
fn parts(step: Step, dice: Dice) -> [u8; 4] {
    let pips = step.from().saturating_sub(step.to());
    let (one, other) = (dice.first.pips(), dice.second.pips());
    let (larger, smaller) = (one.max(other), one.min(other));
    let both = larger.saturating_add(smaller);
    let takes_more = pips == both.saturating_add(larger) || pips == both.saturating_add(both);
    if pips == both || (dice.is_double() && takes_more) {
        [larger, smaller, larger, smaller]
    } else {
        [pips; 4]
    }
}
