//! The dice that are left for the steps of a turn.
ghost use Rattle.std.specs.Prelude.{◌≡◌};
ghost use Rattle.bg_board.specs.Die.{pips};
ghost use Rattle.bg_table.specs.DiceLeft.{AreLeft, judging_pips, other_pips};

use bg_board::{Die, Step};
use bg_turns::Dice;

/// The dice that are left when steps of a turn have been played.
#[derive(Clone, Copy)]
pub(crate) enum DiceLeft {
    /// Both dice. Of equal dice, one is left for each step of a turn.
    Both,
    /// One of two dice.
    One(Die),
    /// No die.
    Neither,
}

/// Returns the dice that are left when so many of the steps have been played.
pub(crate) fn dice_left(dice: Dice, steps: &[Step], playable: u8) -> DiceLeft
    ensures { AreLeft dice steps.now playable result }
{
    match steps.split_first() {
        Some((first, _)) if playable > 0 && !dice.is_double() => {
            if playable == 1 {
                DiceLeft::One(other_die(*first, dice))
            } else {
                DiceLeft::Neither
            }
        }
        _ => DiceLeft::Both,
    }
}

/// Returns the die that is left behind a step, which takes the one that judges it.
fn other_die(step: Step, dice: Dice) -> Die
    ensures { pips result ≡ other_pips step dice }
{
    if judging_die(step, dice).pips() == dice.first.pips() {
        dice.second
    } else {
        dice.first
    }
}

/// Returns the die that judges a step: the one that shows its pips, else the larger one.
pub(crate) fn judging_die(step: Step, dice: Dice) -> Die
    ensures { pips result ≡ judging_pips step dice }
{
    let wanted = step.from() - step.to();
    if dice.first.pips() == wanted {
        dice.first
    } else if dice.second.pips() == wanted {
        dice.second
    } else {
        dice.larger()
    }
}
