//! The dice that a secret has for an entry.
ghost use Rattle.std.specs.Prelude.{◌≡◌, false, IfSome, IsTrue, None, Some};
ghost use Rattle.bg_dice.specs.Rolls.{AreAllPassedOver, IsDrawnBehind, dice_at as dice_of_secret, is_passed_over};

use crate::secrets::Secret;
use bg_auto::DiceAttempts;
use bg_match::Number;
use bg_turns::{Dice, dice_of};

/// The dice that a secret has for an entry, and the attempt that gave them.
#[derive(Clone, Copy, Debug, PartialEq, Eq)]
pub struct Drawn {
    pub dice: Dice,
    /// The number of attempts before this one, all of which the rules pass over.
    pub attempt: u16,
}

/// Returns the dice that a secret has for the entry after `before` others. `opens` says whether the
/// entry opens a game; otherwise it is a roll. The dice are those of the first attempt that the
/// rules don't pass over. Returns `None` if they pass over all 65,536.
pub fn drawn_behind(secret: &Secret, before: Number, opens: bool) -> Option<Drawn>
    ensures drawn { IfSome result (λ drawn. IsDrawnBehind secret.now before opens drawn) }
    ensures none { result ≡ None → AreAllPassedOver secret.now before opens }
{
    for attempt in 0..=u16::MAX {
        if let Some(dice) = taken(dice_at(secret, before, attempt), opens) {
            return Some(Drawn { dice, attempt });
        }
    }
    None
}

/// Returns the dice that a secret has at an attempt for the entry after `before` others, if any.
fn dice_at(secret: &Secret, before: Number, attempt: u16) -> Option<Dice>
    ensures { result ≡ dice_of_secret secret.now before attempt }
{
    let attempt = DiceAttempts {
        held: Some(before),
        attempt,
    };
    dice_of(attempt.keyed_word(secret))
}

/// Returns the dice of an attempt, or `None` if the rules pass over it.
fn taken(dice: Option<Dice>, opens: bool) -> Option<Dice>
    ensures some { IfSome result (λ taken. (dice ≡ Some taken) × (is_passed_over opens dice ≡ false)) }
    ensures none { result ≡ None → IsTrue (is_passed_over opens dice) }
{
    match dice {
        Some(dice) if !opens || !dice.is_double() => Some(dice),
        _ => None,
    }
}
