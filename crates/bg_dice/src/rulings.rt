//! What a secret says about an entry.
ghost use Rattle.std.specs.Prelude.{◌≡◌};
ghost use Rattle.bg_dice.specs.Rolls.{IsRuling, dice_in as dice_of_entry, opens_game as is_opening};

use crate::rolls::{Drawn, drawn_behind};
use crate::secrets::Secret;
use bg_match::{Entry, Number};
use bg_turns::Dice;

/// What a secret says about an entry.
#[derive(Clone, Copy, Debug, PartialEq, Eq)]
pub enum Ruling {
    /// The entry has no dice.
    NoDice,
    /// The entry has the dice of the secret, from this attempt.
    Own(u16),
    /// The secret has other dice for the entry, or none.
    Other(Option<Drawn>),
}

/// Returns what a secret says about the entry after `before` others.
pub fn ruling_of(secret: &Secret, before: Number, entry: &Entry) -> Ruling
    ensures { IsRuling secret.now before entry.now result }
{
    let Some(dice) = dice_in(entry) else {
        return Ruling::NoDice;
    };
    match drawn_behind(secret, before, opens_game(entry)) {
        Some(drawn) if drawn.dice == dice => Ruling::Own(drawn.attempt),
        other => Ruling::Other(other),
    }
}

/// Returns the dice of an entry, if it has any, in the order in which it names them.
fn dice_in(entry: &Entry) -> Option<Dice>
    ensures { result ≡ dice_of_entry entry.now }
{
    match entry {
        Entry::Opening(x, o) => Some(Dice {
            first: *x,
            second: *o,
        }),
        Entry::Rolled(dice) => Some(*dice),
        _ => None,
    }
}

/// Returns whether an entry opens a game.
fn opens_game(entry: &Entry) -> bool
    ensures { result ≡ is_opening entry.now }
{
    matches!(entry, Entry::Opening(_, _))
}
