//! The start of a cell with dice.
ghost use Rattle.std.specs.Prelude.{◌≡◌, ◌==◌, ◌↔◌, ℕ, List, IsTrue, MatchOption, true};
ghost use Rattle.std.specs.List.{All};
ghost use Rattle.bg_mat.specs.Rows.Cells.{AreDice, BeginsDice, SaysCannotMove, SaysUnknown};
ghost use Rattle.bg_turns.specs.declared.throws.Dice.{Dice as DiceOf};

use crate::rows::words::{skip_word, split_blanks, split_word};
use bg_board::Die;
use bg_turns::Dice;

/// Reads dice from three bytes, as in `31:`.
fn read_dice(word: &[u8]) -> Option<Dice>
    ensures { MatchOption result ((dice : DiceOf) → AreDice word.now dice → ⊥) (AreDice word.now) }
{
    match word {
        [first @ b'1'..=b'6', second @ b'1'..=b'6', b':'] => Some(Dice {
            first: Die::new(first - b'0')?,
            second: Die::new(second - b'0')?,
        }),
        _ => None,
    }
}

/// Returns the dice that a text begins with, as in `31:`, and what follows them, with or without
/// blanks between.
pub(crate) fn split_dice(text: &[u8]) -> Option<(Dice, &[u8])>
    ensures { MatchOption result ((dice : DiceOf) (rest : List ℕ) → BeginsDice text.now dice rest → ⊥)
        (λ found. BeginsDice text.now found.0 found.1.now) }
{
    let Some((word, rest)) = split_blanks(text).1.split_at_checked(3) else {
        return None;
    };
    match read_dice(word) {
        Some(dice) => Some((dice, rest)),
        None => None,
    }
}

/// Returns what follows the words `Cannot Move` at the start of a text.
pub(crate) fn skip_cannot_move(text: &[u8]) -> Option<&[u8]>
    ensures { MatchOption result ((rest : List ℕ) → SaysCannotMove text.now rest → ⊥)
        (λ rest. SaysCannotMove text.now rest.now) }
{
    skip_word(skip_word(text, b"Cannot")?, b"Move")
}

/// Returns whether all bytes are question marks.
fn is_unknown(word: &[u8]) -> bool
    ensures { IsTrue result ↔ All (λ byte. (byte == 63) ≡ true) word.now }
{
    word.iter().all(|byte| *byte == b'?')
}

/// Returns what follows a word of question marks at the start of a text.
pub(crate) fn skip_unknown(text: &[u8]) -> Option<&[u8]>
    ensures { MatchOption result ((rest : List ℕ) → SaysUnknown text.now rest → ⊥)
        (λ rest. SaysUnknown text.now rest.now) }
{
    match split_word(text) {
        Some((word, rest)) if is_unknown(word) => Some(rest),
        _ => None,
    }
}
