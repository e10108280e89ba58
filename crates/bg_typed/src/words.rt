//! The words of a typed turn.
ghost use Rattle.std.specs.Prelude.{◌↔◌, IfErr, IfOk, IsTrue, []};
ghost use Rattle.bg_mat.specs.Legs.{RefusesLegs};
ghost use Rattle.bg_typed.specs.TypedWords.{IsMoveWord, SkipsMove, TellsWords};

use arrayvec::ArrayVec;
use bg_mat::{LegFault, Legs, add_word, split_word};

/// Returns whether a word says that a movement follows.
fn is_move(word: &[u8]) -> bool
    ensures { IsTrue result ↔ IsMoveWord word.now }
{
    matches!(word, b"m" | b"move")
}

/// Returns what follows the word `m` or `move` at the start of a text. Returns the whole text where
/// it begins with another word or with none.
pub(crate) fn skip_move(text: &[u8]) -> &[u8]
    ensures { SkipsMove text.now result.now }
{
    let Some((word, rest)) = split_word(text) else {
        return text;
    };
    if is_move(word) { rest } else { text }
}

/// Reads the legs that all words of a text spell.
pub(crate) fn read_legs(text: &[u8]) -> Result<Legs, LegFault>
    ensures told { IfOk result (λ legs. TellsWords text.now legs.items) }
    ensures fault { IfErr result (RefusesLegs (TellsWords text.now) []) }
{
    let mut legs = ArrayVec::new();
    let mut too_many = false;
    let mut rest = text;
    while let Some((word, behind)) = split_word(rest) {
        rest = behind;
        match add_word(&mut legs, word) {
            Ok(()) => {}
            Err(LegFault::TooMany) => too_many = true,
            Err(LegFault::NotAMovement) => return Err(LegFault::NotAMovement),
        }
    }
    if too_many {
        Err(LegFault::TooMany)
    } else {
        Ok(legs)
    }
}
