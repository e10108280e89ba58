//! The actions that a player may take now, in the state of a match.
ghost use Rattle.std.specs.Prelude.{◌≡◌, ◌++◌, IfOk, OnOk};
ghost use Rattle.bg_states.specs.May.{AddsMay, is_first_behind, may_text, offer_text, word_text};

use crate::lists::put_comma;
use bg_board::Player;
use bg_match::Standing;
use bg_table::{Offers, offered};
use bg_text::put_text;
use std::alloc::AllocError;

/// Adds the list `may`: the words of the actions that the player is offered.
pub(crate) fn put_may(
    out: &mut Vec<u8>,
    standing: &Standing,
    player: Player,
) -> Result<(), AllocError>
    ensures { OnOk result (AddsMay standing.now player out.old.items out.new.items) }
{
    put_list(out, offered(standing, player))?;
    Ok(())
}

/// Adds the list `may` of the offered actions.
#[tactic(auto, unfolding(crate::specs::May::may_text))]
fn put_list(out: &mut Vec<u8>, offers: Offers) -> Result<(), AllocError>
    ensures { OnOk result (out.new.items ≡ out.old.items ++ may_text offers) }
{
    put_text(out, ",\"may\":[")?;
    put_offers(out, offers)?;
    put_text(out, "]")
}

/// Adds the words of the offered actions, with commas between them.
fn put_offers(out: &mut Vec<u8>, offers: Offers) -> Result<(), AllocError>
    ensures { OnOk result (out.new.items ≡ out.old.items ++ offer_text offers) }
{
    let first = put_word(out, true, offers.roll, "roll")?;
    let first = put_word(out, first, offers.double, "double")?;
    let first = put_word(out, first, offers.take, "take")?;
    let first = put_word(out, first, offers.drop, "drop")?;
    let first = put_word(out, first, offers.accept, "accept")?;
    let first = put_word(out, first, offers.reject, "reject")?;
    let first = put_word(out, first, offers.turn, "move")?;
    let _ = put_word(out, first, offers.resign, "resign")?;
    Ok(())
}

/// Adds the word if its action is offered.
///
/// `first` says whether no word has been added before. Returns what `first` is for the next word.
fn put_word(
    out: &mut Vec<u8>,
    first: bool,
    is_offered: bool,
    word: &str,
) -> Result<bool, AllocError>
    ensures added { OnOk result (out.new.items ≡ out.old.items ++ word_text first is_offered word.now) }
    ensures next { IfOk result (λ next. next ≡ is_first_behind first is_offered) }
{
    if !is_offered {
        return Ok(first);
    }
    put_comma(out, first)?;
    put_text(out, "\"")?;
    put_text(out, word)?;
    put_text(out, "\"")?;
    Ok(false)
}
