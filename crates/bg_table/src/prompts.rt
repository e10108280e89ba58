//! The line that tells a player whose turn it is, and what the player may do.
ghost use Rattle.std.specs.Prelude.{◌≡◌, ◌++◌, IfOk, OnOk};
ghost use Rattle.bg_table.specs.Prompts.{IsPrompt, answers_words, prompt_words, said, turns_words};

use crate::offers::{Offers, offered};
use bg_board::Player;
use bg_match::{Actor, Standing};
use bg_text::{letter, put_text};
use std::alloc::{AllocError, Global};

/// Returns the line that tells a player whose turn it is and, if it is theirs, what they may do.
/// For example `your turn, X: roll, double, resign normal, resign gammon, resign backgammon`.
///
/// # Errors
/// AllocError where there is no memory for it.
pub fn prompt_text(
    alloc: Global,
    standing: &Standing,
    reader: Player,
) -> Result<Vec<u8>, AllocError>
    ensures { IfOk result (λ text. IsPrompt standing.now reader text.items) }
{
    let mut out = Vec::new(alloc);
    let offers = offered(standing, reader);
    put_prompt(&mut out, standing.actor(), reader, offers)?;
    Ok(out)
}

/// Appends that line.
#[tactic(auto, unfolding(crate::specs::Prompts::prompt_words))]
pub(crate) fn put_prompt(
    out: &mut Vec<u8>,
    actor: Actor,
    reader: Player,
    offers: Offers,
) -> Result<(), AllocError>
    ensures { OnOk result (out.new.items ≡ out.old.items ++ prompt_words actor reader offers) }
{
    match (actor, reader) {
        (Actor::Nobody, _) => put_text(out, "the match is over\n"),
        (Actor::Referee, _) => put_text(out, "it is the referee's turn\n"),
        (Actor::Seat(Player::X), Player::O) => put_text(out, "it is X's turn\n"),
        (Actor::Seat(Player::O), Player::X) => put_text(out, "it is O's turn\n"),
        (Actor::Seat(_), _) => {
            put_text(out, "your turn, ")?;
            put_text(out, letter(reader))?;
            put_text(out, ": ")?;
            put_answers(out, offers)?;
            put_turns(out, offers)
        }
    }
}

/// Appends what may be done before the dice are rolled, and what answers a double or an offer to
/// resign.
#[tactic(auto, unfolding(crate::specs::Prompts::answers_words))]
fn put_answers(out: &mut Vec<u8>, offers: Offers) -> Result<(), AllocError>
    ensures { OnOk result (out.new.items ≡ out.old.items ++ answers_words offers) }
{
    put_where(out, offers.roll, "roll, ")?;
    put_where(out, offers.double, "double, ")?;
    put_where(out, offers.take, "take, ")?;
    put_where(out, offers.drop, "drop")?;
    put_where(out, offers.accept, "accept, ")?;
    put_where(out, offers.reject, "reject")
}

/// Appends whether a turn may be played, and whether the player may offer to resign. Ends the line.
#[tactic(auto, unfolding(crate::specs::Prompts::turns_words))]
fn put_turns(out: &mut Vec<u8>, offers: Offers) -> Result<(), AllocError>
    ensures { OnOk result (out.new.items ≡ out.old.items ++ turns_words offers) }
{
    put_where(out, offers.turn, "move .. (`legal` lists the turns), ")?;
    put_where(
        out,
        offers.resign,
        "resign normal, resign gammon, resign backgammon",
    )?;
    put_text(out, "\n")
}

/// Appends a text if a condition holds.
fn put_where(out: &mut Vec<u8>, holds: bool, text: &str) -> Result<(), AllocError>
    ensures { OnOk result (out.new.items ≡ out.old.items ++ said holds text.now) }
{
    if holds {
        return put_text(out, text);
    }
    Ok(())
}
