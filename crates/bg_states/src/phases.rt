//! What happens next, in the state of a match.
ghost use Rattle.std.specs.Prelude.{◌≡◌, ◌++◌, OnOk};
ghost use Rattle.bg_states.specs.Phases.{dice_in, dice_text, phase_text, throw_text, winner_in, words_text};

use crate::headings::letter_of;
use crate::lists::put_numbers;
use bg_board::Player;
use bg_match::{Phase, Standing};
use bg_text::{put_phase, put_text};
use bg_turns::Dice;
use std::alloc::AllocError;

/// Adds what happens next, in words; whose turn it is; the dice that are to be played; and who has
/// won the match.
#[tactic(auto, unfolding(crate::specs::Phases::phase_text))]
pub(crate) fn put_phases(out: &mut Vec<u8>, standing: &Standing) -> Result<(), AllocError>
    ensures { OnOk result (out.new.items ≡ out.old.items ++ phase_text standing.now) }
{
    put_words(out, standing)?;
    put_throw(out, standing.phase())?;
    Ok(())
}

/// Adds what happens next, in words, and the letter of the player who acts. There is no letter
/// while the referee acts, or after the match.
#[tactic(auto, unfolding(crate::specs::Phases::words_text))]
fn put_words(out: &mut Vec<u8>, standing: &Standing) -> Result<(), AllocError>
    ensures { OnOk result (out.new.items ≡ out.old.items ++ words_text standing.now) }
{
    put_text(out, ",\"phase\":\"")?;
    put_phase(out, standing)?;
    put_text(out, "\",\"turn\":\"")?;
    put_text(out, letter_of(standing.actor().seat()))?;
    Ok(())
}

/// Adds the dice that are to be played, and the letter of the player who has won the match, if any.
#[tactic(auto, unfolding(crate::specs::Phases::throw_text))]
fn put_throw(out: &mut Vec<u8>, phase: Phase) -> Result<(), AllocError>
    ensures { OnOk result (out.new.items ≡ out.old.items ++ throw_text phase) }
{
    put_text(out, "\",\"dice\":")?;
    put_dice(out, dice_of(phase))?;
    put_text(out, ",\"winner\":\"")?;
    put_text(out, letter_of(winner(phase)))?;
    put_text(out, "\"")?;
    Ok(())
}

/// Returns the dice that are to be played, if any. An offer to resign keeps the dice that had been
/// rolled before it.
fn dice_of(phase: Phase) -> Option<Dice>
    ensures { result ≡ dice_in phase }
{
    match phase {
        Phase::ToMove(_, dice) => Some(dice),
        Phase::Resigned(_, _, dice) => dice,
        _ => None,
    }
}

/// Returns the player who has won the match, if it is over.
fn winner(phase: Phase) -> Option<Player>
    ensures { result ≡ winner_in phase }
{
    match phase {
        Phase::Over(player) => Some(player),
        _ => None,
    }
}

/// Adds dice as a list of two numbers from 1 to 6, or as an empty list if there are none.
fn put_dice(out: &mut Vec<u8>, dice: Option<Dice>) -> Result<(), AllocError>
    ensures { OnOk result (out.new.items ≡ out.old.items ++ dice_text dice) }
{
    match dice {
        None => put_numbers(out, &[]),
        Some(dice) => put_numbers(out, &[dice.first.pips(), dice.second.pips()]),
    }
}
