//! The text of the legal turns.
ghost use Rattle.std.specs.Prelude.{◌≡◌, ◌++◌, IfOk, OnOk};
ghost use Rattle.bg_match.specs.declared.actions.Action.TheVariants.{Move};
ghost use Rattle.bg_text.specs.Boards.BoardText.{line_text};
ghost use Rattle.bg_text.specs.Entries.EntryText.{action_text};
ghost use Rattle.bg_c.specs.Turns.{FindsTurns, mover_of, turns_text};

use bg_board::Player;
use bg_match::{Actor, Entry, Phase, Standing};
use bg_text::{entry_text, put_text};
use bg_turns::{Dice, Turn, legal_turns};
use std::alloc::{AllocError, Global};

/// The number of bytes before an entry in its line: the player's letter, and a space.
const LETTER: usize = 2;

/// Returns the player to move, with the dice. A turn that is to be passed is the referee's.
pub(crate) fn mover(standing: &Standing) -> Option<(Player, Dice)>
    ensures { result ≡ mover_of standing.now }
{
    match (standing.actor(), standing.phase()) {
        (Actor::Seat(_), Phase::ToMove(player, dice)) => Some((player, dice)),
        _ => None,
    }
}

/// Adds a turn, as it is claimed: the line of its entry, without the player.
pub(crate) fn put_move(out: &mut Vec<u8>, player: Player, turn: &Turn) -> Result<(), AllocError>
    ensures { OnOk result (out.new.items ≡ out.old.items ++ action_text (Move turn.now)) }
{
    let line = entry_text(Some(player), &Entry::Moved(turn.copy()));
    out.extend_from_slice(&line.as_str().as_bytes()[LETTER..])
}

/// Adds the line of a turn, as it is claimed.
fn put_turn(out: &mut Vec<u8>, player: Player, turn: &Turn) -> Result<(), AllocError>
    ensures { OnOk result (out.new.items ≡ out.old.items ++ line_text (action_text (Move turn.now))) }
{
    put_move(out, player, turn)?;
    put_text(out, "\n")
}

/// Returns the lines of turns.
fn put_turns(alloc: Global, player: Player, turns: &[Turn]) -> Result<Vec<u8>, AllocError>
    ensures { IfOk result (λ text. text.items ≡ turns_text turns.now) }
{
    let mut text = Vec::new(alloc);
    for turn in turns {
        put_turn(&mut text, player, turn)?;
    }
    Ok(text)
}

/// Returns each legal turn of the player to move as a line, such as `move 8-5 6-5`, in the order of
/// [`legal_turns`]. Returns `None` where no player is to move.
///
/// # Errors
/// `AllocError` where memory runs out.
pub(crate) fn turns_text(alloc: Global, standing: &Standing) -> Result<Option<Vec<u8>>, AllocError>
    ensures { IfOk result (FindsTurns standing.now) }
{
    let Some((player, dice)) = mover(standing) else {
        return Ok(None);
    };
    let turns = legal_turns(alloc, &standing.board(), player, dice)?;
    Ok(Some(put_turns(alloc, player, &turns)?))
}
