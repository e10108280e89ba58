//! The state of a match.
ghost use Rattle.std.specs.Prelude.{◌≡◌, ◌++◌, IfOk, OnOk};
ghost use Rattle.bg_states.specs.StateTexts.{AddsSeat, IsStateText, standing_text};

use crate::boards::put_board;
use crate::headings::{letter_of, put_cube, put_game, put_match, put_score};
use crate::last_lines::put_last;
use crate::may::put_may;
use crate::phases::put_phases;
use bg_board::Player;
use bg_match::{Record, Standing};
use bg_text::put_text;
use std::alloc::{AllocError, Global};

/// Returns the state of a match as a JSON object (docs/SERVING.md, "State"): where the match stands
/// after all entries of the record, and the lines of the last entries.
///
/// With a seat, the object also has the seat's letter in `you`, and the actions that its player may
/// take now in `may`. Without one, `you` is empty and there is no `may`.
///
/// # Errors
/// `AllocError` if memory runs out.
pub fn state_text(alloc: Global, log: &Record, seat: Option<Player>) -> Result<Vec<u8>, AllocError>
    ensures { IfOk result (λ text. IsStateText log.now seat text.items) }
{
    let standing = log.standing();
    let mut out = Vec::new(alloc);
    put_match(&mut out, log)?;
    put_standing(&mut out, &standing)?;
    put_last(&mut out, log)?;
    put_seat(&mut out, &standing, seat)?;
    put_text(&mut out, "}")?;
    Ok(out)
}

/// Adds where the match stands: game, score, cube, phase and checkers.
#[tactic(auto, unfolding(crate::specs::StateTexts::standing_text))]
fn put_standing(out: &mut Vec<u8>, standing: &Standing) -> Result<(), AllocError>
    ensures { OnOk result (out.new.items ≡ out.old.items ++ standing_text standing.now) }
{
    put_game(out, standing)?;
    put_score(out, standing)?;
    put_cube(out, standing.cube())?;
    put_phases(out, standing)?;
    put_board(out, &standing.board())
}

/// Adds `you`, the letter of the seat, and `may`, what its player may do. Without a seat `you` is
/// empty, and `may` is left out.
fn put_seat(out: &mut Vec<u8>, standing: &Standing, seat: Option<Player>) -> Result<(), AllocError>
    ensures { OnOk result (AddsSeat standing.now seat out.old.items out.new.items) }
{
    put_text(out, ",\"you\":\"")?;
    put_text(out, letter_of(seat))?;
    put_text(out, "\"")?;
    match seat {
        None => Ok(()),
        Some(player) => {
            put_may(out, standing, player)?;
            Ok(())
        }
    }
}
