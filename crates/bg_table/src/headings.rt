//! The match, the score, the pip counts and the cube, in words.
ghost use Rattle.std.specs.Prelude.{◌≡◌, ◌++◌, OnOk};
ghost use Rattle.bg_match.specs.State.{score_of};
ghost use Rattle.bg_text.specs.Boards.BoardText.{line_text};
ghost use Rattle.bg_table.specs.Headings.{crawford_words as mark, cube_line, cube_words, doubled_words, game_line};
ghost use Rattle.bg_table.specs.Headings.{of_words, offer_words, owner_words, pips_line, pips_words, score_line};
ghost use Rattle.bg_table.specs.Headings.{score_words};

use crate::pips::pip_count;
use crate::seen_players::put_name;
use bg_board::{Board, Player};
use bg_match::{Cube, Phase, Standing};
use bg_text::{put_number, put_terms, put_text};
use std::alloc::AllocError;

/// Appends the line of the match and the game.
#[tactic(auto, unfolding(crate::specs::Headings::game_line))]
pub(crate) fn put_game_line(out: &mut Vec<u8>, standing: &Standing) -> Result<(), AllocError>
    ensures { OnOk result (out.new.items ≡ out.old.items ++ line_text (game_line standing.now)) }
{
    put_terms(out, standing.length(), standing.rules())?;
    put_text(out, ", game ")?;
    put_number(out, standing.game().into())?;
    put_text(out, crawford_words(standing.length(), standing.crawford()))?;
    put_text(out, "\n")
}

/// Returns the words for a Crawford game in a match of this length, which are empty for other
/// games. The only game of a match to one point isn't called so.
fn crawford_words(length: u8, crawford: bool) -> &'static str
    ensures { result.now ≡ mark length crawford }
{
    if crawford && length != 1 {
        ", Crawford game"
    } else {
        ""
    }
}

/// Appends the line of the score, the reader's first.
#[tactic(auto, unfolding(crate::specs::Headings::score_line))]
pub(crate) fn put_score_line(
    out: &mut Vec<u8>,
    standing: &Standing,
    reader: Player,
) -> Result<(), AllocError>
    ensures { OnOk result (out.new.items ≡ out.old.items ++ line_text (score_line standing.now reader)) }
{
    put_text(out, "score: ")?;
    put_score(out, standing, reader, reader)?;
    put_text(out, ", ")?;
    put_score(out, standing, reader.opponent(), reader)?;
    put_text(out, "\n")
}

/// Appends a player's name and points and, while the match goes on, the points that it is played
/// to.
#[tactic(auto, unfolding(crate::specs::Headings::score_words))]
fn put_score(
    out: &mut Vec<u8>,
    standing: &Standing,
    player: Player,
    reader: Player,
) -> Result<(), AllocError>
    ensures { OnOk result (out.new.items ≡ out.old.items ++ score_words standing.now player reader) }
{
    put_name(out, player, reader)?;
    put_text(out, " ")?;
    put_number(out, score_for(standing, player).into())?;
    put_of(out, standing.phase(), standing.length())
}

/// Appends the points that a match is played to, while it goes on.
#[tactic(auto, unfolding(crate::specs::Headings::of_words))]
fn put_of(out: &mut Vec<u8>, phase: Phase, length: u8) -> Result<(), AllocError>
    ensures { OnOk result (out.new.items ≡ out.old.items ++ of_words phase length) }
{
    match phase {
        Phase::Over(_) => Ok(()),
        _ => {
            put_text(out, " of ")?;
            put_number(out, length.into())
        }
    }
}

/// Returns the points of a player.
pub(crate) fn score_for(standing: &Standing, player: Player) -> u16
    ensures { result ≡ score_of standing.now player }
{
    let (x, o) = standing.score();
    match player {
        Player::X => x,
        Player::O => o,
    }
}

/// Appends the line of the pip counts, the reader's first.
#[tactic(auto, unfolding(crate::specs::Headings::pips_line))]
pub(crate) fn put_pips_line(
    out: &mut Vec<u8>,
    board: &Board,
    reader: Player,
) -> Result<(), AllocError>
    ensures { OnOk result (out.new.items ≡ out.old.items ++ line_text (pips_line board.now reader)) }
{
    put_text(out, "pips: ")?;
    put_pips(out, board, reader, reader)?;
    put_text(out, ", ")?;
    put_pips(out, board, reader.opponent(), reader)?;
    put_text(out, "\n")
}

/// Appends the pip count of a player.
#[tactic(auto, unfolding(crate::specs::Headings::pips_words))]
fn put_pips(
    out: &mut Vec<u8>,
    board: &Board,
    player: Player,
    reader: Player,
) -> Result<(), AllocError>
    ensures { OnOk result (out.new.items ≡ out.old.items ++ pips_words board.now player reader) }
{
    put_name(out, player, reader)?;
    put_text(out, " ")?;
    put_number(out, pip_count(board, player).into())
}

/// Appends the line of the cube: its value, its owner, and the value on offer while a double is
/// answered.
#[tactic(auto, unfolding(crate::specs::Headings::cube_line))]
pub(crate) fn put_cube_line(
    out: &mut Vec<u8>,
    standing: &Standing,
    reader: Player,
) -> Result<(), AllocError>
    ensures { OnOk result (out.new.items ≡ out.old.items ++ line_text (cube_line standing.now reader)) }
{
    put_cube(out, standing.cube(), reader)?;
    put_offer(out, standing.phase(), standing.cube())?;
    put_text(out, "\n")
}

/// Appends the value and the owner of the cube.
#[tactic(auto, unfolding(crate::specs::Headings::cube_words))]
fn put_cube(out: &mut Vec<u8>, cube: Cube, reader: Player) -> Result<(), AllocError>
    ensures { OnOk result (out.new.items ≡ out.old.items ++ cube_words cube reader) }
{
    put_text(out, "cube: ")?;
    put_number(out, cube.value.into())?;
    put_owner(out, cube.owner, reader)
}

/// Appends the owner of the cube.
#[tactic(auto, unfolding(crate::specs::Headings::owner_words))]
fn put_owner(out: &mut Vec<u8>, owner: Option<Player>, reader: Player) -> Result<(), AllocError>
    ensures { OnOk result (out.new.items ≡ out.old.items ++ owner_words owner reader) }
{
    match owner {
        None => put_text(out, " in the middle"),
        Some(player) => {
            put_text(out, " of ")?;
            put_name(out, player, reader)
        }
    }
}

/// Appends what a double offers, while it is answered.
#[tactic(auto, unfolding(crate::specs::Headings::offer_words))]
fn put_offer(out: &mut Vec<u8>, phase: Phase, cube: Cube) -> Result<(), AllocError>
    ensures { OnOk result (out.new.items ≡ out.old.items ++ offer_words phase cube.value) }
{
    match phase {
        Phase::Doubled(_) => put_doubled(out, 2 * u64::from(cube.value)),
        _ => Ok(()),
    }
}

/// Appends the value of the cube after the double is taken.
#[tactic(auto, unfolding(crate::specs::Headings::doubled_words))]
fn put_doubled(out: &mut Vec<u8>, value: u64) -> Result<(), AllocError>
    ensures { OnOk result (out.new.items ≡ out.old.items ++ doubled_words value) }
{
    put_text(out, ", doubled to ")?;
    put_number(out, value)?;
    Ok(())
}
