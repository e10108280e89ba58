//! The data of an item, from which the script of a page draws its picture.
ghost use Rattle.std.specs.Prelude.{◌≡◌, ◌++◌, OnOk};
ghost use Rattle.bg_picture.specs.ItemData.{board_data, both_data, counts_data, cube_data, dice_data, item_data};
ghost use Rattle.bg_picture.specs.ItemData.{owner_data, position_data, score_data};
ghost use Rattle.bg_board.specs.Position.{checkers};

use crate::captions::{Caption, put_caption};
use bg_board::{Board, Player};
use bg_match::{Cube, Phase, Standing};
use bg_text::{letter, put_number, put_text};
use bg_turns::Dice;
use std::alloc::AllocError;

/// Appends the data of an item, as attributes.
#[tactic(auto, unfolding(crate::specs::ItemData::item_data))]
pub(crate) fn put_item_data(
    out: &mut Vec<u8>,
    standing: &Standing,
    caption: Caption,
) -> Result<(), AllocError>
    ensures { OnOk result (out.new.items ≡ out.old.items ++ item_data standing.now caption) }
{
    put_text(out, " data-at='")?;
    put_position(out, standing)?;
    put_text(out, "' data-next='")?;
    put_caption(out, standing, caption)?;
    put_text(out, "'")
}

/// Appends the board, the cube, the dice and the scores.
#[tactic(auto, unfolding(crate::specs::ItemData::position_data))]
fn put_position(out: &mut Vec<u8>, standing: &Standing) -> Result<(), AllocError>
    ensures { OnOk result (out.new.items ≡ out.old.items ++ position_data standing.now) }
{
    put_board(out, &standing.board())?;
    put_cube(out, standing.cube())?;
    put_dice(out, standing.phase())?;
    put_scores(out, standing)
}

/// Appends the checkers of both players.
#[tactic(auto, unfolding(crate::specs::ItemData::board_data))]
fn put_board(out: &mut Vec<u8>, board: &Board) -> Result<(), AllocError>
    ensures { OnOk result (out.new.items ≡ out.old.items ++ board_data board.now) }
{
    put_counts(out, board, Player::X)?;
    put_counts(out, board, Player::O)
}

/// Appends a letter for each point of a player.
#[tactic(auto, unfolding(crate::specs::ItemData::counts_data))]
fn put_counts(out: &mut Vec<u8>, board: &Board, player: Player) -> Result<(), AllocError>
    ensures { OnOk result (out.new.items ≡ out.old.items ++ counts_data (checkers board.now player)) }
{
    let counts = board.checkers(player);
    for count in counts {
        out.push(b'a' + *count)?;
    }
    Ok(())
}

/// Appends the value of the cube, and the letter of its owner.
#[tactic(auto, unfolding(crate::specs::ItemData::cube_data))]
fn put_cube(out: &mut Vec<u8>, cube: Cube) -> Result<(), AllocError>
    ensures { OnOk result (out.new.items ≡ out.old.items ++ cube_data cube) }
{
    put_text(out, " ")?;
    put_number(out, cube.value.into())?;
    put_text(out, " ")?;
    put_text(out, owner(cube.owner))
}

/// Returns the letter of the cube's owner, or a hyphen.
fn owner(owner: Option<Player>) -> &'static str
    ensures { result.now ≡ owner_data owner }
{
    match owner {
        None => "-",
        Some(player) => letter(player),
    }
}

/// Appends the dice that lie on the board, or a hyphen.
#[tactic(auto, unfolding(crate::specs::ItemData::dice_data))]
fn put_dice(out: &mut Vec<u8>, phase: Phase) -> Result<(), AllocError>
    ensures { OnOk result (out.new.items ≡ out.old.items ++ dice_data phase) }
{
    match phase {
        Phase::ToMove(_, dice) | Phase::Resigned(_, _, Some(dice)) => put_both_dice(out, dice),
        _ => put_text(out, " -"),
    }
}

/// Appends the numbers of two dice.
#[tactic(auto, unfolding(crate::specs::ItemData::both_data))]
fn put_both_dice(out: &mut Vec<u8>, dice: Dice) -> Result<(), AllocError>
    ensures { OnOk result (out.new.items ≡ out.old.items ++ both_data dice) }
{
    put_text(out, " ")?;
    put_number(out, dice.first.pips().into())?;
    put_number(out, dice.second.pips().into())
}

/// Appends the scores.
#[tactic(auto, unfolding(crate::specs::ItemData::score_data))]
fn put_scores(out: &mut Vec<u8>, standing: &Standing) -> Result<(), AllocError>
    ensures { OnOk result (out.new.items ≡ out.old.items ++ score_data standing.now) }
{
    let (x, o) = standing.score();
    put_text(out, " ")?;
    put_number(out, x.into())?;
    put_text(out, " ")?;
    put_number(out, o.into())
}
