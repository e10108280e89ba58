//! The cube, the dice and the offers of a picture.
ghost use Rattle.std.specs.Prelude.{◌≡◌, ◌≤◌, ◌++◌, OnOk};
ghost use Rattle.bg_board.specs.declared.players.Player.{Player};
ghost use Rattle.bg_turns.specs.declared.throws.Dice.{Dice};
ghost use Rattle.bg_match.specs.Actor.{passes};
ghost use Rattle.bg_picture.specs.Tables.{cube_at, cube_text, dice_text, die_name as name_of_die, die_text};
ghost use Rattle.bg_picture.specs.Tables.{offer_text, pass_text, table_text};

use crate::elements::{begin_group, end_group, put_count, put_shape, put_words};
use crate::places::{cube_height, half};
use crate::stacks::class;
use bg_board::{Die, Player};
use bg_match::{Actor, Cube, Level, Phase, Standing};
use bg_text::level_word;
use bg_turns::Dice;
use std::alloc::AllocError;

/// Appends the cube.
#[tactic(auto, unfolding(crate::specs::Tables::cube_text))]
pub(crate) fn put_cube(out: &mut Vec<u8>, phase: Phase, cube: Cube) -> Result<(), AllocError>
    ensures { OnOk result (out.new.items ≡ out.old.items ++ cube_text phase cube) }
{
    match phase {
        Phase::Doubled(player) => put_cube_at(out, half(player), 280, 2 * u16::from(cube.value)),
        _ => put_cube_at(out, 20, cube_height(cube.owner), cube.value.into()),
    }
}

/// Appends a cube that shows a value, centred at a place.
#[tactic(auto, unfolding(crate::specs::Tables::cube_at))]
fn put_cube_at(out: &mut Vec<u8>, x: u16, y: u16, value: u16) -> Result<(), AllocError>
    requires { y ≤ 560 }
    ensures { OnOk result (out.new.items ≡ out.old.items ++ cube_at x y value) }
{
    begin_group(out, "cube")?;
    put_shape(out, "cube", x, y)?;
    put_count(out, x, y + 6, value)?;
    end_group(out)
}

/// Appends what lies on the board: the dice of a player, a pass, and an offer to resign.
#[tactic(auto, unfolding(crate::specs::Tables::table_text))]
pub(crate) fn put_table(out: &mut Vec<u8>, standing: &Standing) -> Result<(), AllocError>
    ensures { OnOk result (out.new.items ≡ out.old.items ++ table_text standing.now.phase (passes standing.now)) }
{
    match standing.phase() {
        Phase::ToMove(player, dice) => {
            put_dice(out, player, dice)?;
            put_pass(out, half(player), is_passing(standing))
        }
        Phase::Resigned(player, level, None) => put_offer(out, player.opponent(), level),
        Phase::Resigned(player, level, Some(dice)) => {
            put_dice(out, player, dice)?;
            put_offer(out, player.opponent(), level)
        }
        _ => Ok(()),
    }
}

/// Returns whether a player's turn is to be passed, where the referee acts.
fn is_passing(standing: &Standing) -> bool
    ensures { (player : Player) (dice : Dice) → standing.now.phase ≡ Phase.ToMove player dice
        → result ≡ passes standing.now }
{
    matches!(standing.actor(), Actor::Referee)
}

/// Appends the dice of a player.
#[tactic(auto, unfolding(crate::specs::Tables::dice_text))]
fn put_dice(out: &mut Vec<u8>, player: Player, dice: Dice) -> Result<(), AllocError>
    ensures { OnOk result (out.new.items ≡ out.old.items ++ dice_text player dice) }
{
    let x = half(player);
    begin_group(out, class(player))?;
    put_die(out, x - 21, dice.first)?;
    put_die(out, x + 21, dice.second)?;
    end_group(out)
}

/// Appends a die, centred at a place.
#[tactic(auto, unfolding(crate::specs::Tables::die_text))]
fn put_die(out: &mut Vec<u8>, x: u16, die: Die) -> Result<(), AllocError>
    ensures { OnOk result (out.new.items ≡ out.old.items ++ die_text x die) }
{
    put_shape(out, die_name(die), x, 280)
}

/// Returns the name of a die's shape.
fn die_name(die: Die) -> &'static str
    ensures { result.now ≡ name_of_die die }
{
    match die {
        Die::One => "d1",
        Die::Two => "d2",
        Die::Three => "d3",
        Die::Four => "d4",
        Die::Five => "d5",
        Die::Six => "d6",
    }
}

/// Appends the word beside the dice in the middle of a half, if the turn is to be passed.
#[tactic(auto, unfolding(crate::specs::Tables::pass_text))]
fn put_pass(out: &mut Vec<u8>, x: u16, passing: bool) -> Result<(), AllocError>
    requires { x ≤ 600 }
    ensures { OnOk result (out.new.items ≡ out.old.items ++ pass_text x passing) }
{
    if passing {
        put_words(out, x + 75, 287, "pass")?;
    }
    Ok(())
}

/// Appends what a player is offered: the level at which the other one resigns.
#[tactic(auto, unfolding(crate::specs::Tables::offer_text))]
fn put_offer(out: &mut Vec<u8>, player: Player, level: Level) -> Result<(), AllocError>
    ensures { OnOk result (out.new.items ≡ out.old.items ++ offer_text player level) }
{
    put_shape(out, "tag", half(player), 280)?;
    put_words(out, half(player), 287, level_word(level))
}
