//! The match, the game, the score and the cube in the state of a match.
ghost use Rattle.std.specs.Prelude.{◌≡◌, ◌++◌, OnOk};
ghost use Rattle.bg_states.specs.Headings.{cube_text, flag, game_text, match_text, owner_letter, owner_text, rules_digit, score_text};

use bg_board::Player;
use bg_match::{Cube, Record, Rules, Standing};
use bg_text::{letter, put_number, put_text};
use std::alloc::AllocError;

/// Adds the number of entries, and the length and the rules of the match.
#[tactic(auto, unfolding(crate::specs::Headings::match_text))]
pub(crate) fn put_match(out: &mut Vec<u8>, log: &Record) -> Result<(), AllocError>
    ensures { OnOk result (out.new.items ≡ out.old.items ++ match_text log.now) }
{
    put_text(out, "{\"number\":")?;
    put_number(out, log.len().into())?;
    put_text(out, ",\"length\":")?;
    put_number(out, log.length().into())?;
    put_text(out, ",\"rules\":")?;
    put_text(out, rules_name(log.rules()))
}

/// Returns the digit that names the rules: "1" or "2".
fn rules_name(rules: Rules) -> &'static str
    ensures { result.now ≡ rules_digit rules }
{
    match rules {
        Rules::One => "1",
        Rules::Two => "2",
    }
}

/// Adds the number of the game, from 1, and whether it is a Crawford game.
#[tactic(auto, unfolding(crate::specs::Headings::game_text))]
pub(crate) fn put_game(out: &mut Vec<u8>, standing: &Standing) -> Result<(), AllocError>
    ensures { OnOk result (out.new.items ≡ out.old.items ++ game_text standing.now) }
{
    put_text(out, ",\"game\":")?;
    put_number(out, standing.game().into())?;
    put_text(out, ",\"crawford\":")?;
    put_text(out, truth(standing.crawford()))
}

/// Returns the JSON literal of a truth value: "true" or "false".
pub fn truth(holds: bool) -> &'static str
    ensures { result.now ≡ flag holds }
{
    if holds { "true" } else { "false" }
}

/// Adds the scores of X and of O, in this order.
#[tactic(auto, unfolding(crate::specs::Headings::score_text))]
pub(crate) fn put_score(out: &mut Vec<u8>, standing: &Standing) -> Result<(), AllocError>
    ensures { OnOk result (out.new.items ≡ out.old.items ++ score_text standing.now) }
{
    let (x, o) = standing.score();
    put_text(out, ",\"score\":[")?;
    put_number(out, x.into())?;
    put_text(out, ",")?;
    put_number(out, o.into())?;
    put_text(out, "]")
}

/// Adds the value of the cube, and its owner.
#[tactic(auto, unfolding(crate::specs::Headings::cube_text))]
pub(crate) fn put_cube(out: &mut Vec<u8>, cube: Cube) -> Result<(), AllocError>
    ensures { OnOk result (out.new.items ≡ out.old.items ++ cube_text cube) }
{
    put_text(out, ",\"cube\":{\"value\":")?;
    put_number(out, cube.value.into())?;
    put_owner(out, cube.owner)?;
    Ok(())
}

/// Adds the letter of the cube's owner; no letter while the cube is in the middle.
#[tactic(auto, unfolding(crate::specs::Headings::owner_text))]
fn put_owner(out: &mut Vec<u8>, owner: Option<Player>) -> Result<(), AllocError>
    ensures { OnOk result (out.new.items ≡ out.old.items ++ owner_text owner) }
{
    put_text(out, ",\"owner\":\"")?;
    put_text(out, letter_of(owner))?;
    put_text(out, "\"}")
}

/// Returns the letter of a player, "X" or "O", or the empty text if there is no player.
pub fn letter_of(player: Option<Player>) -> &'static str
    ensures { result.now ≡ owner_letter player }
{
    match player {
        None => "",
        Some(player) => letter(player),
    }
}
