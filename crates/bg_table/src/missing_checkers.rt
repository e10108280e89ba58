//! The words for a point where a player has no checker to move.
ghost use Rattle.std.specs.Prelude.{◌≡◌, ◌≤◌, ◌++◌, OnOk};
ghost use Rattle.bg_table.specs.MissingCheckers.{further_words, missing_words, none_words, others_words, place_words};
ghost use Rattle.bg_table.specs.MissingCheckers.{stand_words};

use bg_board::{BAR, Board, Player};
use bg_text::{letter, put_number, put_text};
use std::alloc::AllocError;

/// Appends that the player has no checker on one of their points: that the other player has some
/// there, as the step is tried, or else that there is none.
pub(crate) fn put_missing(
    out: &mut Vec<u8>,
    board: &Board,
    tried: &Board,
    player: Player,
    point: u8,
) -> Result<(), AllocError>
    requires { point ≤ 25 }
    ensures { OnOk result (out.new.items ≡ out.old.items ++ missing_words board.now tried.now player point) }
{
    let others = tried.count(player.opponent(), BAR - point);
    if point < BAR && others > 0 {
        put_others(out, player, point, others)
    } else {
        put_none(out, board, player, point)
    }
}

/// Appends that so many checkers of the other player stand on a point, and none of this one's.
#[tactic(auto, unfolding(crate::specs::MissingCheckers::others_words))]
fn put_others(out: &mut Vec<u8>, player: Player, point: u8, others: u8) -> Result<(), AllocError>
    ensures { OnOk result (out.new.items ≡ out.old.items ++ others_words player point others) }
{
    put_place(out, point)?;
    put_text(out, stand(others))?;
    put_text(out, letter(player.opponent()))?;
    put_text(out, ", none of yours")?;
    Ok(())
}

/// Returns the words for checkers that stand on a point.
fn stand(checkers: u8) -> &'static str
    ensures { result.now ≡ stand_words checkers }
{
    if checkers == 1 {
        " has a checker of "
    } else {
        " has checkers of "
    }
}

/// Appends that the player has no checker on one of their points, or no further one where a checker
/// stood there before the turn.
#[tactic(auto, unfolding(crate::specs::MissingCheckers::none_words))]
fn put_none(out: &mut Vec<u8>, board: &Board, player: Player, point: u8) -> Result<(), AllocError>
    requires { point ≤ 25 }
    ensures { OnOk result (out.new.items ≡ out.old.items ++ none_words board.now player point) }
{
    put_text(out, "you have no ")?;
    put_text(out, further(board.count(player, point)))?;
    put_text(out, "checker on ")?;
    put_place(out, point)?;
    Ok(())
}

/// Returns the word for another checker, where so many were there before.
fn further(before: u8) -> &'static str
    ensures { result.now ≡ further_words before }
{
    if before == 0 { "" } else { "further " }
}

/// Appends a place of checkers: the bar, or a point.
#[tactic(auto, unfolding(crate::specs::MissingCheckers::place_words))]
fn put_place(out: &mut Vec<u8>, point: u8) -> Result<(), AllocError>
    ensures { OnOk result (out.new.items ≡ out.old.items ++ place_words point) }
{
    if point == BAR {
        return put_text(out, "the bar");
    }
    put_text(out, "point ")?;
    put_number(out, point.into())
}
