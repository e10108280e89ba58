//! The checkers of a picture, and the numbers of the points.
ghost use Rattle.std.specs.Prelude.{◌≡◌, ◌<◌, ◌++◌, OnOk, IsTrue};
ghost use Rattle.std.specs.List.{list_all};
ghost use Rattle.bg_picture.specs.Stacks.{checkers_text, class_of, count_text, is_place, stack_text, stacks_text};
ghost use Rattle.bg_picture.specs.Stacks.{number_marks, numbers_text, numbers_name as name_of_numbers};
ghost use Rattle.bg_picture.specs.Stacks.{stack_name as name_of_stack};

use crate::elements::{begin_group, end_group, put_count, put_shape};
use crate::places::{column, count_line, is_above, number_line, stack_top};
use bg_board::{Board, Player};
use bg_text::put_text;
use std::alloc::AllocError;

/// A player's points: off, 1 to 24, and the bar.
const ALL_POINTS: [u8; 26] = [
    0, 1, 2, 3, 4, 5, 6, 7, 8, 9, 10, 11, 12, 13, 14, 15, 16, 17, 18, 19, 20, 21, 22, 23, 24, 25,
];

/// The points that have a number.
const NUMBERED_POINTS: [u8; 24] = [
    1, 2, 3, 4, 5, 6, 7, 8, 9, 10, 11, 12, 13, 14, 15, 16, 17, 18, 19, 20, 21, 22, 23, 24,
];

/// Returns the class of a player's things.
#[tactic(auto, unfolding(crate::specs::Stacks::class_of))]
pub(crate) fn class(player: Player) -> &'static str
    ensures { result.now ≡ class_of player }
{
    match player {
        Player::X => "x",
        Player::O => "o",
    }
}

/// Appends all checkers of a player.
#[tactic(auto, unfolding(crate::specs::Stacks::checkers_text))]
pub(crate) fn put_checkers(
    out: &mut Vec<u8>,
    board: &Board,
    player: Player,
) -> Result<(), AllocError>
    ensures { OnOk result (out.new.items ≡ out.old.items ++ checkers_text board.now player) }
{
    begin_group(out, class(player))?;
    put_stacks(out, board, player, &ALL_POINTS)?;
    end_group(out)
}

/// Appends a player's checkers on some of their points.
#[tactic(auto, unfolding(crate::specs::Stacks::stacks_text))]
fn put_stacks(
    out: &mut Vec<u8>,
    board: &Board,
    player: Player,
    points: &[u8],
) -> Result<(), AllocError>
    requires { IsTrue (list_all is_place points.now) }
    ensures { OnOk result (out.new.items ≡ out.old.items ++ stacks_text board.now player points.now) }
{
    for point in points {
        put_stack(
            out,
            column(*point),
            is_above(player, *point),
            board.count(player, *point),
        )?;
    }
    Ok(())
}

/// Appends a stack of checkers, if there are any.
#[tactic(auto, unfolding(crate::specs::Stacks::stack_text))]
fn put_stack(out: &mut Vec<u8>, x: u16, above: bool, count: u8) -> Result<(), AllocError>
    ensures { OnOk result (out.new.items ≡ out.old.items ++ stack_text x above count) }
{
    if count > 0 {
        put_shape(out, stack_name(count), x, stack_top(above, count))?;
        put_stack_count(out, x, above, count)?;
    }
    Ok(())
}

/// Appends the number of checkers of a stack, if it is greater than the number drawn.
#[tactic(auto, unfolding(crate::specs::Stacks::count_text))]
fn put_stack_count(out: &mut Vec<u8>, x: u16, above: bool, count: u8) -> Result<(), AllocError>
    ensures { OnOk result (out.new.items ≡ out.old.items ++ count_text x above count) }
{
    if count > 5 {
        put_count(out, x, count_line(above), count.into())?;
    }
    Ok(())
}

/// Returns the name of a stack's shape, which shows five checkers at most.
fn stack_name(count: u8) -> &'static str
    requires { 0 < count }
    ensures { result.now ≡ name_of_stack count }
{
    match count {
        1 => "c1",
        2 => "c2",
        3 => "c3",
        4 => "c4",
        _ => "c5",
    }
}

/// Appends the numbers of a player's points, as a shape.
#[tactic(auto, unfolding(crate::specs::Stacks::numbers_text))]
pub(crate) fn put_numbers(out: &mut Vec<u8>, player: Player) -> Result<(), AllocError>
    ensures { OnOk result (out.new.items ≡ out.old.items ++ numbers_text player) }
{
    put_text(out, "<g id='")?;
    put_text(out, numbers_name(player))?;
    put_text(out, "'>")?;
    put_number_marks(out, player, &NUMBERED_POINTS)?;
    put_text(out, "</g>\n")
}

/// Returns the name of that shape.
#[tactic(auto, unfolding(crate::specs::Stacks::numbers_name))]
pub(crate) fn numbers_name(player: Player) -> &'static str
    ensures { result.now ≡ name_of_numbers player }
{
    match player {
        Player::X => "numbers-x",
        Player::O => "numbers-o",
    }
}

/// Appends the numbers of some of a player's points.
#[tactic(auto, unfolding(crate::specs::Stacks::number_marks))]
fn put_number_marks(out: &mut Vec<u8>, player: Player, points: &[u8]) -> Result<(), AllocError>
    requires { IsTrue (list_all is_place points.now) }
    ensures { OnOk result (out.new.items ≡ out.old.items ++ number_marks player points.now) }
{
    for point in points {
        let line = number_line(is_above(player, *point));
        put_count(out, column(*point), line, (*point).into())?;
    }
    Ok(())
}
