//! The texts of cells.
ghost use Rattle.std.specs.Prelude.{◌≡◌, ◌++◌, OnOk, Some};
ghost use Rattle.bg_mat.specs.Rows.CellTexts.{cell_text, dice_text, ending_text, leg_text, legs_text, points_text};
ghost use Rattle.bg_mat.specs.Rows.CellTexts.{win_text};
ghost use Rattle.bg_mat.specs.Legs.{mark};

use crate::movements::legs::Leg;
use crate::rows::cells::{Cell, Win};
use bg_text::{put_number, put_text};
use bg_turns::Dice;
use std::alloc::AllocError;

/// Appends two dice, as in `31:`.
fn put_dice(out: &mut Vec<u8>, dice: Dice) -> Result<(), AllocError>
    ensures { OnOk result (out.new.items ≡ out.old.items ++ dice_text dice) }
{
    put_number(out, dice.first.pips().into())?;
    put_number(out, dice.second.pips().into())?;
    put_text(out, ":")
}

/// Appends the mark of a hit, where there is one.
fn put_mark(out: &mut Vec<u8>, hits: bool) -> Result<(), AllocError>
    ensures { OnOk result (out.new.items ≡ out.old.items ++ mark hits) }
{
    if hits { put_text(out, "*") } else { Ok(()) }
}

/// Appends a leg as a word, as in ` 24/18*`.
fn put_leg(out: &mut Vec<u8>, leg: &Leg) -> Result<(), AllocError>
    ensures { OnOk result (out.new.items ≡ out.old.items ++ leg_text leg.now) }
{
    put_text(out, " ")?;
    put_number(out, leg.step.from().into())?;
    put_text(out, "/")?;
    put_number(out, leg.step.to().into())?;
    put_mark(out, leg.hits)
}

/// Appends legs.
fn put_legs(out: &mut Vec<u8>, legs: &[Leg]) -> Result<(), AllocError>
    ensures { OnOk result (out.new.items ≡ out.old.items ++ legs_text legs.now) }
{
    let Some((leg, rest)) = legs.split_first() else {
        return Ok(());
    };
    put_leg(out, leg)?;
    put_legs(out, rest)
}

/// Appends the word for this number of points.
fn put_points(out: &mut Vec<u8>, points: u16) -> Result<(), AllocError>
    ensures { OnOk result (out.new.items ≡ out.old.items ++ points_text points) }
{
    if points == 1 {
        put_text(out, " point")
    } else {
        put_text(out, " points")
    }
}

/// Appends the words for the end of the match, where a win ends it.
fn put_ending(out: &mut Vec<u8>, ends_match: bool) -> Result<(), AllocError>
    ensures { OnOk result (out.new.items ≡ out.old.items ++ ending_text ends_match) }
{
    if ends_match {
        put_text(out, " and the match")
    } else {
        Ok(())
    }
}

/// Appends a win.
fn put_win(out: &mut Vec<u8>, win: Win) -> Result<(), AllocError>
    ensures { OnOk result (out.new.items ≡ out.old.items ++ win_text win) }
{
    put_text(out, " Wins ")?;
    put_number(out, win.points.into())?;
    put_points(out, win.points)?;
    put_ending(out, win.ends_match)
}

/// Appends a double, after which the cube shows this value.
fn put_double(out: &mut Vec<u8>, shows: u16) -> Result<(), AllocError>
    ensures { OnOk result (out.new.items ≡ out.old.items ++ cell_text (Cell.Doubles (Some shows))) }
{
    put_text(out, " Doubles => ")?;
    put_number(out, shows.into())
}

/// Appends dice and a movement.
fn put_turn(out: &mut Vec<u8>, dice: Dice, legs: &[Leg]) -> Result<(), AllocError>
    ensures { OnOk result (out.new.items ≡ out.old.items ++ (dice_text dice ++ legs_text legs.now)) }
{
    put_dice(out, dice)?;
    put_legs(out, legs)
}

/// Appends dice, and words in place of a movement.
fn put_dice_and(out: &mut Vec<u8>, dice: Dice, words: &str) -> Result<(), AllocError>
    ensures { OnOk result (out.new.items ≡ out.old.items ++ (dice_text dice ++ words.now)) }
{
    put_dice(out, dice)?;
    put_text(out, words)
}

/// Appends what a player does.
pub(crate) fn put_cell(out: &mut Vec<u8>, cell: &Cell) -> Result<(), AllocError>
    ensures { OnOk result (out.new.items ≡ out.old.items ++ cell_text cell.now) }
{
    match cell {
        Cell::Turn(dice, legs) => put_turn(out, *dice, legs.as_slice()),
        Cell::CannotMove(dice) => put_dice_and(out, *dice, " Cannot Move"),
        Cell::Unknown(dice) => put_dice_and(out, *dice, " ????"),
        Cell::Doubles(None) => put_text(out, " Doubles"),
        Cell::Doubles(Some(shows)) => put_double(out, *shows),
        Cell::Takes => put_text(out, " Takes"),
        Cell::Drops => put_text(out, " Drops"),
        Cell::Wins(win) => put_win(out, *win),
    }
}
