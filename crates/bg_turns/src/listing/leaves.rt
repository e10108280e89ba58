//! The last steps of turns. Writing turns takes nearly all the time of a list, so this loop is
//! compiled separately for each number of steps before the last, which then costs no test.
ghost use Rattle.std.specs.Prelude.{◌≡◌, ◌≤◌, ◌<◌, ◌++◌, take, OnOk};
ghost use Rattle.bg_turns.specs.declared.mover_counts.MoverCounts.{MoverCounts as SeenCounts};
ghost use Rattle.bg_turns.specs.MoverCounts.{IsMoverCounts, one_die, tree, at_each, behind};
ghost use Rattle.bg_turns.specs.Masks.{AreMasks, ArePlaces, HasPlaces, HasMoverCounts};

use crate::Turn;
use crate::listing::fronts::{turn_of, with_step};
use crate::masks::Masks;
use bg_board::{BAR, Step};
use std::alloc::AllocError;

/// Adds the lists of one step by a die, behind the first steps of a turn. Where all checkers are
/// off, adds the first steps alone.
pub(crate) fn add_last(
    turns: &mut Vec<Turn>,
    masks: Masks,
    front: [Step; 4],
    played: usize,
    die: u8,
) -> Result<(), AllocError>
    requires mover { HasMoverCounts masks }
    requires die { 1 ≤ die }
    requires six { die ≤ 6 }
    requires room { played < 4 }
    ensures { (r : SeenCounts) → IsMoverCounts r → AreMasks masks r → OnOk result
        (turns.new.items ≡ turns.old.items ++ behind (take played front) (tree die 1 r)) }
{
    if masks.is_off() {
        turns.push(turn_of(front, played))?;
        return Ok(());
    }
    add_leaves(turns, masks.open(die), front, played, die)
}

/// Adds a turn for each of these places. It consists of the first steps of a turn, then the step by
/// the die from that place.
fn add_leaves(
    turns: &mut Vec<Turn>,
    places: u32,
    front: [Step; 4],
    played: usize,
    die: u8,
) -> Result<(), AllocError>
    requires places { HasPlaces places die }
    requires die { 1 ≤ die }
    requires room { played < 4 }
    ensures { (r : SeenCounts) → ArePlaces places r die → OnOk result (turns.new.items ≡ turns.old.items ++ behind
        (take played front) (at_each (one_die r die (tree die 0)) 25)) }
{
    match played {
        0 => add_leaves_at::<0>(turns, places, front, die),
        1 => add_leaves_at::<1>(turns, places, front, die),
        2 => add_leaves_at::<2>(turns, places, front, die),
        _ => add_leaves_at::<3>(turns, places, front, die),
    }
}

/// Adds a turn for each of these places, behind `PLAYED` steps.
fn add_leaves_at<const PLAYED: usize>(
    turns: &mut Vec<Turn>,
    mut places: u32,
    front: [Step; 4],
    die: u8,
) -> Result<(), AllocError>
    requires places { HasPlaces places die }
    requires die { 1 ≤ die }
    requires room { PLAYED < 4 }
    ensures { (r : SeenCounts) → ArePlaces places r die → OnOk result (turns.new.items ≡ turns.old.items ++ behind
        (take PLAYED front) (at_each (one_die r die (tree die 0)) 25)) }
{
    let mut below = BAR;
    while places != 0 {
        let place = places.trailing_zeros();
        places &= !(1 << place);
        let from = BAR - place as u8;
        let longer = with_step(front, PLAYED, Step::down(from, die));
        turns.push(turn_of(longer, PLAYED + 1))?;
        below = from - 1;
    }
    Ok(())
}
