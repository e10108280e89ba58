//! The turns by two different dice, found by the bits of the mover's counts.
ghost use Rattle.std.specs.Prelude.{◌≡◌, ◌≤◌, ◌<◌, ◌+◌, ◌-◌, ◌++◌, take, OnOk};
ghost use Rattle.bg_turns.specs.MoverCounts.{IsMoverCounts, tree, pairs, behind, one_die};
ghost use Rattle.bg_turns.specs.Masks.{AreMasks, ArePlaces};

use crate::Turn;
use crate::listing::fronts::{turn_of, with_step};
use crate::listing::leaves::add_last;
use crate::listing::trees::add_tree;
use crate::masks::{Masks, holds};
use crate::mover_counts::MoverCounts;
use bg_board::{BAR, Step};
use std::alloc::AllocError;

/// Adds the lists of steps by two different dice, behind the first steps of a turn.
pub(crate) fn add_pairs(
    turns: &mut Vec<Turn>,
    mover: &mut MoverCounts,
    masks: Masks,
    front: [Step; 4],
    played: usize,
    small: u8,
    large: u8,
    left: u8,
) -> Result<(), AllocError>
    requires mover { IsMoverCounts mover.old }
    requires masks { AreMasks masks mover.old }
    requires small { 1 ≤ small }
    requires large { small < large }
    requires dice { large ≤ 6 }
    requires room { played + left ≤ 4 }
    ensures lists { OnOk result (turns.new.items ≡ turns.old.items ++ behind
        (take played front) (pairs small large left mover.old)) }
    ensures mover { OnOk result (mover.new ≡ mover.old) }
{
    if left == 0 || masks.is_off() {
        turns.push(turn_of(front, played))?;
        return Ok(());
    }
    let (by_small, by_large) = (masks.open(small), masks.open(large));
    let mut places = by_small | by_large;
    let mut below = BAR;
    while places != 0 {
        let place = places.trailing_zeros();
        places &= !(1 << place);
        let from = BAR - place as u8;
        if from <= small && holds(by_small, place) && holds(by_large, place) {
            let step = Step::down(from, small);
            let longer = with_step(front, played, step);
            let next = masks.after(mover, step);
            mover.play(step);
            add_pairs(
                turns,
                mover,
                next,
                longer,
                played + 1,
                small,
                large,
                left - 1,
            )?;
            mover.take_back(step);
        } else {
            add_step(
                turns,
                mover,
                masks,
                by_small,
                place,
                front,
                played,
                small,
                large,
                left - 1,
            )?;
            add_step(
                turns,
                mover,
                masks,
                by_large,
                place,
                front,
                played,
                large,
                small,
                left - 1,
            )?;
        }
        below = from - 1;
    }
    Ok(())
}

/// Adds the lists that begin with a step by one die from a place, if that place is among those for
/// the die, and go on with another die.
fn add_step(
    turns: &mut Vec<Turn>,
    mover: &mut MoverCounts,
    masks: Masks,
    places: u32,
    place: u32,
    front: [Step; 4],
    played: usize,
    die: u8,
    next: u8,
    left: u8,
) -> Result<(), AllocError>
    requires mover { IsMoverCounts mover.old }
    requires masks { AreMasks masks mover.old }
    requires places { ArePlaces places mover.old die }
    requires place { place ≤ 24 }
    requires die { 1 ≤ die }
    requires six { die ≤ 6 }
    requires next { 1 ≤ next }
    requires next_six { next ≤ 6 }
    requires room { played + left < 4 }
    ensures lists { OnOk result (turns.new.items ≡ turns.old.items ++ behind
        (take played front) (one_die mover.old die (tree next left) (25 - place))) }
    ensures mover { OnOk result (mover.new ≡ mover.old) }
{
    if !holds(places, place) {
        return Ok(());
    }
    let from = BAR - place as u8;
    let step = Step::down(from, die);
    let longer = with_step(front, played, step);
    let after = masks.after(mover, step);
    if left == 1 {
        return add_last(turns, after, longer, played + 1, next);
    }
    mover.play(step);
    add_tree(turns, mover, after, longer, played + 1, next, left)?;
    mover.take_back(step);
    Ok(())
}
