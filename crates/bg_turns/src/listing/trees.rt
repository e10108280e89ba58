//! The turns by one die, found by the bits of the mover's counts. These lists are by far the
//! longest.
ghost use Rattle.std.specs.Prelude.{◌≡◌, ◌≤◌, ◌+◌, ◌++◌, take, OnOk};
ghost use Rattle.bg_turns.specs.MoverCounts.{IsMoverCounts, tree, behind};
ghost use Rattle.bg_turns.specs.Masks.{AreMasks};

use crate::Turn;
use crate::listing::fronts::{turn_of, with_step};
use crate::listing::leaves::add_last;
use crate::masks::Masks;
use crate::mover_counts::MoverCounts;
use bg_board::{BAR, Step};
use std::alloc::AllocError;

/// Adds the lists of steps by one die, behind the first steps of a turn. At the end the counts are
/// as they were.
pub(crate) fn add_tree(
    turns: &mut Vec<Turn>,
    mover: &mut MoverCounts,
    masks: Masks,
    front: [Step; 4],
    played: usize,
    die: u8,
    left: u8,
) -> Result<(), AllocError>
    requires mover { IsMoverCounts mover.old }
    requires masks { AreMasks masks mover.old }
    requires die { 1 ≤ die }
    requires six { die ≤ 6 }
    requires room { played + left ≤ 4 }
    ensures lists { OnOk result (turns.new.items ≡ turns.old.items ++ behind
        (take played front) (tree die left mover.old)) }
    ensures mover { OnOk result (mover.new ≡ mover.old) }
{
    if left == 0 || masks.is_off() {
        turns.push(turn_of(front, played))?;
        return Ok(());
    }
    if left == 1 {
        return add_last(turns, masks, front, played, die);
    }
    let mut places = masks.open(die);
    let mut below = BAR;
    while places != 0 {
        let place = places.trailing_zeros();
        places &= !(1 << place);
        let from = BAR - place as u8;
        let step = Step::down(from, die);
        let longer = with_step(front, played, step);
        let next = masks.after(mover, step);
        if left == 2 {
            add_last(turns, next, longer, played + 1, die)?;
        } else {
            mover.play(step);
            add_tree(turns, mover, next, longer, played + 1, die, left - 1)?;
            mover.take_back(step);
        }
        below = from - 1;
    }
    Ok(())
}
