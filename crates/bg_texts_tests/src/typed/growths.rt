//! Refused growths.
use super::{Place, start};
use crate::checks::check_last;
use bg_board::{Die, Player, Step};
use bg_typed::{TypedFault, read_turn};
use std::alloc::Global;

/// Whether the turn is read, also where memory is refused once.
fn is_read(alloc: Global, at: &Place) -> bool {
    let steps = [Step::down(24, 4), Step::down(20, 6)];
    let read = match read_turn(alloc, b"24/14", &at.board, at.player, at.dice) {
        Err(TypedFault::Memory) => read_turn(alloc, b"24/14", &at.board, at.player, at.dice),
        read => read,
    };
    match read {
        Ok(turn) => turn.steps() == steps.as_slice(),
        Err(_) => false,
    }
}

/// Where memory is refused the same call then succeeds. No run of the tests refuses any, but
/// `tools/checks/refuse_growths` refuses each growth in turn.
#[test]
fn refused_growths_of_typed_turns(rt: HostRuntime) {
    let at = start(Player::X, Die::Six, Die::Four);
    check_last(&rt, rt.alloc(), "24-20 20-14", is_read(rt.alloc(), &at));
}
