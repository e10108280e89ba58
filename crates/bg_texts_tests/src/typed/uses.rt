//! The lines of use that stand in the library's documentation, run (`tools/checks/check_uses`
//! compares them).
use bg_board::{Board, Die, Player, Step};
use bg_turns::Dice;
use bg_typed::{TypedFault, read_turn};
use std::process::Abort;
use std::test::Fail;

fn check_a_typed_turn(rt: &(impl AllocGlobal + Abort)) -> Result<(), Fail> {
    let alloc = rt.alloc();
    // bg_typed
    let dice = Dice {
        first: Die::Six,
        second: Die::Four,
    };
    let turn = read_turn(alloc, b"24-14", &Board::start(), Player::X, dice)?;
    let steps = [Step::down(24, 4), Step::down(20, 6)];
    assert!(rt; turn.steps() == steps.as_slice());
    let none = read_turn(alloc, b"24/22", &Board::start(), Player::X, dice);
    assert!(rt; none.err() == Some(TypedFault::NoSuchTurn));
    // end
    Ok(())
}

#[test]
fn a_typed_turn(rt: HostRuntime) -> Result<(), Fail> {
    check_a_typed_turn(&rt)
}
