//! The lines of use that stand in the library's documentation, run (`tools/checks/check_uses`
//! compares them).
use bg_board::{Board, Player};
use bg_ids::{PositionId, Xgid, XgidFault};
use bg_match::{Rules, Standing};
use std::test::Fail;

#[test]
fn the_ids_of_a_start(rt: HostRuntime) -> Result<(), Fail> {
    // bg_ids
    let standing = Standing::start(7, Rules::One);
    let id = PositionId::of(&standing);
    assert!(rt; id.as_str() == "4HPwATDgc/ABMA");
    let board = PositionId::board_of(b"4HPwATDgc/ABMA", Player::X)?;
    assert!(rt; board == Board::start());
    // Nobody is on roll yet, which an XGID cannot tell.
    assert!(rt; Xgid::of(&standing).err() == Some(XgidFault::NoGame));
    // end
    Ok(())
}
