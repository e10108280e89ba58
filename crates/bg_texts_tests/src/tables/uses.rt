//! The lines of use that stand in the library's documentation, run (`tools/checks/check_uses`
//! compares them).
use bg_board::{Board, Die, Player};
use bg_match::{Action, Entry, EntryFault, Record, Rules};
use bg_table::{Drawing, offered, pip_count, refusal_text, seat_view_text};
use std::process::Abort;
use std::test::Fail;

fn check_what_a_player_sees(rt: &(impl AllocGlobal + Abort)) -> Result<(), Fail> {
    let alloc = rt.alloc();
    // bg_table
    let mut record = Record::new(alloc, 1, 3, Rules::One)?;
    record.push(Entry::Opening(Die::One, Die::Three))?;
    let view = seat_view_text(alloc, &record, Player::O, Drawing::fitting(80))?;
    assert!(rt; view.starts_with(b"length 3, game 1\nscore: O (you) 0 of 3, X 0 of 3\n"));
    assert!(rt; pip_count(&Board::start(), Player::O) == 167);
    let offers = offered(&record.standing(), Player::O);
    assert!(rt; offers.turn && offers.resign && !offers.roll);
    let standing = record.standing();
    let (action, fault) = (Action::Roll, EntryFault::WrongPhase);
    let refusal = refusal_text(alloc, &standing, Player::O, &action, fault)?;
    assert!(rt; refusal.starts_with(b"the dice are rolled: move them\nyour turn, O: move .."));
    // end
    Ok(())
}

#[test]
fn what_a_player_sees(rt: HostRuntime) -> Result<(), Fail> {
    check_what_a_player_sees(&rt)
}
