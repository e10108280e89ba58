//! Pip counts.
use crate::boards::board;
use crate::checks::check_row;
use bg_board::Player;
use bg_table::pip_count;
use std::process::Abort;

/// Where the checkers of X and of O stand so, the pip counts are these.
fn check_pips(rt: &impl Abort, x: &str, o: &str, of_x: u16, of_o: u16) {
    let board = board(rt, x, o);
    let (found_x, found_o) = (pip_count(&board, Player::X), pip_count(&board, Player::O));
    check_row(rt, x, found_x == of_x && found_o == of_o);
}

#[test]
fn pips_of_boards(rt: HostRuntime) {
    let start = "24:2 13:5 8:3 6:5";
    check_pips(&rt, start, start, 167, 167);
    check_pips(&rt, "25:15", "0:15", 375, 0);
    check_pips(&rt, "25:1 6:12 0:2", "1:15", 97, 15);
    check_pips(&rt, "1:14 24:1", "25:3 6:8 0:4", 38, 123);
}
