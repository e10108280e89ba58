//! Refused growths.
use crate::checks::check_last;
use crate::records::record_of;
use bg_board::{Board, Die, Player};
use bg_match::{Record, Standing};
use bg_table::{Drawing, legal_turns_text, prompt_text, seat_view_text, turn_refusal_text};
use bg_turns::{Dice, Turn, TurnFault};
use std::alloc::{AllocError, Global};

/// Whether a text is made, and begins and ends so.
fn is_made(made: &Result<Vec<u8>, AllocError>, front: &[u8], end: &[u8]) -> bool {
    match made {
        Ok(text) => text.starts_with(front) && text.ends_with(end),
        Err(_) => false,
    }
}

/// Whether O sees this, also where memory is refused once.
fn is_seen(alloc: Global, record: &Record) -> bool {
    let view = match seat_view_text(alloc, record, Player::O, Drawing::Rows) {
        Err(_) => seat_view_text(alloc, record, Player::O, Drawing::Rows),
        view => view,
    };
    let end = b"last: X move 8-5 6-5 (as X counts)\nO to roll\n";
    is_made(&view, b"length 3, game 1\nscore: O (you) 0 of 3", end)
}

/// Whether X may do this, also where memory is refused once.
fn is_prompted(alloc: Global, standing: &Standing) -> bool {
    let prompt = match prompt_text(alloc, standing, Player::X) {
        Err(_) => prompt_text(alloc, standing, Player::X),
        prompt => prompt,
    };
    is_made(&prompt, b"it is O's turn\n", b"it is O's turn\n")
}

/// Where memory is refused the same call then succeeds. No run of the tests refuses any, but
/// `tools/checks/refuse_growths` refuses each growth in turn.
#[test]
fn refused_growths_of_views(rt: HostRuntime) {
    let record = record_of(&rt, rt.alloc(), "length 3\nopen 3 1\nX move 8-5 6-5\n");
    let is_told = is_seen(rt.alloc(), &record) && is_prompted(rt.alloc(), &record.standing());
    check_last(&rt, rt.alloc(), "view and prompt", is_told);
}

const SIX_FIVE: Dice = Dice {
    first: Die::Six,
    second: Die::Five,
};

/// Whether the turns of X are listed, also where memory is refused once.
fn are_listed(alloc: Global, board: &Board) -> bool {
    let list = match legal_turns_text(alloc, board, Player::X, SIX_FIVE, 80) {
        Err(_) => legal_turns_text(alloc, board, Player::X, SIX_FIVE, 80),
        list => list,
    };
    is_made(&list, b"7 turns:\n 24-18 18-13  24-18 13-8", b"\n")
}

/// Whether X is told why he can't play this, also where memory is refused once.
fn is_refused(alloc: Global, board: &Board, turn: &Turn) -> bool {
    let fault = TurnFault::MoreCanBePlayed;
    let refusal = match turn_refusal_text(alloc, board, Player::X, SIX_FIVE, turn, fault) {
        Err(_) => turn_refusal_text(alloc, board, Player::X, SIX_FIVE, turn, fault),
        refusal => refusal,
    };
    is_made(
        &refusal,
        b"you must play both dice: 24-18 18-13 can be",
        b"\n",
    )
}

/// The same, of lists of turns and of why turns are refused.
#[test]
fn refused_growths_of_turns(rt: HostRuntime) {
    let board = record_of(&rt, rt.alloc(), "length 3\nopen 6 5\n")
        .standing()
        .board();
    let is_told = are_listed(rt.alloc(), &board) && is_refused(rt.alloc(), &board, &Turn::new());
    check_last(&rt, rt.alloc(), "list and refusal", is_told);
}
