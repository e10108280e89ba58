//! Turns as people type them. The expected turns are worked out by hand, from where things stand on
//! a board.
mod growths;
mod marks;
mod refusals;
mod turns;
mod uses;

use crate::boards::board;
use crate::checks::check_words;
use bg_board::{Board, Die, Player};
use bg_match::Entry;
use bg_text::entry_text;
use bg_turns::{Dice, Turn};
use bg_typed::{TypedFault, read_turn};
use std::alloc::{AllocError, Global};
use std::process::Abort;

/// Where a turn is typed.
#[derive(Clone, Copy)]
struct Place {
    board: Board,
    player: Player,
    dice: Dice,
}

/// Where X has these dice, and the checkers of X and of O stand so, each in his own numbering, and
/// the others are off.
fn placed(rt: &impl Abort, x: &str, o: &str, first: Die, second: Die) -> Place {
    Place {
        board: board(rt, x, o),
        player: Player::X,
        dice: Dice { first, second },
    }
}

/// Where a player has these dice at the start.
fn start(player: Player, first: Die, second: Die) -> Place {
    Place {
        board: Board::start(),
        player,
        dice: Dice { first, second },
    }
}

/// How a turn is printed.
fn printed(alloc: Global, turn: &Turn) -> Result<String, AllocError> {
    let text = entry_text(Some(Player::X), &Entry::Moved(turn.copy()));
    String::from_str(
        alloc,
        text.as_str().strip_prefix("X ").unwrap_or("no letter"),
    )
}

/// Both turns of which either is meant.
fn both(alloc: Global, one: &Turn, other: &Turn) -> Result<String, AllocError> {
    let (one, other) = (printed(alloc, one)?, printed(alloc, other)?);
    format!(in alloc; "{one} or {other}")
}

/// The turn that is read, or why it is refused; both turns where these hit otherwise.
fn told(alloc: Global, at: &Place, typed: &str) -> Result<String, AllocError> {
    let read = read_turn(alloc, typed.as_bytes(), &at.board, at.player, at.dice);
    match &read {
        Ok(turn) => printed(alloc, turn),
        Err(TypedFault::Ambiguous(one, other)) => both(alloc, one, other),
        Err(fault) => format!(in alloc; "{fault}"),
    }
}

/// Each text is told so.
fn check_typed(rt: &impl Abort, alloc: Global, at: &Place, rows: &[(&str, &str)]) {
    for (typed, wanted) in rows {
        check_words(rt, typed, told(alloc, at, typed), wanted);
    }
}
