//! The legal turns, with the greatest alone of those that lead to one position.
ghost use Rattle.std.specs.Prelude.{◌≡◌, ◌↔◌, Contains, IfOk, IsTrue};
ghost use Rattle.bg_turns.specs.InOrder.{AreLegalSteps};
ghost use Rattle.bg_turns.specs.Turn.{after_steps};
ghost use Rattle.bg_table.specs.DistinctTurns.{AreDistinctTurns};

use bg_board::{Board, Player, Step};
use bg_turns::{Dice, Turn, legal_turns};
use std::alloc::{AllocError, Global};

/// Returns the distinct turns, the greatest first. Turns that lead to the same position, and so
/// make the same hits, are listed once, by the greatest of them.
pub(crate) fn distinct_turns(
    alloc: Global,
    board: &Board,
    player: Player,
    dice: Dice,
) -> Result<Vec<Turn>, AllocError>
    ensures { IfOk result (λ turns. AreDistinctTurns board.now player dice turns.items) }
{
    let mut distinct = Vec::new(alloc);
    let mut boards = Vec::new(alloc);
    let turns = legal_turns(alloc, board, player, dice)?;
    for index in 0..turns.len() {
        let turn = &turns[index];
        let after = board_after(*board, player, turn.steps());
        if !is_among(&boards, &after) {
            boards.push(after)?;
            distinct.push(turn.copy())?;
        }
    }
    Ok(distinct)
}

/// Returns whether a board is among some others.
fn is_among(boards: &[Board], board: &Board) -> bool
    ensures { IsTrue result ↔ Contains boards.now board.now }
{
    boards.contains(board)
}

/// Returns the board after steps that can be played.
fn board_after(board: Board, player: Player, steps: &[Step]) -> Board
    requires { AreLegalSteps board player steps.now }
    ensures { result ≡ after_steps board player steps.now }
{
    let mut after = board;
    match steps.split_first() {
        None => after,
        Some((step, rest)) => {
            after.play(player, *step);
            board_after(after, player, rest)
        }
    }
}
