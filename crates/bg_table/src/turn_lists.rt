//! The list of the turns that a player may play.
ghost use Rattle.std.specs.Prelude.{◌≡◌, ◌≢◌, ◌≤◌, ◌∷◌, [], ◌++◌, length, replicate, All, IfOk, MatchOption, OnOk};
ghost use Rattle.bg_turns.specs.InOrder.{AreLegalSteps};
ghost use Rattle.bg_table.specs.TurnLists.{IsTurnList, cell_width as width_of, cells_text, ends_line as is_end, gap};
ghost use Rattle.bg_table.specs.TurnLists.{hit_mark as mark_of_hit, in_row as cells_in_row, list_text, marked_steps};
ghost use Rattle.bg_table.specs.TurnLists.{one_text, only_text, turns_text};

use crate::distinct_turns::distinct_turns;
use crate::step_texts::put_spaced;
use bg_board::{BAR, Board, OFF, Player, Step};
use bg_text::{put_number, put_text};
use bg_turns::{Dice, Turn};
use std::alloc::{AllocError, Global};

/// Returns the lines that list the turns that a player may play with these dice, the greatest
/// first, in the player's own numbering. Turns that lead to the same position are listed once, by
/// the greatest of them. A `*` stands behind a step that hits.
///
/// The first line gives their number, as in `3 turns:`. Below it they stand in columns, line by
/// line: as many as fit into lines of this number of letters, which is 20 to 400 at a terminal.
/// Where a line is too short for a turn, each turn has a line of its own. A single turn is on the
/// first line, and for the turn without steps that line says how to play it. (Under rules two the
/// referee plays that turn: then no player is asked for it.)
///
/// # Errors
/// AllocError where there is no memory for it, or for the list of legal turns.
pub fn legal_turns_text(
    alloc: Global,
    board: &Board,
    player: Player,
    dice: Dice,
    columns: u16,
) -> Result<Vec<u8>, AllocError>
    ensures { IfOk result (λ text. IsTurnList board.now player dice columns text.items) }
{
    let turns = distinct_turns(alloc, board, player, dice)?;
    let mut out = Vec::new(alloc);
    put_list(alloc, &mut out, board, player, &turns, columns)?;
    Ok(out)
}

/// Appends the list of some turns.
fn put_list(
    alloc: Global,
    out: &mut Vec<u8>,
    board: &Board,
    player: Player,
    turns: &[Turn],
    columns: u16,
) -> Result<(), AllocError>
    requires { All (AreLegalSteps board.now player) turns.now }
    ensures { OnOk result (out.new.items ≡ out.old.items ++ list_text board.now player columns turns.now) }
{
    match only_of(turns) {
        Some(only) => put_only(out, board, player, only.steps()),
        None => put_turns(alloc, out, board, player, turns, columns),
    }
}

/// Returns the only one of some turns; `None` where there are none, or more.
fn only_of(turns: &[Turn]) -> Option<&Turn>
    ensures { MatchOption result (length turns.now ≢ 1) (λ only. turns.now ≡ only.now ∷ []) }
{
    match turns {
        [only] => Some(only),
        _ => None,
    }
}

/// Appends the line of the only turn.
fn put_only(
    out: &mut Vec<u8>,
    board: &Board,
    player: Player,
    steps: &[Step],
) -> Result<(), AllocError>
    requires { AreLegalSteps board.now player steps.now }
    ensures { OnOk result (out.new.items ≡ out.old.items ++ only_text board.now player steps.now) }
{
    if steps.is_empty() {
        return put_text(out, "you can't move: `move` passes your turn\n");
    }
    put_one(out, board, player, steps)
}

/// Appends the line of the only turn, which has steps.
#[tactic(auto, unfolding(crate::specs::TurnLists::one_text))]
fn put_one(
    out: &mut Vec<u8>,
    board: &Board,
    player: Player,
    steps: &[Step],
) -> Result<(), AllocError>
    requires { AreLegalSteps board.now player steps.now }
    ensures { OnOk result (out.new.items ≡ out.old.items ++ one_text board.now player steps.now) }
{
    put_text(out, "the only turn:")?;
    put_marked(out, *board, player, steps)?;
    put_text(out, " (`m` plays it)\n")?;
    Ok(())
}

/// Appends the lines of some turns.
#[tactic(auto, unfolding(crate::specs::TurnLists::turns_text))]
fn put_turns(
    alloc: Global,
    out: &mut Vec<u8>,
    board: &Board,
    player: Player,
    turns: &[Turn],
    columns: u16,
) -> Result<(), AllocError>
    requires { All (AreLegalSteps board.now player) turns.now }
    ensures { OnOk result (out.new.items ≡ out.old.items ++ turns_text board.now player columns turns.now) }
{
    put_number(out, turns.len() as u64)?;
    put_text(out, " turns:\n")?;
    let width = cell_width(alloc, board, player, turns)?;
    put_cells(out, board, player, turns, width, in_row(columns, width))?;
    Ok(())
}

/// Returns the number of cells of a width that fit into a line, the last of them without the blank
/// at its end. It is at least 1.
fn in_row(columns: u16, width: usize) -> usize
    requires { 1 ≤ width }
    ensures value { result ≡ cells_in_row columns width }
    ensures some { 1 ≤ result }
{
    ((usize::from(columns) + 1) / width).max(1)
}

/// Returns the width of the cells: one blank more than the longest text of a turn.
fn cell_width(
    alloc: Global,
    board: &Board,
    player: Player,
    turns: &[Turn],
) -> Result<usize, AllocError>
    requires { All (AreLegalSteps board.now player) turns.now }
    ensures { IfOk result (λ width. width ≡ width_of board.now player turns.now) }
{
    let mut width = 1;
    for index in 0..turns.len() {
        let mut cell = Vec::new(alloc);
        put_marked(&mut cell, *board, player, turns[index].steps())?;
        width = (cell.len() + 1).max(width);
    }
    Ok(width)
}

/// Appends the texts of turns in cells of this width, with `row` cells a line.
fn put_cells(
    out: &mut Vec<u8>,
    board: &Board,
    player: Player,
    turns: &[Turn],
    width: usize,
    row: usize,
) -> Result<(), AllocError>
    requires legal { All (AreLegalSteps board.now player) turns.now }
    requires some { 1 ≤ row }
    ensures { OnOk result (out.new.items ≡ out.old.items ++ cells_text board.now player width row 1 turns.now) }
{
    for index in 0..turns.len() {
        let start = out.len();
        put_marked(out, *board, player, turns[index].steps())?;
        let spare = width.saturating_sub(out.len() - start);
        let number = index + 1;
        put_gap(out, spare, ends_line(number, row, turns.len() - number))?;
    }
    Ok(())
}

/// Returns whether a line ends behind the cell with this number, counted from 1. A line has `row`
/// cells, and `behind` cells follow this one.
fn ends_line(number: usize, row: usize, behind: usize) -> bool
    requires { 1 ≤ row }
    ensures { result ≡ is_end number row behind }
{
    number % row == 0 || behind == 0
}

/// Appends what stands behind a cell: the end of a line, or `spare` blanks.
fn put_gap(out: &mut Vec<u8>, spare: usize, ends: bool) -> Result<(), AllocError>
    ensures { OnOk result (out.new.items ≡ out.old.items ++ gap spare ends) }
{
    if ends {
        return put_text(out, "\n");
    }
    put_blanks(out, spare)
}

/// Appends `count` blanks.
fn put_blanks(out: &mut Vec<u8>, count: usize) -> Result<(), AllocError>
    ensures { OnOk result (out.new.items ≡ out.old.items ++ replicate count 32) }
{
    'blanks: for _ in 0..count {
        out.push(b' ')?;
    }
    Ok(())
}

/// Appends steps that can be played, each behind a blank, with a mark behind those that hit.
#[tactic(auto, unfolding(crate::specs::TurnLists::marked_steps))]
pub(crate) fn put_marked(
    out: &mut Vec<u8>,
    board: Board,
    player: Player,
    steps: &[Step],
) -> Result<(), AllocError>
    requires { AreLegalSteps board player steps.now }
    ensures { OnOk result (out.new.items ≡ out.old.items ++ marked_steps board player steps.now) }
{
    let Some((step, rest)) = steps.split_first() else {
        return Ok(());
    };
    put_spaced(out, *step)?;
    put_text(out, hit_mark(&board, player, *step))?;
    let mut after = board;
    after.play(player, *step);
    put_marked(out, after, player, rest)
}

/// Returns the mark of a step that hits, which is empty for other steps.
fn hit_mark(board: &Board, player: Player, step: Step) -> &'static str
    ensures { result.now ≡ mark_of_hit board.now player step }
{
    if step.to() != OFF && board.count(player.opponent(), BAR - step.to()) == 1 {
        "*"
    } else {
        ""
    }
}
