//! The board text of a standing.
ghost use Rattle.std.specs.Prelude.{◌≡◌, ◌≤◌, ◌++◌, ◌-◌, replicate, IfOk, OnOk, IsTrue};
ghost use Rattle.std.specs.List.{list_all};
ghost use Rattle.std.specs.Fmt.{decimal};
ghost use Rattle.bg_match.specs.Actor.{passes};
ghost use Rattle.bg_turns.specs.declared.throws.Dice.{Dice};
ghost use Rattle.bg_text.specs.Boards.BoardText.{board_text as text_of_board, line_text, header_line, game_part};
ghost use Rattle.bg_text.specs.Boards.BoardText.{score_part};
ghost use Rattle.bg_text.specs.Boards.BoardText.{cube_part, crawford_mark as mark, owner_word, in_four, cell};
ghost use Rattle.bg_text.specs.Boards.BoardText.{cells_line};
ghost use Rattle.bg_text.specs.Boards.BoardText.{numbers_line, counts_part, aside_line, phase_line, turn_words};
ghost use Rattle.bg_text.specs.Boards.BoardText.{is_point};

use crate::entries::names::{letter, level_word};
use crate::printing::{put_number, put_text};
use crate::terms_texts::put_terms;
use bg_board::{BAR, Board, OFF, Player};
use bg_match::{Actor, Cube, Phase, Standing};
use std::alloc::{AllocError, Global};

/// The points of the upper half of the board, in X's numbering.
const UPPER: [u8; 12] = [13, 14, 15, 16, 17, 18, 19, 20, 21, 22, 23, 24];

/// The points of the lower half of the board, in X's numbering.
const LOWER: [u8; 12] = [12, 11, 10, 9, 8, 7, 6, 5, 4, 3, 2, 1];

/// Returns the board text of a standing: seven lines, as docs/FORMATS.md, "Board text", describes
/// them.
///
/// # Errors
/// AllocError where there is no memory for it.
pub fn board_text(alloc: Global, standing: &Standing) -> Result<Vec<u8>, AllocError>
    ensures { IfOk result (λ text. text.items ≡ text_of_board standing.now) }
{
    let board = standing.board();
    let mut out = Vec::new(alloc);
    put_header(&mut out, standing)?;
    put_numbers(&mut out, &UPPER)?;
    put_cells(&mut out, &board, &UPPER)?;
    put_cells(&mut out, &board, &LOWER)?;
    put_numbers(&mut out, &LOWER)?;
    put_aside(&mut out, &board)?;
    put_phase_line(&mut out, standing)?;
    Ok(out)
}

/// Appends the first line: length, rules, game, score and cube.
fn put_header(out: &mut Vec<u8>, standing: &Standing) -> Result<(), AllocError>
    ensures { OnOk result (out.new.items ≡ out.old.items ++ line_text (header_line standing.now)) }
{
    put_game(out, standing)?;
    put_score(out, standing)?;
    put_cube(out, standing.cube())?;
    put_text(out, crawford_mark(standing.crawford()))?;
    put_text(out, "\n")?;
    Ok(())
}

/// Appends the length, the rules and the number of the game, as the header has them.
fn put_game(out: &mut Vec<u8>, standing: &Standing) -> Result<(), AllocError>
    ensures { OnOk result (out.new.items ≡ out.old.items ++ game_part standing.now) }
{
    put_terms(out, standing.length(), standing.rules())?;
    put_text(out, " game ")?;
    put_number(out, standing.game().into())
}

/// Appends the score, as the header has it.
fn put_score(out: &mut Vec<u8>, standing: &Standing) -> Result<(), AllocError>
    ensures { OnOk result (out.new.items ≡ out.old.items ++ score_part standing.now) }
{
    let (x, o) = standing.score();
    put_text(out, " score ")?;
    put_number(out, x.into())?;
    put_text(out, "-")?;
    put_number(out, o.into())
}

/// Appends the cube, as the header has it.
fn put_cube(out: &mut Vec<u8>, cube: Cube) -> Result<(), AllocError>
    ensures { OnOk result (out.new.items ≡ out.old.items ++ cube_part cube) }
{
    put_text(out, " cube ")?;
    put_number(out, cube.value.into())?;
    put_text(out, " ")?;
    put_text(out, owner(cube.owner))
}

/// Returns the word for the owner of the cube.
fn owner(owner: Option<Player>) -> &'static str
    ensures { result.now ≡ owner_word owner }
{
    match owner {
        None => "middle",
        Some(player) => letter(player),
    }
}

/// Returns the header's mark of a Crawford game, which is empty for other games.
fn crawford_mark(crawford: bool) -> &'static str
    ensures { result.now ≡ mark crawford }
{
    if crawford { " crawford" } else { "" }
}

/// Appends the line with the numbers of these points.
fn put_numbers(out: &mut Vec<u8>, points: &[u8]) -> Result<(), AllocError>
    ensures { OnOk result (out.new.items ≡ out.old.items ++ line_text (numbers_line points.now)) }
{
    for point in points {
        put_in_four(out, "", (*point).into())?;
    }
    put_text(out, "\n")
}

/// Appends the line with the checkers on these points.
fn put_cells(out: &mut Vec<u8>, board: &Board, points: &[u8]) -> Result<(), AllocError>
    requires { IsTrue (list_all is_point points.now) }
    ensures { OnOk result (out.new.items ≡ out.old.items ++ line_text (cells_line board.now points.now)) }
{
    for point in points {
        put_cell(out, board, *point)?;
    }
    put_text(out, "\n")
}

/// Appends the cell of a point: the checkers on it, or a dot.
fn put_cell(out: &mut Vec<u8>, board: &Board, point: u8) -> Result<(), AllocError>
    requires { IsTrue (is_point point) }
    ensures { OnOk result (out.new.items ≡ out.old.items ++ in_four (cell board.now point)) }
{
    let x = board.count(Player::X, point);
    let o = board.count(Player::O, BAR - point);
    if x > 0 {
        put_in_four(out, "X", x.into())
    } else if o > 0 {
        put_in_four(out, "O", o.into())
    } else {
        put_text(out, "   .")
    }
}

/// Appends a mark of at most one letter and a number below 100, right-aligned in four columns.
fn put_in_four(out: &mut Vec<u8>, mark: &str, number: u32) -> Result<(), AllocError>
    ensures { OnOk result (out.new.items ≡ out.old.items ++ in_four (mark.now ++ decimal number)) }
{
    let mut buffer = itoa::Buffer::new();
    let digits = buffer.format(number);
    put_text(out, padding(mark.len() + digits.len()))?;
    put_text(out, mark)?;
    put_text(out, digits)
}

/// Returns the spaces that pad a text of this length to four columns.
fn padding(length: usize) -> &'static str
    ensures { result.now ≡ replicate (4 - length) 32 }
{
    match length {
        0 => "    ",
        1 => "   ",
        2 => "  ",
        3 => " ",
        _ => "",
    }
}

/// Appends the line with the checkers on the bar and those borne off.
fn put_aside(out: &mut Vec<u8>, board: &Board) -> Result<(), AllocError>
    ensures { OnOk result (out.new.items ≡ out.old.items ++ line_text (aside_line board.now)) }
{
    put_text(out, "bar")?;
    put_counts(out, board, BAR)?;
    put_text(out, " off")?;
    put_counts(out, board, OFF)?;
    put_text(out, "\n")
}

/// Appends the number of checkers that each player has on a point of their own numbering.
fn put_counts(out: &mut Vec<u8>, board: &Board, point: u8) -> Result<(), AllocError>
    requires { point ≤ 25 }
    ensures { OnOk result (out.new.items ≡ out.old.items ++ counts_part board.now point) }
{
    put_text(out, " X ")?;
    put_number(out, board.count(Player::X, point).into())?;
    put_text(out, " O ")?;
    put_number(out, board.count(Player::O, point).into())
}

/// Appends the last line: what happens next.
fn put_phase_line(out: &mut Vec<u8>, standing: &Standing) -> Result<(), AllocError>
    ensures { OnOk result (out.new.items ≡ out.old.items ++ line_text (phase_line standing.now)) }
{
    put_phase(out, standing)?;
    put_text(out, "\n")
}

/// Appends what happens next, as in `X to roll`: the last line of the board text, without its line
/// feed (docs/FORMATS.md, "Board text").
///
/// # Errors
/// AllocError where there is no memory; then some of it may be appended.
pub fn put_phase(out: &mut Vec<u8>, standing: &Standing) -> Result<(), AllocError>
    ensures { OnOk result (out.new.items ≡ out.old.items ++ phase_line standing.now) }
{
    match standing.phase() {
        Phase::Opening => put_text(out, "opening"),
        Phase::ToAct(player) => {
            put_text(out, letter(player))?;
            put_text(out, " to roll")
        }
        Phase::Doubled(player) => {
            put_text(out, letter(player))?;
            put_text(out, " to answer the double")
        }
        Phase::ToMove(player, dice) => {
            put_text(out, letter(player))?;
            put_text(out, doing(standing))?;
            put_number(out, dice.first.pips().into())?;
            put_text(out, " ")?;
            put_number(out, dice.second.pips().into())
        }
        Phase::Resigned(player, level, _) => {
            put_text(out, letter(player))?;
            put_text(out, " resigns ")?;
            put_text(out, level_word(level))
        }
        Phase::Over(player) => {
            put_text(out, letter(player))?;
            put_text(out, " wins the match")
        }
    }
}

/// Returns the words for what becomes of a turn: the referee passes it where it is the one to act.
fn doing(standing: &Standing) -> &'static str
    ensures { (player : Player) (dice : Dice) → standing.now.phase ≡ Phase.ToMove player dice
        → result.now ≡ turn_words (passes standing.now) }
{
    match standing.actor() {
        Actor::Referee => " to pass ",
        Actor::Seat(_) | Actor::Nobody => " to move ",
    }
}
