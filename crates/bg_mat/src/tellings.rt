//! What the entries of a record tell in a match file.
ghost use Rattle.std.specs.Prelude.{◌≡◌, ◌*◌, ◌<◌, ◌≤◌, length};
ghost use Rattle.bg_mat.specs.Turns.{HasHits, steps_of};
ghost use Rattle.bg_mat.specs.Tellings.{HasGameNumbers, IsDeedIn, IsWinOf, TellsDice, TellsEntry, TellsMove};
ghost use Rattle.bg_mat.specs.Tellings.{TellsWin, is_new_hit};

pub(crate) mod reading_once;
pub(crate) mod retelling;
pub(crate) mod telling_apart;

use crate::movements::is_reached;
use crate::movements::legs::{Leg, Legs};
use crate::rows::cells::{Cell, Win};
use arrayvec::ArrayVec;
use bg_board::{BAR, Board, OFF, Player, Step};
use bg_match::{Entry, Phase, Standing};

/// The start of a game: its number, and the scores of X and of O before it.
#[derive(Clone, Copy, Debug, PartialEq, Eq)]
pub(crate) struct GameStart {
    pub(crate) number: u8,
    pub(crate) x: u16,
    pub(crate) o: u16,
}

/// What a match file says of a record, piece by piece.
#[derive(Debug, PartialEq, Eq, Drop)]
pub(crate) enum Telling {
    /// A game begins.
    Game(GameStart),
    /// A player does something.
    Does(Player, Cell),
}

/// Returns whether the last of these steps is the first that ends where they hit.
fn last_hits(board: &Board, player: Player, steps: &[Step], last: Step) -> bool
    ensures { result ≡ is_new_hit board.now player steps.now last }
{
    let to = last.to();
    to > OFF && board.count(player.opponent(), BAR - to) == 1 && !is_reached(steps, to)
}

/// Returns the steps of a turn as legs. A leg has the mark of a hit where it is the first that ends
/// where the turn hits.
fn legs_of(board: &Board, player: Player, steps: &[Step]) -> Legs
    requires { length steps.now ≤ 4 }
    ensures steps { steps_of result.items ≡ steps.now }
    ensures hits { HasHits board.now player result.items steps.now }
{
    let mut legs = ArrayVec::new();
    for (index, step) in steps.iter().enumerate() {
        let hits = last_hits(board, player, &steps[..index], *step);
        legs.push(Leg { step: *step, hits });
    }
    legs
}

/// Returns the dice that are left to move in a phase, as a turn without a movement.
pub(crate) fn dice_left(phase: Phase) -> Option<Telling>
    ensures { TellsDice phase result }
{
    match phase {
        Phase::ToMove(player, dice) | Phase::Resigned(player, _, Some(dice)) => {
            Some(Telling::Does(player, Cell::Turn(dice, ArrayVec::new())))
        }
        _ => None,
    }
}

/// Returns the turn with these steps.
fn turn_in(standing: &Standing, steps: &[Step]) -> Option<Telling>
    requires { length steps.now ≤ 4 }
    ensures { TellsMove standing.now.board standing.now.phase steps.now result }
{
    match standing.phase() {
        Phase::ToMove(player, dice) => {
            let legs = legs_of(&standing.board(), player, steps);
            Some(Telling::Does(player, Cell::Turn(dice, legs)))
        }
        _ => None,
    }
}

/// Returns this cell for the player who is to roll, or to answer a double.
fn deed_in(phase: Phase, cell: Cell) -> Option<Telling>
    ensures { IsDeedIn phase cell result }
{
    match phase {
        Phase::ToAct(player) | Phase::Doubled(player) => Some(Telling::Does(player, cell)),
        _ => None,
    }
}

/// Returns the start of the game that is to be opened.
fn game_of(standing: &Standing) -> Telling
    ensures told { result ≡ Telling.Game (record {
      number = standing.now.game;
      x = standing.now.x_score;
      o = standing.now.o_score;
    }) }
    ensures few { HasGameNumbers (record {
      number = standing.now.game;
      x = standing.now.x_score;
      o = standing.now.o_score;
    }) }
{
    let (x, o) = standing.score();
    let number = standing.game();
    Telling::Game(GameStart { number, x, o })
}

/// Returns the value of the cube after the next double.
fn doubled_cube(standing: &Standing) -> u16
    ensures value { result ≡ 2 * standing.now.cube.value }
    ensures few { result ≤ 510 }
{
    2 * u16::from(standing.cube().value)
}

/// Returns what an entry says, except for a win. Dice come with their move, so a roll itself says
/// nothing. Dice that are left when a game is resigned come without a move, with the acceptance.
pub(crate) fn told_by(before: &Standing, entry: &Entry) -> Option<Telling>
    ensures { TellsEntry before.now entry.now result }
{
    let phase = before.phase();
    match entry {
        Entry::Opening(_, _) => Some(game_of(before)),
        Entry::Moved(turn) => turn_in(before, turn.steps()),
        Entry::Passed => turn_in(before, &[]),
        Entry::Doubled => deed_in(phase, Cell::Doubles(Some(doubled_cube(before)))),
        Entry::Taken => deed_in(phase, Cell::Takes),
        Entry::Dropped => deed_in(phase, Cell::Drops),
        Entry::Accepted => dice_left(phase),
        Entry::Rolled(_) | Entry::Resigned(_) | Entry::Rejected => None,
    }
}

/// Returns the win of a player whose score has grown.
fn win_of(winner: Player, before: u16, after: u16, length: u8) -> Telling
    requires { before < after }
    ensures { IsWinOf winner before after length result }
{
    let points = after - before;
    let ends_match = after >= u16::from(length);
    Telling::Does(winner, Cell::Wins(Win { points, ends_match }))
}

/// Returns the win that an entry leads to.
pub(crate) fn win_between(before: &Standing, after: &Standing) -> Option<Telling>
    ensures { TellsWin before.now after.now result }
{
    let (lost, won) = (before.score(), after.score());
    let length = after.length();
    if won.0 > lost.0 {
        Some(win_of(Player::X, lost.0, won.0, length))
    } else if won.1 > lost.1 {
        Some(win_of(Player::O, lost.1, won.1, length))
    } else {
        None
    }
}
