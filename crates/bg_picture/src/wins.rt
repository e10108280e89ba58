//! The ends of games.
ghost use Rattle.std.specs.Prelude.{◌≡◌, Some, None, MatchOption};
ghost use Rattle.bg_match.specs.Follows.{CanFollow, Follows};
ghost use Rattle.bg_match.specs.State.{IsState};
ghost use Rattle.bg_picture.specs.Wins.{win_in, win_of as win_by};
ghost use Rattle.bg_picture.specs.Wins.{board_after as board_behind, end_of as end_behind, has_ended as is_behind_end};

use bg_board::{Board, Player};
use bg_match::{Entry, Level, Phase, Standing, level_of};
use bg_turns::judge_turn;

/// The way in which a player won a game.
#[derive(Clone, Copy)]
pub(crate) enum Way {
    /// Bearing off the last checker.
    BearingOff(Level),
    /// A double that the other player dropped.
    Drop,
    /// The other player's resignation at a level, which the winner accepted.
    Resignation(Level),
}

/// The winner of a game, the number of points, and how it was won.
#[derive(Clone, Copy)]
pub(crate) struct Win {
    pub(crate) winner: Player,
    pub(crate) points: u16,
    pub(crate) way: Way,
}

/// The end of a game: how it was won, and its last position with the score after it.
#[derive(Clone, Copy)]
pub(crate) struct End {
    pub(crate) win: Win,
    pub(crate) standing: Standing,
}

/// Returns the end of the game, if an entry that leads from one standing to the next ends it.
pub(crate) fn end_of(standing: &Standing, entry: &Entry, next: &Standing) -> Option<End>
    requires { Follows standing.now entry.now next.now }
    ensures { MatchOption result (win_by standing.now entry.now ≡ None)
        (λ end. (win_by standing.now entry.now ≡ Some end.win)
        × (end.standing ≡ end_behind standing.now entry.now next.now)) }
{
    if !has_ended(next.phase()) {
        return None;
    }
    let board = board_after(standing, entry);
    let win = win_of(standing, entry, &board)?;
    keeps_its_laws(standing);
    let standing = Standing::from_parts(
        next.length(),
        next.rules(),
        board,
        next.phase(),
        standing.cube(),
        next.score(),
        standing.crawford(),
        standing.game(),
    )
    .unwrap();
    Some(End { win, standing })
}

/// Does nothing. Its contract gives the check what holds of every standing.
fn keeps_its_laws(standing: &Standing)
    ensures { IsState standing.now }
{
    let _ = standing.length();
}

/// Returns whether an entry that leads to this phase ended a game.
fn has_ended(phase: Phase) -> bool
    ensures { result ≡ is_behind_end phase }
{
    matches!(phase, Phase::Opening | Phase::Over(_))
}

/// Returns the board of the game after an entry that follows.
fn board_after(standing: &Standing, entry: &Entry) -> Board
    requires { CanFollow standing.now entry.now }
    ensures { result ≡ board_behind entry.now standing.now.phase standing.now.board }
{
    match (standing.phase(), entry) {
        (Phase::ToMove(player, dice), Entry::Moved(turn)) => {
            judge_turn(&standing.board(), player, dice, turn).unwrap()
        }
        _ => standing.board(),
    }
}

/// Returns what an entry that follows wins, on the board after it; `None` where the game goes on.
fn win_of(standing: &Standing, entry: &Entry, board: &Board) -> Option<Win>
    ensures { result ≡ win_in entry.now standing.now.phase board.now standing.now.cube.value }
{
    let cube = u16::from(standing.cube().value);
    match (standing.phase(), entry) {
        (Phase::ToMove(player, _), Entry::Moved(_)) => {
            let level = level_of(board, player)?;
            Some(Win {
                winner: player,
                points: level.multiple() * cube,
                way: Way::BearingOff(level),
            })
        }
        (Phase::Doubled(player), Entry::Dropped) => Some(Win {
            winner: player.opponent(),
            points: cube,
            way: Way::Drop,
        }),
        (Phase::Resigned(player, level, _), Entry::Accepted) => Some(Win {
            winner: player.opponent(),
            points: level.multiple() * cube,
            way: Way::Resignation(level),
        }),
        _ => None,
    }
}
