//! Where a match stands, as C sees it.
ghost use Rattle.std.specs.Prelude.{◌≡◌};
ghost use Rattle.bg_c.specs.Standings.{dice_codes, dice_in, level_code, phase_code, player_code, player_in};
ghost use Rattle.bg_c.specs.Standings.{standing_fields, turned};

use crate::outcomes::actor_code;
use crate::packets::rules_code;
use bg_board::Player;
use bg_match::{Phase, Standing};
use bg_table::pip_count;
use bg_turns::Dice;

/// Where a match stands, `bg_standing` of the header.
#[repr(C)]
#[derive(Clone, Copy)]
pub struct StandingFields {
    /// The length of the match, in points.
    pub match_length: u32,
    /// The rules of the match: 1 or 2.
    pub rules: u32,
    /// The number of the game, from 1.
    pub game: u32,
    /// 1 in the Crawford game, which is played without the cube; else 0.
    pub crawford: u32,
    /// The points of X.
    pub x_score: u32,
    /// The points of O.
    pub o_score: u32,
    /// The number that the cube shows, from 1.
    pub cube: u32,
    /// The owner of the cube: 1 X, 2 O; 0 where it is in the middle.
    pub cube_owner: u32,
    /// The phase, in the order of the numbers.
    pub phase: u32,
    /// The player of the phase: 1 X, 2 O; 0 at an opening.
    pub player: u32,
    /// The level of an offer to resign: 1 normal, 2 gammon, 3 backgammon; else 0.
    pub level: u32,
    /// The dice that are to be moved; else 0.
    pub dice: [u32; 2],
    /// The one who acts: 0 the referee, 1 X, 2 O, 3 nobody.
    pub actor: u32,
    /// The pip count of X.
    pub x_pips: u32,
    /// The pip count of O.
    pub o_pips: u32,
    /// The checkers of X: off, on the points from 1 to 24 of X, and on the bar.
    pub x_checkers: [u32; 26],
    /// The checkers of O: off, on the points from 1 to 24 of X, and on the bar.
    pub o_checkers: [u32; 26],
    /// 0.
    pub reserved: [u32; 12],
}

/// Returns the numbers of a player's checkers.
fn widened(counts: &[u8; 26]) -> [u32; 26]
    ensures { result ≡ counts.now }
{
    let mut wide = [0; 26];
    for point in 0..26 {
        wide[point] = u32::from(counts[point]);
    }
    wide
}

/// Returns the numbers of a player's checkers by the points of the opponent.
fn turned(counts: &[u8; 26]) -> [u32; 26]
    ensures { result ≡ turned counts.now }
{
    let mut wide = widened(counts);
    wide[1..25].reverse();
    wide
}

/// Returns the number of a player, or 0 where there is none.
fn player_code(player: Option<Player>) -> u32
    ensures { result ≡ player_code player }
{
    match player {
        None => 0,
        Some(Player::X) => 1,
        Some(Player::O) => 2,
    }
}

/// Returns the number of a phase.
fn phase_code(phase: Phase) -> u32
    ensures { result ≡ phase_code phase }
{
    match phase {
        Phase::Opening => 0,
        Phase::ToAct(_) => 1,
        Phase::Doubled(_) => 2,
        Phase::ToMove(_, _) => 3,
        Phase::Resigned(_, _, _) => 4,
        Phase::Over(_) => 5,
    }
}

/// Returns the player of a phase: who is to roll, to answer a double or to move, who has offered to
/// resign, or who has won.
fn player_in(phase: Phase) -> Option<Player>
    ensures { result ≡ player_in phase }
{
    match phase {
        Phase::Opening => None,
        Phase::ToAct(player)
        | Phase::Doubled(player)
        | Phase::ToMove(player, _)
        | Phase::Resigned(player, _, _)
        | Phase::Over(player) => Some(player),
    }
}

/// Returns the dice that are still to be moved in a phase.
fn dice_in(phase: Phase) -> Option<Dice>
    ensures { result ≡ dice_in phase }
{
    match phase {
        Phase::ToMove(_, dice) => Some(dice),
        Phase::Resigned(_, _, dice) => dice,
        _ => None,
    }
}

/// Returns what two dice show, or 0 and 0 where there are none.
fn dice_codes(dice: Option<Dice>) -> [u32; 2]
    ensures { result ≡ dice_codes dice }
{
    match dice {
        None => [0; 2],
        Some(dice) => [dice.first.pips().into(), dice.second.pips().into()],
    }
}

/// Returns the level of the offer to resign in a phase, or 0 where there is none.
fn level_code(phase: Phase) -> u32
    ensures { result ≡ level_code phase }
{
    match phase {
        Phase::Resigned(_, level, _) => level.multiple().into(),
        _ => 0,
    }
}

impl StandingFields {
    /// Returns the numbers of a standing.
    pub(crate) fn of(standing: &Standing) -> StandingFields
        ensures { result ≡ standing_fields standing.now }
    {
        let (board, phase, cube) = (standing.board(), standing.phase(), standing.cube());
        let (x_score, o_score) = standing.score();
        StandingFields {
            match_length: standing.length().into(),
            rules: rules_code(standing.rules()),
            game: standing.game().into(),
            crawford: standing.crawford().into(),
            x_score: x_score.into(),
            o_score: o_score.into(),
            cube: cube.value.into(),
            cube_owner: player_code(cube.owner),
            phase: phase_code(phase),
            player: player_code(player_in(phase)),
            level: level_code(phase),
            dice: dice_codes(dice_in(phase)),
            actor: actor_code(standing.actor()),
            x_pips: pip_count(&board, Player::X).into(),
            o_pips: pip_count(&board, Player::O).into(),
            x_checkers: widened(board.checkers(Player::X)),
            o_checkers: turned(board.checkers(Player::O)),
            reserved: [0; 12],
        }
    }
}
