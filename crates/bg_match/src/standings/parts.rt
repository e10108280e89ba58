//! A standing from its parts.
ghost use Rattle.std.specs.Prelude.{◌≡◌, ◌↔◌, IsSome, IfSome, IsTrue};
ghost use Rattle.std.specs.Int.{IsPowerOfTwo};
ghost use Rattle.bg_match.specs.State.{IsCubeOf, AreScoresOf};
ghost use Rattle.bg_match.specs.Terms.{terms_of};

use crate::{
    Cube, GREATEST_CUBE, GREATEST_SCORE, LONGEST_MATCH, Phase, Rules, SHORTEST_MATCH, Standing,
    Terms,
};
use bg_board::{Board, Player};

impl Standing {
    ghost use Rattle.bg_match.specs.State.{IsState, state_of};

    /// Returns the standing of these parts, with the score of X first. `None` unless all of these
    /// hold:
    /// - the length is from 1 to 99;
    /// - the cube is a power of two up to 128, below 128 while a double is answered, and in the
    ///   middle exactly where it is 1;
    /// - both scores are below the length, but for the winner's, which is from the length to 482;
    /// - the number of the game is from 1 to one more than the points scored.
    pub fn from_parts(
        length: u8,
        rules: Rules,
        board: Board,
        phase: Phase,
        cube: Cube,
        score: (u16, u16),
        crawford: bool,
        game: u8,
    ) -> Option<Standing>
        ensures some { IsSome result ↔ IsState (state_of (terms_of length rules) board phase cube score crawford game) }
        ensures value { IfSome result (λ s. s ≡ state_of (terms_of length rules) board phase cube score crawford game) }
    {
        let games = u32::from(score.0) + u32::from(score.1) + 1;
        if !(SHORTEST_MATCH..=LONGEST_MATCH).contains(&length)
            || game < 1
            || u32::from(game) > games
        {
            return None;
        }
        if !is_cube(cube, phase) || !are_scores(phase, u16::from(length), score) {
            return None;
        }
        Some(Standing {
            terms: Terms { length, rules },
            board,
            phase,
            cube,
            score,
            crawford,
            game,
        })
    }
}

/// Returns whether the cube is as the phase allows.
#[tactic(auto, using(crate::proofs::States::power_of_two))]
fn is_cube(cube: Cube, phase: Phase) -> bool
    ensures { IsTrue result ↔ (IsPowerOfTwo cube.value × IsCubeOf phase cube.value
        × ((cube.owner ≡ None) ↔ (cube.value ≡ 1))) }
{
    cube.value.is_power_of_two()
        && is_within_limit(cube.value, phase)
        && cube.owner.is_none() == (cube.value == 1)
}

/// Returns whether the cube may show this value in the phase.
fn is_within_limit(value: u8, phase: Phase) -> bool
    ensures { IsTrue result ↔ IsCubeOf phase value }
{
    match phase {
        Phase::Doubled(_) => value < GREATEST_CUBE,
        _ => value <= GREATEST_CUBE,
    }
}

/// Returns whether the scores are as the phase allows.
fn are_scores(phase: Phase, match_length: u16, score: (u16, u16)) -> bool
    ensures { IsTrue result ↔ AreScoresOf phase match_length score.0 score.1 }
{
    let (x, o) = score;
    match phase {
        Phase::Over(Player::X) => match_length <= x && x <= GREATEST_SCORE && o < match_length,
        Phase::Over(Player::O) => match_length <= o && o <= GREATEST_SCORE && x < match_length,
        _ => x < match_length && o < match_length,
    }
}
