//! The standing of a match.
ghost use Rattle.std.specs.Prelude.{◌≡◌, ◌≤◌, false, MatchOption};
ghost use Rattle.bg_match.specs.Terms.{match_length, rules_of, terms_of};
ghost use Rattle.bg_match.specs.Limits.{longest_match, shortest_match};

mod parts;
mod transitions;
mod wins;

use crate::{Actor, Cube, Phase, Rules, Terms};
use bg_board::{Board, Player};
use bg_turns::can_step;
use std::marker::Model;

/// The standing of a match: its length, the scores of X and of O, and what the current game has.
/// These are the board, the phase, the cube, whether it is the Crawford game, and its number,
/// from 1.
#[derive(Clone, Copy, Debug, PartialEq, Eq)]
pub struct Standing {
    terms: Terms,
    game: u8,
    crawford: bool,
    board: Board,
    phase: Phase,
    cube: Cube,
    score: (u16, u16),
}

impl Model for Standing {
    ghost use Rattle.bg_match.specs.State.{State, IsState, state_of};

    ghost Value = { State };

    ghost view = { λ s. state_of s.terms s.board s.phase s.cube s.score s.crawford s.game };

    ghost invariant = { λ s. IsState (state_of s.terms s.board s.phase s.cube s.score s.crawford s.game) };

    ghost inverse = { λ v. record {
      terms = v.terms;
      board = v.board;
      phase = v.phase;
      cube = v.cube;
      score = (v.x_score, v.o_score);
      crawford = v.crawford;
      game = v.game;
    } };
}

impl Standing {
    ghost use Rattle.bg_match.specs.State.{IsState, start_of};
    ghost use Rattle.bg_match.specs.Actor.{actor_of, passes, IsPassOf};

    /// Returns the standing at the start of a match of this length, from 1 to 99 points, and of
    /// these rules.
    pub fn start(length: u8, rules: Rules) -> Standing
        requires shortest { shortest_match ≤ length }
        requires longest { length ≤ longest_match }
        ensures { result ≡ start_of (terms_of length rules) }
    {
        Standing {
            terms: Terms { length, rules },
            board: Board::start(),
            phase: Phase::Opening,
            cube: Cube::MIDDLE,
            score: (0, 0),
            crawford: length == 1,
            game: 1,
        }
    }

    /// Returns the length of the match in points, from 1 to 99.
    pub fn length(&self) -> u8
        ensures value { result ≡ match_length self.now.terms }
        ensures standing { IsState self.now }
    {
        self.terms.length
    }

    /// Returns the rules of the match.
    pub fn rules(&self) -> Rules
        ensures { result ≡ rules_of self.now.terms }
    {
        self.terms.rules
    }

    /// Returns the player whose turn is to be passed: under rules two, a player who is to move and
    /// has no step.
    #[tactic(auto, unfolding(crate::specs::Actor::passes, crate::specs::Actor::passes_in))]
    fn passing(&self) -> Option<Player>
        ensures { MatchOption result (passes self.now ≡ false) (λ player. IsPassOf self.now player) }
    {
        match (self.phase, self.terms.rules) {
            (Phase::ToMove(player, dice), Rules::Two) if !can_step(&self.board, player, dice) => {
                Some(player)
            }
            _ => None,
        }
    }

    /// Returns the board of the current game, or of the last game where the match is over.
    pub fn board(&self) -> Board
        ensures { result ≡ self.now.board }
    {
        self.board
    }

    /// Returns the phase, which says what is to happen next.
    pub fn phase(&self) -> Phase
        ensures { result ≡ self.now.phase }
    {
        self.phase
    }

    /// Returns the doubling cube.
    pub fn cube(&self) -> Cube
        ensures { result ≡ self.now.cube }
    {
        self.cube
    }

    /// Returns the points of X and of O.
    pub fn score(&self) -> (u16, u16)
        ensures { result ≡ (self.now.x_score, self.now.o_score) }
    {
        self.score
    }

    /// Returns whether the game is the Crawford game, which is played without the cube
    /// (docs/RULES.md, "The Crawford game").
    pub fn crawford(&self) -> bool
        ensures { result ≡ self.now.crawford }
    {
        self.crawford
    }

    /// Returns the number of the game, from 1.
    pub fn game(&self) -> u8
        ensures { result ≡ self.now.game }
    {
        self.game
    }

    /// Returns the one who acts next.
    pub fn actor(&self) -> Actor
        ensures { result ≡ actor_of self.now }
    {
        match self.passing() {
            Some(_) => Actor::Referee,
            None => self.phase.actor(),
        }
    }
}
