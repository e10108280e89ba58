//! The points of a won game, and the phases to which a taken double and a won game lead.
ghost use Rattle.std.specs.Prelude.{◌≡◌, ◌≤◌, ◌*◌};
ghost use Rattle.bg_board.specs.Position.{opponent};
ghost use Rattle.bg_match.specs.Limits.{greatest_win};

use crate::{Cube, Level, Phase, Standing};
use bg_board::{Board, Player};

impl Standing {
    ghost use Rattle.bg_match.specs.State.{after_win, IsRunning};
    ghost use Rattle.bg_match.specs.Level.{multiple};

    /// Returns the number of points that a win at this level counts.
    pub(super) fn worth(&self, level: Level) -> u16
        ensures value { result ≡ multiple level * self.now.cube.value }
        ensures least { 1 ≤ result }
        ensures greatest { result ≤ greatest_win }
    {
        level.multiple() * u16::from(self.cube.value)
    }

    /// Takes a double for the player.
    pub(super) fn take_by(&mut self, player: Player)
        requires { self.old.phase ≡ Phase.Doubled player }
        ensures { self.new ≡ record self.old {
          phase = Phase.ToAct (opponent player);
          cube = record { value = 2 * self.old.cube.value; owner = Some player };
        } }
    {
        self.phase = Phase::ToAct(player.opponent());
        self.cube = Cube {
            value: 2 * self.cube.value,
            owner: Some(player),
        };
    }

    /// Gives the player a win of this number of points.
    pub(super) fn win(&mut self, winner: Player, points: u16)
        requires running { IsRunning self.old.phase }
        requires least { 1 ≤ points }
        requires greatest { points ≤ greatest_win }
        ensures { self.new ≡ after_win self.old winner points }
    {
        let before = self.score.0.max(self.score.1);
        let score = match winner {
            Player::X => (self.score.0 + points, self.score.1),
            Player::O => (self.score.0, self.score.1 + points),
        };
        let reached = match winner {
            Player::X => score.0,
            Player::O => score.1,
        };
        let length = u16::from(self.terms.length);
        self.score = score;
        if reached >= length {
            self.phase = Phase::Over(winner);
            return;
        }
        let greater = score.0.max(score.1);
        self.board = Board::start();
        self.phase = Phase::Opening;
        self.cube = Cube::MIDDLE;
        self.crawford = greater + 1 == length && before < greater;
        self.game += 1;
    }
}
