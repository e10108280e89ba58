//! Wins.
ghost use Rattle.std.specs.Prelude.{◌≡◌, ◌↔◌, ◌+◌, ◌*◌, ◌<◌, true, None, IsTrue, MatchOption, OnOk};
ghost use Rattle.bg_match.specs.Level.{multiple as points_of};
ghost use Rattle.bg_match.specs.declared.levels.Level.{Level as LevelOf};
ghost use Rattle.bg_mat.specs.Telling.{Wins, GoesOn, IsOver, IsOverMatch, MayResign};
ghost use Rattle.bg_mat.specs.Replaying.{IsReplay, Plays, Resigns, place_of};
ghost use Rattle.bg_mat.specs.ItemFaults.{HasWon, IsEndFault, IsOfferFault, IsWinFault};
ghost use Rattle.bg_mat.specs.Refusals.{RefusesAt};
ghost use Rattle.std.specs.Prelude.{IfErr};

use super::Replay;
use crate::MatFault;
use crate::faults::{ReadFault, refused};
use crate::rows::cells::Win;
use bg_board::Player;
use bg_match::{Entry, Level, Phase};

/// Returns whether a score has grown by this number of points, at least one.
fn has_grown(before: u16, after: u16, points: u16) -> bool
    ensures { IsTrue result ↔ ((0 < points) × (after ≡ before + points)) }
{
    points > 0 && u32::from(after) == u32::from(before) + u32::from(points)
}

/// Returns the level at which this number of points is won with the cube.
fn level_of_points(won: u16, cube: u8) -> Option<Level>
    ensures { MatchOption result ((level : LevelOf) → won ≡ points_of level * cube → ⊥)
        (λ level. won ≡ points_of level * cube) }
{
    let cube = u16::from(cube);
    if won == cube {
        Some(Level::Normal)
    } else if won == 2 * cube {
        Some(Level::Gammon)
    } else if won == 3 * cube {
        Some(Level::Backgammon)
    } else {
        None
    }
}

impl Replay {
    /// Appends a win: nothing where the game was won so already, and otherwise the other player's
    /// offer to resign and its acceptance.
    pub(super) fn win(&mut self, line: u32, winner: Player, win: Win) -> Result<(), ReadFault>
        requires replay { IsReplay self.old }
        requires closed { self.old.pending ≡ None }
        ensures done { OnOk result (Plays self.old self.new line winner (Wins win.points win.ends_match)) }
        ensures fault { IfErr result (RefusesAt line
            (IsWinFault self.old.log (place_of self.old) winner win.points win.ends_match)) }
    {
        if self.goes_on() {
            self.win_by_offer(line, winner, win)
        } else {
            self.win_by_play(line, winner, win)
        }
    }

    /// Appends an offer to resign and its acceptance, for the row of a win.
    fn win_by_offer(&mut self, line: u32, winner: Player, win: Win) -> Result<(), ReadFault>
        requires replay { IsReplay self.old }
        requires goes_on { GoesOn (place_of self.old) }
        requires closed { self.old.pending ≡ None }
        ensures done { OnOk result (Plays self.old self.new line winner (Wins win.points win.ends_match)) }
        ensures fault { IfErr result (RefusesAt line
            (IsWinFault self.old.log (place_of self.old) winner win.points win.ends_match)) }
    {
        self.resign(line, winner, win.points)?;
        self.check_end(line, win)
    }

    /// Checks the row of a win that follows from the entries before it, and appends nothing.
    fn win_by_play(&self, line: u32, winner: Player, win: Win) -> Result<(), ReadFault>
        requires replay { IsReplay self.now }
        requires over { IsOver (place_of self.now) }
        requires closed { self.now.pending ≡ None }
        ensures done { OnOk result (Plays self.now self.now line winner (Wins win.points win.ends_match)) }
        ensures fault { IfErr result (RefusesAt line
            (IsWinFault self.now.log (place_of self.now) winner win.points win.ends_match)) }
    {
        if !self.has_won(winner, win.points) {
            return Err(refused(line, MatFault::WrongPoints));
        }
        self.check_end(line, win)
    }

    /// Returns whether the player has this number of points more than before the game.
    fn has_won(&self, winner: Player, points: u16) -> bool
        ensures { IsTrue result ↔ HasWon (place_of self.now) winner points }
    {
        let score = self.standing.score();
        match winner {
            Player::X => has_grown(self.before.0, score.0, points),
            Player::O => has_grown(self.before.1, score.1, points),
        }
    }

    /// Refuses a win that ends the match according to the file alone.
    fn check_end(&self, line: u32, win: Win) -> Result<(), ReadFault>
        ensures done { OnOk result (win.ends_match ≡ true → IsOverMatch self.now.standing) }
        ensures fault { IfErr result (RefusesAt line (IsEndFault self.now.standing win.ends_match)) }
    {
        match self.standing.phase() {
            Phase::Over(_) => Ok(()),
            _ if win.ends_match => Err(refused(line, MatFault::MatchGoesOn)),
            _ => Ok(()),
        }
    }

    /// Returns whether the player may offer to resign.
    fn may_lose(&self, loser: Player) -> bool
        ensures { IsTrue result ↔ MayResign self.now.standing loser }
    {
        match self.standing.phase() {
            Phase::ToAct(acting) => acting == loser,
            Phase::ToMove(acting, _) => acting == loser,
            _ => false,
        }
    }

    /// Returns the level at which this number of points is won with the current cube.
    fn level_for(&self, won: u16) -> Option<Level>
        ensures { MatchOption result ((level : LevelOf) → won ≡ points_of level * self.now.standing.cube.value → ⊥)
            (λ level. won ≡ points_of level * self.now.standing.cube.value) }
    {
        level_of_points(won, self.standing.cube().value)
    }

    /// Appends an offer to resign and its acceptance.
    fn resign(&mut self, line: u32, winner: Player, won: u16) -> Result<(), ReadFault>
        requires replay { IsReplay self.old }
        requires closed { self.old.pending ≡ None }
        ensures done { OnOk result (Resigns self.old self.new line winner won) }
        ensures fault { IfErr result (RefusesAt line (IsOfferFault self.old.log self.old.standing winner won)) }
    {
        if !self.may_lose(winner.opponent()) {
            return Err(refused(line, MatFault::ResignsOutOfTurn));
        }
        let Some(level) = self.level_for(won) else {
            return Err(refused(line, MatFault::WrongPoints));
        };
        self.add(line, Entry::Resigned(level))?;
        self.add(line, Entry::Accepted)
    }
}
