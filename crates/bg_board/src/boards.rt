//! The board.
ghost use Rattle.std.specs.Prelude.{◌≡◌, ◌≤◌, ◌<◌, ◌↔◌, sum, IsOk, IfOk, IfErr, IsTrue, length, slice_index};
ghost use Rattle.std.specs.Bool.{OnTrue, OnFalse};
ghost use Rattle.bg_board.specs.Die.{pips};
ghost use Rattle.bg_board.specs.Position.{Position, IsPosition, AreApart, SharesPoint, HasAllOff, count, count_above};
ghost use Rattle.bg_board.specs.Position.{checkers, start_position};
ghost use Rattle.bg_board.specs.Step.{carried, hit_by};

use crate::{Die, Player, Step, StepFault};
use std::marker::Model;

/// The reason why counts are no board (docs/RULES.md, "The board").
#[derive(Clone, Copy, Debug, PartialEq, Eq)]
pub enum BoardFault {
    /// A player does not have fifteen checkers.
    NotFifteen,
    /// Both players have checkers on one point.
    SharedPoint,
}

/// The place of checkers that are borne off, in the player's own numbering.
pub const OFF: u8 = 0;

/// The bar of a player, in the player's own numbering.
pub const BAR: u8 = 25;

/// The number of checkers of each player.
pub const CHECKERS: u8 = 15;

/// The highest point of a player's home board.
pub const HOME: u8 = 6;

/// The fifteen checkers of each player, by point (docs/RULES.md, "The board").
///
/// Each player numbers the points in their own way: 24 down to 1, then 0 for checkers that are off,
/// and 25 for the bar. Point `p` of one player is point `25 - p` of the other. No point from 1 to
/// 24 holds checkers of both.
#[derive(Clone, Copy, Debug, PartialEq, Eq)]
pub struct Board {
    x: [u8; 26],
    o: [u8; 26],
}

impl Model for Board {
    ghost Value = { Position };

    ghost view = { λ b. record { x = b.x; o = b.o } };

    ghost invariant = { λ b. IsPosition (record { x = b.x; o = b.o }) };

    ghost inverse = { λ p. record { x = p.x; o = p.o } };
}

impl Board {
    ghost use Rattle.bg_board.specs.BoardFault.{IsBoardFault};
    ghost use Rattle.bg_board.specs.Step.{IsStep, IsLegalStep, after_step, IsStepFault};

    /// Returns the board at the start of a game: for each player two checkers on 24, five on 13,
    /// three on 8 and five on 6.
    pub fn start() -> Board
        ensures { result ≡ start_position }
    {
        const START: [u8; 26] = [
            0, 0, 0, 0, 0, 0, 5, 0, 3, 0, 0, 0, 0, 5, 0, 0, 0, 0, 0, 0, 0, 0, 0, 0, 2, 0,
        ];
        Board { x: START, o: START }
    }

    /// Returns the board with these checkers of X and of O. Each list is in the player's own
    /// numbering: the number of checkers on point 0 (off), 1, .., 25 (the bar).
    ///
    /// # Errors
    ///
    /// Tested in this order:
    /// 1. [`BoardFault::NotFifteen`]: one of the lists does not add up to fifteen.
    /// 2. [`BoardFault::SharedPoint`]: for a point `p` from 1 to 24, X has a checker on their `p`
    ///    and O has one on their `25 - p`.
    pub fn from_counts(x: [u8; 26], o: [u8; 26]) -> Result<Board, BoardFault>
        ensures ok { IsOk result ↔ IsPosition (record { x = x; o = o }) }
        ensures value { IfOk result (λ board. board ≡ record { x = x; o = o }) }
        ensures fault { IfErr result (λ fault. IsBoardFault fault (record { x = x; o = o })) }
    {
        if total(&x) != u32::from(CHECKERS) || total(&o) != u32::from(CHECKERS) {
            return Err(BoardFault::NotFifteen);
        }
        if share_a_point(&x, &o) {
            return Err(BoardFault::SharedPoint);
        }
        Ok(Board { x, o })
    }

    /// Returns the number of checkers, 0 to 15, that the player has on a point of their own
    /// numbering: 0 is off, 25 is the bar.
    pub fn count(&self, player: Player, point: u8) -> u8
        requires { point ≤ 25 }
        ensures value { result ≡ count self.now player point }
        ensures board { IsPosition self.now }
    {
        self.checkers(player)[usize::from(point)]
    }

    /// Returns the number of checkers, 0 to 15, that the player has above a point of their own
    /// numbering, 0 to 25. Those on the bar are included.
    pub fn count_above(&self, player: Player, point: u8) -> u8
        requires { point ≤ 25 }
        ensures value { result ≡ count_above self.now player point }
        ensures board { IsPosition self.now }
    {
        let above = usize::from(point) + 1;
        total(&self.checkers(player)[above..]) as u8
    }

    /// Returns whether the player has borne off all fifteen checkers.
    pub fn has_all_off(&self, player: Player) -> bool
        ensures { IsTrue result ↔ HasAllOff self.now player }
    {
        self.count(player, OFF) == CHECKERS
    }

    /// Plays one checker's step by this die, and returns the board after it. The checker stands on
    /// its landing point, and a single opposing checker there has gone to its bar (docs/RULES.md,
    /// "A step").
    ///
    /// # Errors
    ///
    /// Tested in this order:
    /// 1. [`StepFault::NoChecker`]: the player has no checker where the step begins.
    /// 2. [`StepFault::BarFirst`]: the player has a checker on the bar, and the step begins
    ///    elsewhere.
    /// 3. [`StepFault::WrongLanding`]: the step does not end as many points lower as the die shows,
    ///    or at 0 where that would be 0 or less.
    /// 4. [`StepFault::Blocked`]: the step ends on a point from 1 to 24 that holds two or more
    ///    opposing checkers.
    /// 5. [`StepFault::NotAllHome`]: the step bears off, and one of the player's checkers stands
    ///    above 6.
    /// 6. [`StepFault::HigherChecker`]: the step bears off from below the die's number, and one of
    ///    the player's checkers stands above the point where it begins.
    pub fn play_step(&self, player: Player, step: Step, die: Die) -> Result<Board, StepFault>
        ensures ok { IsOk result ↔ IsStep self.now player step (pips die) }
        ensures after { IfOk result (λ board. board ≡ after_step self.now player step) }
        ensures fault { IfErr result (λ fault. IsStepFault fault self.now player step (pips die)) }
    {
        let from = step.from();
        let to = step.to();
        let pips = die.pips();
        if self.count(player, from) == 0 {
            return Err(StepFault::NoChecker);
        }
        if from != BAR && self.count(player, BAR) > 0 {
            return Err(StepFault::BarFirst);
        }
        if to != from.saturating_sub(pips) {
            return Err(StepFault::WrongLanding);
        }
        if to != OFF && self.count(player.opponent(), BAR - to) > 1 {
            return Err(StepFault::Blocked);
        }
        if to == OFF && self.count_above(player, HOME) > 0 {
            return Err(StepFault::NotAllHome);
        }
        if to == OFF && from < pips && self.count_above(player, from) > 0 {
            return Err(StepFault::HigherChecker);
        }
        let mut after = *self;
        after.play(player, step);
        Ok(after)
    }

    /// Plays a step that is legal by some die, in place. The board becomes the one that
    /// [`Board::play_step`] returns; this call is for a caller who has already tested the step.
    pub fn play(&mut self, player: Player, step: Step)
        requires { IsLegalStep self.old player step }
        ensures { self.new ≡ after_step self.old player step }
    {
        match player {
            Player::X => carry_and_hit(&mut self.x, &mut self.o, step),
            Player::O => carry_and_hit(&mut self.o, &mut self.x, step),
        }
    }

    /// Returns the player's checkers by point of their own numbering: the number, 0 to 15, on 0
    /// (off), 1, .., 25 (the bar).
    pub fn checkers(&self, player: Player) -> &[u8; 26]
        ensures value { result.now ≡ checkers self.now player }
        ensures board { IsPosition self.now }
    {
        match player {
            Player::X => &self.x,
            Player::O => &self.o,
        }
    }
}

/// Returns whether both players have checkers on one point.
fn share_a_point(own: &[u8; 26], other: &[u8; 26]) -> bool
    ensures shared { OnTrue result (SharesPoint own.now other.now) }
    ensures apart { OnFalse result (AreApart own.now other.now) }
{
    let bar = usize::from(BAR);
    (1..bar).any(|point| own[point] > 0 && other[bar - point] > 0)
}

/// Returns the total number of checkers.
fn total(counts: &[u8]) -> u32
    requires { length counts.now ≤ 26 }
    ensures { result ≡ sum counts.now }
{
    counts.iter().map(|count| u32::from(*count)).sum()
}

/// Moves a player's checker by a step, and sends a single opposing checker on its landing point to
/// the bar.
fn carry_and_hit(own: &mut [u8; 26], other: &mut [u8; 26], step: Step)
    requires checker { 0 < slice_index own.old step.from }
    requires fifteen { sum own.old ≡ 15 }
    requires other { sum other.old ≡ 15 }
    ensures carried { own.new ≡ carried own.old step.from step.to }
    ensures hit { other.new ≡ hit_by other.old step.to }
{
    own[usize::from(step.from())] -= 1;
    own[usize::from(step.to())] += 1;
    if step.to() == OFF {
        return;
    }
    let landing = usize::from(BAR - step.to());
    if other[landing] == 1 {
        other[landing] = 0;
        other[usize::from(BAR)] += 1;
    }
}
