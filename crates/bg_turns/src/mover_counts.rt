//! The mover's side of a position, on which turns are searched. Copying a board for each step would
//! take most of the time of a search. Within a turn, the other player's counts decide only which
//! points are blocked.
ghost use Rattle.std.specs.Prelude.{◌≡◌, ◌≤◌, ◌<◌, ◌↔◌, IsTrue, slice_index};
ghost use Rattle.std.specs.Bool.{OnTrue};
ghost use Rattle.bg_board.specs.Position.{Position, IsPosition, checkers, opponent};
ghost use Rattle.bg_board.specs.declared.players.Player.{Player as SeenPlayer};
ghost use Rattle.bg_board.specs.Step.{IsStep};
ghost use Rattle.bg_turns.specs.declared.mover_counts.MoverCounts.{MoverCounts as SeenCounts};
ghost use Rattle.bg_turns.specs.MoverCounts.{IsMoverCounts, IsHighest, Stands, can, after, is_off};

use bg_board::{BAR, Board, CHECKERS, HOME, OFF, Player, Step};

/// The mover's checkers by point, which a search moves, and the other player's as they stood at the
/// beginning of the turn. Within a turn the latter change only where one stands alone.
#[derive(Clone, Copy)]
pub(crate) struct MoverCounts {
    pub(crate) own: [u8; 26],
    pub(crate) other: [u8; 26],
}

impl MoverCounts {
    /// Returns the player's side of a board.
    pub(crate) fn of(board: &Board, player: Player) -> MoverCounts
        ensures own { result.own ≡ checkers board.now player }
        ensures other { result.other ≡ checkers board.now (opponent player) }
        ensures board { IsPosition board.now }
        ensures mover { IsMoverCounts result }
    {
        MoverCounts {
            own: *board.checkers(player),
            other: *board.checkers(player.opponent()),
        }
    }

    /// Returns whether all checkers are off.
    pub(crate) fn is_off(&self) -> bool
        ensures { result ≡ is_off self.now }
    {
        self.own[usize::from(OFF)] == CHECKERS
    }

    /// Returns the highest point with a checker, or 0 where all are off.
    pub(crate) fn highest(&self) -> u8
        ensures highest { IsHighest self.now.own result }
        ensures within { result ≤ 25 }
    {
        let mut point = BAR;
        while point > 0 && self.own[usize::from(point)] == 0 {
            point -= 1;
        }
        point
    }

    /// Returns whether the mover can play a step by a die from a point.
    fn can_play(&self, from: u8, die: u8) -> bool
        requires mover { IsMoverCounts self.now }
        requires low { 1 ≤ from }
        requires high { from ≤ 25 }
        requires die { 1 ≤ die }
        ensures { result ≡ can self.now from die }
    {
        if self.own[usize::from(from)] == 0 {
            return false;
        }
        if from != BAR && self.own[usize::from(BAR)] > 0 {
            return false;
        }
        if from > die {
            return self.other[usize::from(BAR - (from - die))] < 2;
        }
        let highest = self.highest();
        highest <= HOME && (from == die || from == highest)
    }

    /// Returns whether a step by a die can be played.
    pub(crate) fn can_play_step(&self, step: Step, die: u8) -> bool
        requires mover { IsMoverCounts self.now }
        requires die { 1 ≤ die }
        ensures step { (b : Position) (p : SeenPlayer) → Stands self.now b p → IsTrue result ↔ IsStep b p step die }
        ensures held { OnTrue result (0 < slice_index self.now.own step.from) }
    {
        step.to() == step.from().saturating_sub(die) && self.can_play(step.from(), die)
    }

    /// Plays a step on the counts.
    pub(crate) fn play(&mut self, step: Step)
        requires mover { IsMoverCounts self.old }
        requires checker { 0 < slice_index self.old.own step.from }
        ensures value { self.new ≡ after self.old step.from step.to }
        ensures mover { IsMoverCounts self.new }
    {
        self.own[usize::from(step.from())] -= 1;
        self.own[usize::from(step.to())] += 1;
    }

    /// Takes back a step that was just played.
    pub(crate) fn take_back(&mut self, step: Step)
        requires played { (before : SeenCounts) × IsMoverCounts before × (0 < slice_index before.own step.from)
            × (self.old ≡ after before step.from step.to) }
        ensures { (before : SeenCounts) → IsMoverCounts before → 0 < slice_index before.own step.from
            → self.old ≡ after before step.from step.to → self.new ≡ before }
    {
        self.own[usize::from(step.to())] -= 1;
        self.own[usize::from(step.from())] += 1;
    }
}
