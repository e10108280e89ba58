//! What a movement and a turn have in common: the points between which checkers move, and their
//! hits.
ghost use Rattle.std.specs.Prelude.{◌≡◌, ◌≤◌, ◌↔◌, length, IsTrue};
ghost use Rattle.bg_mat.specs.ComparedHits.{HitsMarked, MarksHit};
ghost use Rattle.bg_mat.specs.Turns.{HasHits, SameMovement, coming, is_hit as is_hit_by_rule};
ghost use Rattle.bg_mat.specs.Turns.{is_marked as is_marked_point, is_reached as is_reached_point, leaving, steps_of};

pub(crate) mod alike;
pub(crate) mod legs;
pub(crate) mod turns;

use crate::movements::legs::Leg;
use bg_board::{BAR, Board, OFF, Player, Step};
use bg_turns::Turn;

/// Returns the legs as steps, at most four.
pub fn as_turn(legs: &[Leg]) -> Turn
    requires { length legs.now ≤ 4 }
    ensures { result ≡ steps_of legs.now }
{
    let mut turn = Turn::new();
    for leg in legs {
        turn.push(leg.step);
    }
    turn
}

/// Returns the number of steps that leave a point.
fn count_leaving(steps: &[Step], point: u8) -> usize
    ensures value { result ≡ leaving point steps.now }
    ensures few { result ≤ length steps.now }
{
    match steps.split_first() {
        Some((step, rest)) => usize::from(step.from() == point) + count_leaving(rest, point),
        None => 0,
    }
}

/// Returns the number of steps that come to a point.
fn count_coming(steps: &[Step], point: u8) -> usize
    ensures value { result ≡ coming point steps.now }
    ensures few { result ≤ length steps.now }
{
    match steps.split_first() {
        Some((step, rest)) => usize::from(step.to() == point) + count_coming(rest, point),
        None => 0,
    }
}

/// Returns whether two lists of steps, of at most four each, have the same movement. They do where,
/// for each point, the number of checkers that leave it less the number that come to it is the
/// same.
pub fn same_movement(written: &[Step], played: &[Step]) -> bool
    requires few { length written.now ≤ 4 }
    requires short { length played.now ≤ 4 }
    ensures { IsTrue result ↔ SameMovement written.now played.now }
{
    for point in 0..BAR + 1 {
        let before = count_leaving(written, point) + count_coming(played, point);
        if before != count_leaving(played, point) + count_coming(written, point) {
            return false;
        }
    }
    true
}

/// Returns whether the legs mark a hit on a point.
fn is_marked(legs: &[Leg], point: u8) -> bool
    ensures { result ≡ is_marked_point point legs.now }
{
    match legs.split_first() {
        Some((leg, rest)) => leg.hits && leg.step.to() == point || is_marked(rest, point),
        None => false,
    }
}

/// Returns whether a step ends on a point.
pub(crate) fn is_reached(steps: &[Step], point: u8) -> bool
    ensures { result ≡ is_reached_point point steps.now }
{
    match steps.split_first() {
        Some((step, rest)) => step.to() == point || is_reached(rest, point),
        None => false,
    }
}

/// Returns whether a turn with these steps, played on this board, hits on a point, from 0 to 25 in
/// the player's numbering. It hits where the point is not off, has a single opposing checker, and a
/// step ends there.
pub fn is_hit(board: &Board, player: Player, steps: &[Step], point: u8) -> bool
    requires { point ≤ 25 }
    ensures { result ≡ is_hit_by_rule board.now player steps.now point }
{
    point > OFF && board.count(player.opponent(), BAR - point) == 1 && is_reached(steps, point)
}

/// Returns whether a turn with these steps hits on the point where a step ends.
fn is_hit_by(board: &Board, player: Player, steps: &[Step], step: Step) -> bool
    ensures hit { result ≡ is_hit_by_rule board.now player steps.now step.to }
    ensures point { step.to ≤ 25 }
{
    is_hit(board, player, steps, step.to())
}

/// Returns whether the steps hit on each point on which one of these legs marks a hit.
fn hits_marked(board: &Board, player: Player, marked: &[Leg], steps: &[Step]) -> bool
    ensures { IsTrue result ↔ HitsMarked board.now player marked.now steps.now }
{
    match marked.split_first() {
        Some((leg, _)) if leg.hits && !is_hit_by(board, player, steps, leg.step) => false,
        Some((_, rest)) => hits_marked(board, player, rest, steps),
        None => true,
    }
}

/// Returns whether the legs mark a hit on each point on which one of these steps ends and the steps
/// hit.
fn marks_hit(board: &Board, player: Player, legs: &[Leg], steps: &[Step], ending: &[Step]) -> bool
    ensures { IsTrue result ↔ MarksHit board.now player legs.now steps.now ending.now }
{
    match ending.split_first() {
        Some((step, _)) if is_hit_by(board, player, steps, *step) && !is_marked(legs, step.to()) =>
            false,
        Some((_, rest)) => marks_hit(board, player, legs, steps, rest),
        None => true,
    }
}

/// Returns whether the legs mark exactly those points where the steps hit.
pub(crate) fn same_hits(board: &Board, player: Player, legs: &[Leg], steps: &[Step]) -> bool
    ensures { IsTrue result ↔ HasHits board.now player legs.now steps.now }
{
    hits_marked(board, player, legs, steps) && marks_hit(board, player, legs, steps, steps)
}
