//! Dice and moves.
ghost use Rattle.std.specs.Prelude.{◌≡◌, ◌≢◌, ◌↔◌, ◌+◌, Bool, [], None, IfOk, IfSome, IsTrue, OnOk};
ghost use Rattle.std.specs.Prelude.{length, if◌then◌else◌};
ghost use Rattle.bg_match.specs.State.{State};
ghost use Rattle.bg_turns.specs.Dice.{first_pips, second_pips};
ghost use Rattle.bg_turns.specs.HasStep.{has_step};
ghost use Rattle.bg_turns.specs.declared.throws.Dice.{Dice as DiceOf};
ghost use Rattle.bg_mat.specs.Turns.{IsToldTurn};
ghost use Rattle.bg_mat.specs.Telling.{Turn as Turns, CannotMove, Does, GoesOn, BringsDice, deed_of};
ghost use Rattle.bg_mat.specs.Replaying.{AddsMove, Closes, ClosesBy, IsReplay, Plays, Rolls, place_of};
ghost use Rattle.bg_mat.specs.ItemFaults.{IsDiceFault, IsEmptyFault, IsMoveFault, IsPendingFault, TellsNoTurn};
ghost use Rattle.bg_mat.specs.ItemFaults.{IsRollFault, IsThrowFault};
ghost use Rattle.bg_mat.specs.Refusals.{LosesBy, RefusesAt, RefusesPending};
ghost use Rattle.std.specs.Prelude.{IfErr};

use super::{PendingTurn, Replay};
use crate::MatFault;
use crate::faults::{ReadFault, refused};
use crate::movements::alike::find_alike;
use crate::movements::legs::Legs;
use crate::movements::turns::{find_turn, turn_fault};
use crate::rows::cells::Cell;
use arrayvec::ArrayVec;
use bg_board::Player;
use bg_match::{Actor, Entry, EntryFault, Phase, Standing};
use bg_turns::{Dice, Turn, can_step};
use std::alloc::AllocError;

/// Returns the opening in which a player brings dice.
fn opening_of(player: Player, dice: Dice) -> Entry
    requires { first_pips dice ≢ second_pips dice }
    ensures { (s : State) → BringsDice s player dice result }
{
    let (higher, lower) = if dice.first.pips() < dice.second.pips() {
        (dice.second, dice.first)
    } else {
        (dice.first, dice.second)
    };
    match player {
        Player::X => Entry::Opening(higher, lower),
        Player::O => Entry::Opening(lower, higher),
    }
}

/// Returns the entry in which a player brings dice: they open the game, or roll.
pub(super) fn entry_of_dice(
    player: Player,
    dice: Dice,
    standing: &Standing,
) -> Result<Entry, MatFault>
    ensures brings { IfOk result (BringsDice standing.now player dice) }
    ensures fault { IfErr result (IsDiceFault standing.now player dice) }
{
    match standing.phase() {
        Phase::Opening if dice.is_double() => Err(MatFault::Entry(EntryFault::EqualOpening)),
        Phase::Opening => Ok(opening_of(player, dice)),
        Phase::ToAct(acting) if acting == player => Ok(Entry::Rolled(dice)),
        _ => Err(MatFault::OutOfTurn),
    }
}

impl Replay {
    /// Appends the entry in which a player brings dice.
    fn roll(&mut self, line: u32, player: Player, dice: Dice) -> Result<(), ReadFault>
        requires replay { IsReplay self.old }
        requires closed { self.old.pending ≡ None }
        ensures done { OnOk result (Rolls self.old self.new line player dice) }
        ensures fault { IfErr result (RefusesAt line (IsRollFault self.old.log self.old.standing player dice)) }
    {
        match entry_of_dice(player, dice, &self.standing) {
            Ok(entry) => self.add(line, entry),
            Err(why) => Err(refused(line, why)),
        }
    }

    /// Returns the turn that a movement describes on the current board.
    fn turn_of(&self, line: u32, player: Player, dice: Dice, legs: &Legs) -> Result<Turn, ReadFault>
        ensures done { IfOk result (IsToldTurn self.now.standing.board player dice legs.now.items) }
        ensures fault { IfErr result (RefusesAt line
            (TellsNoTurn self.now.standing.board player dice legs.now.items)) }
    {
        let alloc = *self.lines.allocator();
        let board = self.standing.board();
        match find_turn(alloc, &board, player, dice, legs.as_slice()) {
            Ok(Some(turn)) => return Ok(turn),
            Ok(None) => {}
            Err(AllocError) => return Err(ReadFault::Memory),
        }
        match find_alike(alloc, &board, player, dice, legs.as_slice()) {
            Ok(Some(turn)) => return Ok(turn),
            Ok(None) => {}
            Err(AllocError) => return Err(ReadFault::Memory),
        }
        match turn_fault(alloc, &board, player, dice, legs.as_slice()) {
            Ok(why) => Err(refused(line, why)),
            Err(AllocError) => Err(ReadFault::Memory),
        }
    }

    /// Appends the dice and the move of a turn.
    pub(super) fn turn(
        &mut self,
        line: u32,
        player: Player,
        dice: Dice,
        legs: &Legs,
    ) -> Result<(), ReadFault>
        requires replay { IsReplay self.old }
        requires goes_on { GoesOn (place_of self.old) }
        requires closed { self.old.pending ≡ None }
        ensures done { OnOk result (Plays self.old self.new line player (Turns dice legs.now.items)) }
        ensures fault { IfErr result (RefusesAt line (IsThrowFault self.old.log self.old.standing player dice
            (λ log s. IsMoveFault log s player dice legs.now.items))) }
    {
        self.roll(line, player, dice)?;
        let turn = self.turn_of(line, player, dice, legs)?;
        self.add(line, Entry::Moved(turn))
    }

    /// Appends the turn of a player who can't move: dice, and the turn without steps, or a pass.
    pub(super) fn cannot_move(
        &mut self,
        line: u32,
        player: Player,
        dice: Dice,
    ) -> Result<(), ReadFault>
        requires replay { IsReplay self.old }
        requires goes_on { GoesOn (place_of self.old) }
        requires closed { self.old.pending ≡ None }
        ensures done { OnOk result (Plays self.old self.new line player (CannotMove dice)) }
        ensures fault { IfErr result (RefusesAt line (IsThrowFault self.old.log self.old.standing player dice
            (λ log s. IsEmptyFault log s player dice))) }
    {
        self.roll(line, player, dice)?;
        self.add_empty(line, player, dice)
    }

    /// Returns the turn without steps on the current board.
    fn empty_turn(&self, line: u32, player: Player, dice: Dice) -> Result<Turn, ReadFault>
        ensures done { IfOk result (IsToldTurn self.now.standing.board player dice []) }
        ensures fault { IfErr result (RefusesAt line (TellsNoTurn self.now.standing.board player dice [])) }
    {
        self.turn_of(line, player, dice, &ArrayVec::new())
    }

    /// Appends an empty move, or a pass where one is due.
    fn add_empty(&mut self, line: u32, player: Player, dice: Dice) -> Result<(), ReadFault>
        requires replay { IsReplay self.old }
        requires closed { self.old.pending ≡ None }
        requires moves { (thrown : DiceOf) × (self.old.standing.phase ≡ Phase.ToMove player thrown) }
        ensures done { OnOk result (AddsMove self.old self.new line player dice) }
        ensures fault { IfErr result (RefusesAt line (IsEmptyFault self.old.log self.old.standing player dice)) }
    {
        if self.standing.actor() == Actor::Referee {
            return self.add(line, Entry::Passed);
        }
        let turn = self.empty_turn(line, player, dice)?;
        self.add(line, Entry::Moved(turn))
    }

    /// Appends a turn that was pending: its dice alone where it stays without a move, and otherwise
    /// also an empty move or a pass.
    fn add_pending(&mut self, turn: PendingTurn, stays: bool) -> Result<(), ReadFault>
        requires replay { IsReplay self.old }
        requires goes_on { GoesOn (place_of self.old) }
        requires closed { self.old.pending ≡ None }
        ensures done { OnOk result (Plays self.old self.new turn.line turn.player (Turns turn.dice [])) }
        ensures many { OnOk result (length self.new.log.entries
            ≡ length self.old.log.entries + (if stays then 1 else 2)) }
        ensures fault { IfErr result (RefusesAt turn.line
            (IsPendingFault stays self.old.log self.old.standing turn.player turn.dice)) }
    {
        self.roll(turn.line, turn.player, turn.dice)?;
        if stays {
            return Ok(());
        }
        self.add_empty(turn.line, turn.player, turn.dice)
    }

    /// Appends the pending turn, if there is one: its dice alone where it stays without a move.
    pub(super) fn close(&mut self, stays: bool) -> Result<(), ReadFault>
        requires { IsReplay self.old }
        ensures done { OnOk result (ClosesBy stays self.old self.new) }
        ensures fault { IfErr result (RefusesPending stays self.old) }
    {
        match self.pending.take() {
            Some(turn) => self.add_pending(turn, stays),
            None => Ok(()),
        }
    }

    /// Returns whether the pending turn is that of a player who loses to this one.
    fn is_lost_to(&self, winner: Player) -> bool
        ensures { IfSome self.now.pending (λ turn. IsTrue result ↔ (turn.player ≢ winner)) }
    {
        match self.pending {
            Some(turn) => turn.player != winner,
            None => false,
        }
    }

    /// Returns whether the pending dice stay without a move before a cell: their player loses by
    /// it.
    pub(super) fn stays_before(&self, player: Player, cell: &Cell) -> bool
        ensures { IfSome self.now.pending (λ turn.
            IsTrue result ↔ LosesBy turn.player (Does player (deed_of cell.now))) }
    {
        match cell {
            Cell::Wins(_) => self.is_lost_to(player),
            _ => false,
        }
    }

    /// Returns whether the player whose turn is pending has a legal step.
    fn can_move(&self) -> bool
        ensures { IfSome self.now.pending (λ turn.
            result ≡ has_step self.now.standing.board turn.player turn.dice) }
    {
        match self.pending {
            Some(turn) => can_step(&self.standing.board(), turn.player, turn.dice),
            None => false,
        }
    }

    /// Ends the replay. A pending turn is without steps where none can be played, and is still to
    /// be moved otherwise.
    pub(crate) fn finish(&mut self) -> Result<(), ReadFault>
        requires { IsReplay self.old }
        ensures done { OnOk result (Closes self.old self.new) }
        ensures fault { IfErr result (λ fault. (stays : Bool) × RefusesPending stays self.old fault
            × IfSome self.old.pending (λ turn. stays ≡ has_step self.old.standing.board turn.player turn.dice)) }
    {
        let stays = self.can_move();
        self.close(stays)
    }
}
