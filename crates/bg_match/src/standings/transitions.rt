//! The standings to which entries lead.
ghost use Rattle.std.specs.Prelude.{false, ◌≡◌, ◌≢◌, ◌↔◌, IfOk, IfErr, OnOk, OnErr, MatchOption, IsOk};
ghost use Rattle.bg_board.specs.Die.{pips};
ghost use Rattle.bg_board.specs.Position.{opponent};
ghost use Rattle.bg_match.specs.Follows.{phase_back as back_phase, opener as opening_player};

use crate::{Entry, EntryFault, GREATEST_CUBE, NoDouble, Phase, Standing, level_of};
use bg_board::{Die, Player};
use bg_turns::{Dice, Turn, play_turn};

impl Standing {
    ghost use Rattle.bg_match.specs.State.{IsState};
    ghost use Rattle.bg_match.specs.Actor.{passes, IsPassOf};
    ghost use Rattle.bg_match.specs.Follows.{Follows, CanFollow, IsEntryFault, IsNoDouble, IsDoubleFault, MayDouble};
    ghost use Rattle.bg_match.specs.Follows.{MovedFault, after_turn};
    ghost use Rattle.bg_turns.specs.Turn.{IsLegalTurn, after_steps};

    /// Returns the standing of the match after an entry.
    ///
    /// # Errors
    /// The first that holds: `MatchOver`; `WrongPhase` where the phase does not allow such an
    /// entry; `EqualOpening` where the dice of an opening are equal; `Turn` where a turn is not
    /// legal; `NoDouble` where the player may not double.
    pub fn next(&self, entry: &Entry) -> Result<Standing, EntryFault>
        ensures ok { IsOk result ↔ CanFollow self.now entry.now }
        ensures after { IfOk result (λ after. Follows self.now entry.now after) }
        ensures fault { IfErr result (λ fault. IsEntryFault fault self.now entry.now) }
    {
        let mut after = *self;
        after.apply(entry)?;
        Ok(after)
    }

    /// Changes the standing to the one after an entry. A refusal changes nothing.
    ///
    /// # Errors
    /// As [`Standing::next`].
    pub fn apply(&mut self, entry: &Entry) -> Result<(), EntryFault>
        ensures ok { IsOk result ↔ CanFollow self.old entry.now }
        ensures after { OnOk result (Follows self.old entry.now self.new) }
        ensures err { OnErr result (self.new ≡ self.old) }
        ensures fault { IfErr result (λ fault. IsEntryFault fault self.old entry.now) }
    {
        match self.passing() {
            Some(player) => self.pass(player, entry),
            None => self.play(entry),
        }
    }

    /// Applies an entry where no turn is to be passed, or returns the reason why it may not follow.
    fn play(&mut self, entry: &Entry) -> Result<(), EntryFault>
        requires { passes self.old ≡ false }
        ensures ok { IsOk result ↔ CanFollow self.old entry.now }
        ensures after { OnOk result (Follows self.old entry.now self.new) }
        ensures err { OnErr result (self.new ≡ self.old) }
        ensures fault { IfErr result (λ fault. IsEntryFault fault self.old entry.now) }
    {
        match (self.phase, entry) {
            (Phase::Opening, Entry::Opening(x, o)) => self.open(*x, *o),
            (Phase::ToAct(player), Entry::Rolled(dice)) => {
                Ok(self.enter(Phase::ToMove(player, *dice)))
            }
            (Phase::ToAct(player), Entry::Doubled) => self.double_by(player),
            (Phase::ToAct(player), Entry::Resigned(level)) => {
                Ok(self.enter(Phase::Resigned(player, *level, None)))
            }
            (Phase::Doubled(player), Entry::Taken) => Ok(self.take_by(player)),
            (Phase::Doubled(player), Entry::Dropped) => {
                Ok(self.win(player.opponent(), u16::from(self.cube.value)))
            }
            (Phase::ToMove(player, dice), Entry::Moved(turn)) => self.move_by(player, dice, turn),
            (Phase::ToMove(player, dice), Entry::Resigned(level)) => {
                Ok(self.enter(Phase::Resigned(player, *level, Some(dice))))
            }
            (Phase::Resigned(player, level, _), Entry::Accepted) => {
                Ok(self.win(player.opponent(), self.worth(level)))
            }
            (Phase::Resigned(player, _, back), Entry::Rejected) => {
                Ok(self.enter(phase_back(player, back)))
            }
            (Phase::Over(_), _) => Err(EntryFault::MatchOver),
            _ => Err(EntryFault::WrongPhase),
        }
    }

    /// Passes the turn that is to be passed, or reports that this is another entry.
    fn pass(&mut self, player: Player, entry: &Entry) -> Result<(), EntryFault>
        requires { IsPassOf self.old player }
        ensures ok { IsOk result ↔ CanFollow self.old entry.now }
        ensures after { OnOk result (Follows self.old entry.now self.new) }
        ensures err { OnErr result (self.new ≡ self.old) }
        ensures fault { IfErr result (λ fault. IsEntryFault fault self.old entry.now) }
    {
        match entry {
            Entry::Passed => Ok(self.enter(Phase::ToAct(player.opponent()))),
            _ => Err(EntryFault::WrongPhase),
        }
    }

    /// Opens a game, or reports that its dice are equal.
    fn open(&mut self, x: Die, o: Die) -> Result<(), EntryFault>
        requires { self.old.phase ≡ Phase.Opening }
        ensures ok { IsOk result ↔ (pips x ≢ pips o) }
        ensures after { OnOk result (self.new ≡ record self.old {
          phase = Phase.ToMove (opening_player x o) (record { first = x; second = o });
        }) }
        ensures err { OnErr result (self.new ≡ self.old) }
        ensures fault { IfErr result (λ fault. fault ≡ EntryFault.EqualOpening) }
    {
        if x.pips() == o.pips() {
            return Err(EntryFault::EqualOpening);
        }
        let dice = Dice {
            first: x,
            second: o,
        };
        Ok(self.enter(Phase::ToMove(opener(x, o), dice)))
    }

    /// Doubles, or returns the reason why the player may not.
    fn double_by(&mut self, player: Player) -> Result<(), EntryFault>
        requires { self.old.phase ≡ Phase.ToAct player }
        ensures ok { IsOk result ↔ MayDouble self.old player }
        ensures after { OnOk result (self.new ≡ record self.old { phase = Phase.Doubled (opponent player) }) }
        ensures err { OnErr result (self.new ≡ self.old) }
        ensures fault { IfErr result (λ fault. IsDoubleFault fault self.old player) }
    {
        match self.no_double(player) {
            Some(why) => Err(EntryFault::NoDouble(why)),
            None => Ok(self.enter(Phase::Doubled(player.opponent()))),
        }
    }

    /// Returns the reason why the player may not double, or `None` where they may.
    fn no_double(&self, player: Player) -> Option<NoDouble>
        ensures { MatchOption result (MayDouble self.now player) (λ why. IsNoDouble why self.now player) }
    {
        if self.crawford {
            Some(NoDouble::Crawford)
        } else if self.cube.owner == Some(player.opponent()) {
            Some(NoDouble::NotOwner)
        } else if self.cube.value == GREATEST_CUBE {
            Some(NoDouble::AtCap)
        } else {
            None
        }
    }

    /// Plays a legal turn, or returns the reason why it is not legal.
    fn move_by(&mut self, player: Player, dice: Dice, turn: &Turn) -> Result<(), EntryFault>
        requires { self.old.phase ≡ Phase.ToMove player dice }
        ensures ok { IsOk result ↔ IsLegalTurn self.old.board player dice turn.now }
        ensures after { OnOk result
            (self.new ≡ after_turn self.old player (after_steps self.old.board player turn.now)) }
        ensures err { OnErr result (self.new ≡ self.old) }
        ensures fault { IfErr result (λ fault. MovedFault fault self.old player dice turn.now) }
    {
        play_turn(&mut self.board, player, dice, turn).map_err(EntryFault::Turn)?;
        match level_of(&self.board, player) {
            None => Ok(self.enter(Phase::ToAct(player.opponent()))),
            Some(level) => Ok(self.win(player, self.worth(level))),
        }
    }

    /// Changes to another phase.
    fn enter(&mut self, phase: Phase)
        requires { IsState self.old → IsState (record self.old { phase = phase }) }
        ensures { self.new ≡ record self.old { phase = phase } }
    {
        self.phase = phase;
    }
}

/// Returns the player who moves first.
fn opener(x: Die, o: Die) -> Player
    ensures { result ≡ opening_player x o }
{
    if x.pips() > o.pips() {
        Player::X
    } else {
        Player::O
    }
}

/// Returns the phase in which an offer to resign was made.
fn phase_back(player: Player, back: Option<Dice>) -> Phase
    ensures { result ≡ back_phase player back }
{
    match back {
        None => Phase::ToAct(player),
        Some(dice) => Phase::ToMove(player, dice),
    }
}
