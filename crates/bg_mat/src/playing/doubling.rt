//! Doubles and their answers.
ghost use Rattle.std.specs.Prelude.{◌≡◌, ◌↔◌, ◌*◌, None, IfSome, IsTrue, OnOk};
ghost use Rattle.bg_mat.specs.Telling.{Doubles, Drops, Takes, GoesOn};
ghost use Rattle.bg_mat.specs.Replaying.{IsReplay, Plays, place_of};
ghost use Rattle.bg_mat.specs.ItemFaults.{IsAnswerFault, IsDoubleFault};
ghost use Rattle.bg_mat.specs.Refusals.{RefusesAt};
ghost use Rattle.std.specs.Prelude.{IfErr};

use super::Replay;
use crate::MatFault;
use crate::faults::{ReadFault, refused};
use bg_board::Player;
use bg_match::{Entry, Phase};

impl Replay {
    /// Returns whether the player is to act.
    fn is_to_act(&self, player: Player) -> bool
        ensures { IsTrue result ↔ (self.now.standing.phase ≡ Phase.ToAct player) }
    {
        matches!(self.standing.phase(), Phase::ToAct(acting) if acting == player)
    }

    /// Returns whether the player is to answer a double.
    fn is_doubled(&self, player: Player) -> bool
        ensures { IsTrue result ↔ (self.now.standing.phase ≡ Phase.Doubled player) }
    {
        matches!(self.standing.phase(), Phase::Doubled(acting) if acting == player)
    }

    /// Returns the value of the cube after the next double.
    fn doubled_cube(&self) -> u16
        ensures { result ≡ 2 * self.now.standing.cube.value }
    {
        2 * u16::from(self.standing.cube().value)
    }

    /// Returns whether the cube will show the stated value, if there is one.
    fn shows(&self, said: Option<u16>) -> bool
        ensures { IsTrue result ↔ IfSome said (λ n. n ≡ 2 * self.now.standing.cube.value) }
    {
        match said {
            Some(said) => said == self.doubled_cube(),
            None => true,
        }
    }

    pub(super) fn double(
        &mut self,
        line: u32,
        player: Player,
        said: Option<u16>,
    ) -> Result<(), ReadFault>
        requires replay { IsReplay self.old }
        requires goes_on { GoesOn (place_of self.old) }
        requires closed { self.old.pending ≡ None }
        ensures done { OnOk result (Plays self.old self.new line player (Doubles said)) }
        ensures fault { IfErr result (RefusesAt line (IsDoubleFault self.old.log self.old.standing player said)) }
    {
        if !self.is_to_act(player) {
            return Err(refused(line, MatFault::OutOfTurn));
        }
        if !self.shows(said) {
            return Err(refused(line, MatFault::WrongCube));
        }
        self.add(line, Entry::Doubled)
    }

    pub(super) fn take(&mut self, line: u32, player: Player) -> Result<(), ReadFault>
        requires replay { IsReplay self.old }
        requires goes_on { GoesOn (place_of self.old) }
        requires closed { self.old.pending ≡ None }
        ensures done { OnOk result (Plays self.old self.new line player Takes) }
        ensures fault { IfErr result (RefusesAt line
            (IsAnswerFault self.old.log self.old.standing player Entry.Taken)) }
    {
        if !self.is_doubled(player) {
            return Err(refused(line, MatFault::OutOfTurn));
        }
        self.add(line, Entry::Taken)
    }

    pub(super) fn drop(&mut self, line: u32, player: Player) -> Result<(), ReadFault>
        requires replay { IsReplay self.old }
        requires goes_on { GoesOn (place_of self.old) }
        requires closed { self.old.pending ≡ None }
        ensures done { OnOk result (Plays self.old self.new line player Drops) }
        ensures fault { IfErr result (RefusesAt line
            (IsAnswerFault self.old.log self.old.standing player Entry.Dropped)) }
    {
        if !self.is_doubled(player) {
            return Err(refused(line, MatFault::OutOfTurn));
        }
        self.add(line, Entry::Dropped)
    }
}
