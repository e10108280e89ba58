//! `Display` of the faults.

use crate::{BoardFault, StepFault};
use std::fmt;

impl fmt::Display for StepFault {
    ghost use Rattle.std.specs.Prelude.{Some};
    ghost use Rattle.bg_board.specs.FaultWords.{step_fault_words};

    ghost output = { λ fault. Some (step_fault_words fault) };

    fn fmt<W: fmt::Write>(&self, f: &mut fmt::Formatter<W>) -> fmt::Result {
        f.write_str(match self {
            StepFault::NoChecker => "no checker where the step begins",
            StepFault::BarFirst => "a checker on the bar must enter first",
            StepFault::WrongLanding => "the die does not lead there",
            StepFault::Blocked => "the landing point is blocked",
            StepFault::NotAllHome => "a checker stands outside the home board",
            StepFault::HigherChecker => "a checker stands on a higher point",
        })
    }
}

impl std::error::Error for StepFault {}

impl fmt::Display for BoardFault {
    ghost use Rattle.std.specs.Prelude.{Some};
    ghost use Rattle.bg_board.specs.FaultWords.{board_fault_words};

    ghost output = { λ fault. Some (board_fault_words fault) };

    fn fmt<W: fmt::Write>(&self, f: &mut fmt::Formatter<W>) -> fmt::Result {
        f.write_str(match self {
            BoardFault::NotFifteen => "a player does not have fifteen checkers",
            BoardFault::SharedPoint => "both players have checkers on one point",
        })
    }
}

impl std::error::Error for BoardFault {}
