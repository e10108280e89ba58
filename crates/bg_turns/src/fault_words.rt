//! `Display` of the faults.

use crate::TurnFault;
use std::fmt;

impl fmt::Display for TurnFault {
    ghost use Rattle.std.specs.Prelude.{Some};
    ghost use Rattle.bg_turns.specs.FaultWords.{turn_fault_words};

    ghost output = { λ fault. Some (turn_fault_words fault) };

    fn fmt<W: fmt::Write>(&self, f: &mut fmt::Formatter<W>) -> fmt::Result {
        match self {
            TurnFault::StepIllegal(played) => write!(
                f,
                "only the first {played} steps can be played"
            ),
            TurnFault::MoreCanBePlayed => f.write_str("more dice can be played"),
            TurnFault::LargerMustBePlayed => f.write_str("the larger die must be played"),
        }
    }
}

impl std::error::Error for TurnFault {}
