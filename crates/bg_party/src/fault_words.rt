//! `Display` of the faults.

use crate::ChooseFault;
use std::fmt;

impl fmt::Display for ChooseFault {
    ghost use Rattle.std.specs.Prelude.{Some};
    ghost use Rattle.bg_party.specs.FaultWords.{choose_fault_words};

    ghost output = { λ fault. Some (choose_fault_words fault) };

    fn fmt<W: fmt::Write>(&self, f: &mut fmt::Formatter<W>) -> fmt::Result {
        match self {
            ChooseFault::NotYourTurn => f.write_str("not your turn"),
            ChooseFault::AlreadyClaimed => f.write_str("already claimed"),
            ChooseFault::Illegal(why) => write!(f, "illegal action: {why}"),
        }
    }
}

impl std::error::Error for ChooseFault {}
