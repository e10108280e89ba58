//! `Display` of the faults.

use crate::DueFault;
use std::fmt;

impl fmt::Display for DueFault {
    ghost use Rattle.std.specs.Prelude.{Some};
    ghost use Rattle.bg_referee.specs.FaultWords.{due_fault_words};

    ghost output = { λ fault. Some (due_fault_words fault) };

    fn fmt<W: fmt::Write>(&self, f: &mut fmt::Formatter<W>) -> fmt::Result {
        f.write_str(match self {
            DueFault::NothingDue => "nothing due",
            DueFault::WordRefused => "word refused",
            DueFault::EqualOpening => "equal opening",
            DueFault::RecordFull => "record full",
            DueFault::Memory => "out of memory",
        })
    }
}

impl std::error::Error for DueFault {}
