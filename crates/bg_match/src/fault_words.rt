//! `Display` of the faults.

use crate::{EntryFault, ExtendFault, LengthFault, NoDouble};
use std::fmt;

impl fmt::Display for NoDouble {
    ghost use Rattle.std.specs.Prelude.{Some};
    ghost use Rattle.bg_match.specs.FaultWords.{no_double_words};

    ghost output = { λ fault. Some (no_double_words fault) };

    fn fmt<W: fmt::Write>(&self, f: &mut fmt::Formatter<W>) -> fmt::Result {
        f.write_str(match self {
            NoDouble::Crawford => "crawford",
            NoDouble::NotOwner => "not owner",
            NoDouble::AtCap => "at cap",
        })
    }
}

impl std::error::Error for NoDouble {}

impl fmt::Display for EntryFault {
    ghost use Rattle.std.specs.Prelude.{Some};
    ghost use Rattle.bg_match.specs.FaultWords.{entry_fault_words};

    ghost output = { λ fault. Some (entry_fault_words fault) };

    fn fmt<W: fmt::Write>(&self, f: &mut fmt::Formatter<W>) -> fmt::Result {
        match self {
            EntryFault::RecordFull => f.write_str("record full"),
            EntryFault::MatchOver => f.write_str("match over"),
            EntryFault::WrongPhase => f.write_str("wrong phase"),
            EntryFault::EqualOpening => f.write_str("equal opening"),
            EntryFault::Turn(why) => write!(f, "{why}"),
            EntryFault::NoDouble(why) => write!(f, "no double: {why}"),
            EntryFault::Memory => f.write_str("out of memory"),
        }
    }
}

impl std::error::Error for EntryFault {}

impl fmt::Display for ExtendFault {
    ghost use Rattle.std.specs.Prelude.{Some};
    ghost use Rattle.bg_match.specs.FaultWords.{extend_fault_words};

    ghost output = { λ fault. Some (extend_fault_words fault) };

    fn fmt<W: fmt::Write>(&self, f: &mut fmt::Formatter<W>) -> fmt::Result {
        match self {
            ExtendFault::Illegal(number) => write!(f, "illegal entry {number}"),
            ExtendFault::Memory => f.write_str("out of memory"),
        }
    }
}

impl std::error::Error for ExtendFault {}

impl fmt::Display for LengthFault {
    ghost use Rattle.std.specs.Prelude.{Some};
    ghost use Rattle.bg_match.specs.FaultWords.{length_fault_words};

    ghost output = { λ fault. Some (length_fault_words fault) };

    fn fmt<W: fmt::Write>(&self, f: &mut fmt::Formatter<W>) -> fmt::Result {
        f.write_str(match self {
            LengthFault::LengthOutOfRange => "length out of range",
        })
    }
}

impl std::error::Error for LengthFault {}
