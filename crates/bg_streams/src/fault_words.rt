//! `Display` of the faults.

use crate::{EngineFault, StreamFault};
use std::fmt;

impl fmt::Display for EngineFault {
    ghost use Rattle.std.specs.Prelude.{Some};
    ghost use Rattle.bg_streams.specs.FaultWords.{engine_fault_words};

    ghost output = { λ fault. Some (engine_fault_words fault) };

    fn fmt<W: fmt::Write>(&self, f: &mut fmt::Formatter<W>) -> fmt::Result {
        f.write_str(match self {
            EngineFault::Read => "the input could not be read",
            EngineFault::Write => "the output could not be written",
            EngineFault::Memory => "out of memory",
        })
    }
}

impl std::error::Error for EngineFault {}

impl fmt::Display for StreamFault {
    ghost use Rattle.std.specs.Prelude.{Some};
    ghost use Rattle.bg_streams.specs.FaultWords.{stream_fault_words};

    ghost output = { λ _. Some stream_fault_words };

    fn fmt<W: fmt::Write>(&self, f: &mut fmt::Formatter<W>) -> fmt::Result {
        f.write_str("the device failed")
    }
}

impl std::error::Error for StreamFault {}
