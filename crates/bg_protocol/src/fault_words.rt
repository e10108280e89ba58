//! `Display` of the faults.

use crate::{DeviceFault, WorldFault};
use std::fmt;

impl fmt::Display for DeviceFault {
    ghost use Rattle.std.specs.Prelude.{Some};
    ghost use Rattle.bg_protocol.specs.FaultWords.{device_fault_words};

    ghost output = { λ fault. Some (device_fault_words fault) };

    fn fmt<W: fmt::Write>(&self, f: &mut fmt::Formatter<W>) -> fmt::Result {
        f.write_str(match self {
            DeviceFault::Failed => "the device failed",
            DeviceFault::Memory => "out of memory",
        })
    }
}

impl fmt::Display for WorldFault {
    ghost use Rattle.std.specs.Prelude.{Some};
    ghost use Rattle.bg_protocol.specs.FaultWords.{world_fault_words};

    ghost output = { λ fault. Some (world_fault_words fault) };

    fn fmt<W: fmt::Write>(&self, f: &mut fmt::Formatter<W>) -> fmt::Result {
        f.write_str(match self {
            WorldFault::TooManyWatchers => "too many watchers",
            WorldFault::LengthOutOfRange => "length out of range",
            WorldFault::Memory => "out of memory",
        })
    }
}
