//! The descriptions of faults, for the messages that name them.
ghost use Rattle.std.specs.Prelude.{◌≡◌, ◌≤◌, length};
ghost use Rattle.bg_wire.specs.FaultWords.{numbered, wire_fault_words, load_fault_words};

use crate::{LoadFault, RestoreRefusal, SaveRefusal, WireFault};
use std::fmt;

impl WireFault {
    /// Returns a description of the fault, and the number that follows it, if there is one.
    pub fn words(self) -> (&'static str, Option<u64>)
        ensures words { numbered result.0.now result.1 ≡ wire_fault_words self }
        ensures fits { length result.0.now ≤ 13 }
    {
        match self {
            WireFault::Short => ("short", None),
            WireFault::Magic => ("bad magic", None),
            WireFault::Version => ("bad version", None),
            WireFault::Kind => ("bad kind", None),
            WireFault::Field(at) => ("bad field at ", Some(at as u64)),
            WireFault::Extra => ("extra bytes", None),
        }
    }
}

impl LoadFault {
    /// Returns a description of the fault, and the number that follows it, if there is one.
    pub fn words(self) -> (&'static str, Option<u64>)
        ensures words { numbered result.0.now result.1 ≡ load_fault_words self }
        ensures fits { length result.0.now ≤ 14 }
    {
        match self {
            LoadFault::Short => ("short", None),
            LoadFault::Magic => ("bad magic", None),
            LoadFault::Field(at) => ("bad field at ", Some(at as u64)),
            LoadFault::Extra => ("extra bytes", None),
            LoadFault::Illegal(number) => ("illegal entry ", Some(number.into())),
            LoadFault::Memory => ("out of memory", None),
        }
    }
}

impl fmt::Display for WireFault {
    ghost use Rattle.std.specs.Prelude.{Some};
    ghost use Rattle.bg_wire.specs.FaultWords.{wire_fault_words};

    ghost output = { λ fault. Some (wire_fault_words fault) };

    fn fmt<W: fmt::Write>(&self, f: &mut fmt::Formatter<W>) -> fmt::Result {
        match self.words() {
            (words, None) => f.write_str(words),
            (words, Some(number)) => write!(f, "{words}{number}"),
        }
    }
}

impl std::error::Error for WireFault {}

impl fmt::Display for LoadFault {
    ghost use Rattle.std.specs.Prelude.{Some};
    ghost use Rattle.bg_wire.specs.FaultWords.{load_fault_words};

    ghost output = { λ fault. Some (load_fault_words fault) };

    fn fmt<W: fmt::Write>(&self, f: &mut fmt::Formatter<W>) -> fmt::Result {
        match self.words() {
            (words, None) => f.write_str(words),
            (words, Some(number)) => write!(f, "{words}{number}"),
        }
    }
}

impl std::error::Error for LoadFault {}

impl fmt::Display for SaveRefusal {
    ghost use Rattle.std.specs.Prelude.{Some};
    ghost use Rattle.bg_wire.specs.FaultWords.{save_refusal_words};

    ghost output = { λ fault. Some (save_refusal_words fault) };

    fn fmt<W: fmt::Write>(&self, f: &mut fmt::Formatter<W>) -> fmt::Result {
        f.write_str(match self {
            SaveRefusal::SavesSpent => "saves spent",
            SaveRefusal::Memory => "out of memory",
        })
    }
}

impl std::error::Error for SaveRefusal {}

impl fmt::Display for RestoreRefusal {
    ghost use Rattle.std.specs.Prelude.{Some};
    ghost use Rattle.bg_wire.specs.FaultWords.{restore_refusal_words};

    ghost output = { λ fault. Some (restore_refusal_words fault) };

    fn fmt<W: fmt::Write>(&self, f: &mut fmt::Formatter<W>) -> fmt::Result {
        f.write_str(match self {
            RestoreRefusal::Damaged => "damaged",
            RestoreRefusal::WrongMatch => "wrong match",
            RestoreRefusal::Memory => "out of memory",
        })
    }
}

impl std::error::Error for RestoreRefusal {}
