//! `Display` of the fault.

use crate::ScriptFault;
use std::fmt;

impl fmt::Display for ScriptFault {
    ghost use Rattle.std.specs.Prelude.{Some};
    ghost use Rattle.bg_world.specs.Texts.FaultWords.{script_fault_words};

    ghost output = { λ fault. Some (script_fault_words fault) };

    fn fmt<W: fmt::Write>(&self, f: &mut fmt::Formatter<W>) -> fmt::Result {
        match self {
            ScriptFault::World(why) => write!(f, "{why}"),
            ScriptFault::Engine(why) => write!(f, "{why}"),
        }
    }
}
