//! The names of saved files.

use bg_wire::Slot;
use std::fmt;
use std::fmt::{Display, Formatter, Write};

/// The name of a slot's file in its folder; that of slot S of party P is `party-P.S`
/// (docs/OPERATING.md, "Files").
#[derive(Clone, Copy, Debug, PartialEq, Eq)]
pub struct SlotName {
    /// The number of the party.
    pub party: u8,
    /// The slot of the file.
    pub slot: Slot,
}

impl Display for SlotName {
    fn fmt<W: Write>(&self, f: &mut Formatter<W>) -> fmt::Result {
        let slot = match self.slot {
            Slot::Zero => 0,
            Slot::One => 1,
        };
        write!(f, "party-{}.{slot}", self.party)
    }
}
