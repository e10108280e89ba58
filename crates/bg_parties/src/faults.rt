//! The reasons why a party does not do what it is asked for.

use bg_wire::{RestoreRefusal, SaveRefusal};

/// The reason why a party is not opened, in the order of the tests.
#[derive(Clone, Copy, Debug, PartialEq, Eq)]
pub enum OpenFault {
    /// The length of the match is not from 1 to 99.
    LengthOutOfRange,
    /// The slots restore nothing that the party could go on from.
    Restore(RestoreRefusal),
}

/// The reason why a call of one role fails: it is not this party's, or its core refuses it.
#[derive(Clone, Copy, Debug, PartialEq, Eq)]
pub enum RoleFault<F> {
    /// The party has another role.
    OtherRole,
    /// The reason why the core refuses it.
    Core(F),
}

/// The reason why there is no save to write.
pub type SaveFault = RoleFault<SaveRefusal>;

/// No save of this number is under way.
#[derive(Clone, Copy, Debug, PartialEq, Eq)]
pub struct NotUnderWay;
