//! The reasons why bytes are no packet or no saved text, why nothing is restored, and why there is
//! no text to save.
use bg_match::Number;

/// The reason why bytes are not the encoding of a packet. Bytes are read from left to right, and a
/// field is tested once all its bytes are there. The first fault met is named (docs/FORMATS.md,
/// "Packets").
#[derive(Clone, Copy, Debug, PartialEq, Eq)]
pub enum WireFault {
    /// A byte that is needed is missing.
    Short,
    /// The bytes do not begin as a packet does.
    Magic,
    /// The version is not one that is read.
    Version,
    /// There is no packet of this kind.
    Kind,
    /// A field is out of its range. Its first byte stands at this offset, from 0.
    Field(usize),
    /// More bytes follow the end of the packet.
    Extra,
}

/// The reason why bytes are no saved text. Bytes are read from left to right, and a field is tested
/// once all its bytes are there. The first fault met is named. The entries are tried once the whole
/// layout holds (docs/FORMATS.md, "Saved files").
#[derive(Clone, Copy, Debug, PartialEq, Eq)]
pub enum LoadFault {
    /// A byte that is needed is missing.
    Short,
    /// The bytes do not begin as a saved text does.
    Magic,
    /// A field is out of its range. Its first byte stands at this offset, from 0.
    Field(usize),
    /// More bytes follow the end of the saved text.
    Extra,
    /// The layout holds, and the entry of this number, from 1, is the first that does not follow
    /// the ones before it.
    Illegal(Number),
    /// There is no memory for the entries.
    Memory,
}

/// The reason why a party has no text to save, in the order in which the refusals are tested
/// (docs/PROTOCOL.md, "Saving").
#[derive(Clone, Copy, Debug, PartialEq, Eq)]
pub enum SaveRefusal {
    /// The last save had the greatest number, 4294967295.
    SavesSpent,
    /// There is no memory for the text.
    Memory,
}

/// The reason why nothing is restored from two slots, in the order in which the refusals are
/// tested. `Memory` may come in place of any other answer (docs/FORMATS.md, "Saved files").
#[derive(Clone, Copy, Debug, PartialEq, Eq)]
pub enum RestoreRefusal {
    /// Neither slot has a saved text, and slot 0 is not empty.
    Damaged,
    /// The saved text is of another party, or of a match with another id, length or rules.
    WrongMatch,
    /// There is no memory for the entries.
    Memory,
}
