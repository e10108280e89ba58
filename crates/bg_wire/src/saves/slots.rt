//! The slots of saved texts.
ghost use Rattle.std.specs.Prelude.{◌≡◌};

/// One of the two slots in which a party keeps its saved texts (docs/FORMATS.md, "Saved files").
#[derive(Clone, Copy, Debug, PartialEq, Eq, Hash)]
pub enum Slot {
    /// The slot of saves with even numbers.
    Zero,
    /// The slot of saves with odd numbers.
    One,
}

impl Slot {
    ghost use Rattle.bg_wire.specs.Saved.Saves.{slot_of};

    /// Returns the slot of the save with this number.
    pub fn of(save: u32) -> Slot
        ensures { result ≡ slot_of save }
    {
        if save % 2 == 0 { Slot::Zero } else { Slot::One }
    }
}
