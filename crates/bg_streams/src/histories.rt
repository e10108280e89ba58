//! Histories, which only contracts read.
ghost use Rattle.std.specs.Prelude.{◌≡◌, ℕ, ◌+◌, List, [], ◌++◌, length};
ghost use Rattle.std.specs.Borrow.{ftrue};

use std::marker::Model;

/// The history of a device, in order: the bytes that went one way, or a byte as a mark for each
/// time that something was done. In the latter case its length is the number of times. It takes no
/// memory and has no last value. Contracts read it as `bytes`; code reads nothing of it.
#[derive(Drop)]
pub struct History {
    pub ghost bytes: { List ℕ },
}

impl Model for History {
    ghost also_owns = { λ _. ftrue };
}

impl History {
    /// Returns an empty history.
    pub fn new() -> History
        ensures { result.bytes ≡ [] }
    {
        History {}
    }

    /// Returns the history with these bytes appended.
    pub fn then(&self, _bytes: &[u8]) -> History
        ensures { result.bytes ≡ self.now.bytes ++ _bytes.now }
    {
        History {}
    }

    /// Returns the history with one more mark.
    pub fn marked(&self) -> History
        ensures { length result.bytes ≡ length self.now.bytes + 1 }
    {
        self.then(&[0])
    }

    /// Returns the same history.
    pub fn copy(&self) -> History
        ensures { result.bytes ≡ self.now.bytes }
    {
        self.then(&[])
    }
}
