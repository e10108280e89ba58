//! Bytes that are written one after the other.
ghost use Rattle.std.specs.Prelude.{◌≡◌, ◌≤◌, ◌+◌, ◌++◌, [], length, nat_lt, take};

use std::marker::Model;

/// The bytes written so far, with room for `ROOM` bytes. Contracts see it as the list of its bytes.
#[derive(Drop)]
pub(crate) struct Writer<const ROOM: usize> {
    /// The bytes, followed by filler.
    room: [u8; ROOM],
    /// The number of bytes.
    len: usize,
}

impl<const ROOM: usize> Model for Writer<ROOM> {
    ghost use Rattle.std.specs.Prelude.{◌≤◌, List, ℕ, take};

    ghost Value = { List ℕ };

    ghost view = { λ writer. take writer.len writer.room };

    ghost invariant = { λ writer. writer.len ≤ ROOM };
}

impl<const ROOM: usize> Writer<ROOM> {
    /// Returns an empty writer.
    pub(crate) fn new() -> Writer<ROOM>
        ensures { result ≡ [] }
    {
        Writer {
            room: [0; ROOM],
            len: 0,
        }
    }

    /// Returns the bytes written so far.
    pub(crate) fn as_slice(&self) -> &[u8]
        ensures value { result.now ≡ self.now }
        ensures few { length result.now ≤ ROOM }
    {
        &self.room[..self.len]
    }

    /// Returns whether there is room for `count` more bytes.
    pub(crate) fn has_room(&self, count: usize) -> bool
        ensures { result ≡ nat_lt (length self.now + count) (ROOM + 1) }
    {
        count <= ROOM - self.len
    }

    /// Appends these bytes.
    pub(crate) fn put(&mut self, bytes: &[u8])
        requires { length self.old + length bytes.now ≤ ROOM }
        ensures { self.new ≡ self.old ++ bytes.now }
    {
        self.put_first(bytes, bytes.len());
    }

    /// Appends the first `count` of these bytes. There is room for all of them and all are copied,
    /// so the time does not depend on the count.
    pub(crate) fn put_first(&mut self, bytes: &[u8], count: usize)
        requires counted { count ≤ length bytes.now }
        requires room { length self.old + length bytes.now ≤ ROOM }
        ensures { self.new ≡ self.old ++ take count bytes.now }
    {
        let start = self.len;
        let room = &mut self.room[..];
        room[start..start + bytes.len()].copy_from_slice(bytes);
        self.len = start + count;
    }

    /// Discards all that was written.
    pub(crate) fn clear(&mut self)
        ensures { self.new ≡ [] }
    {
        self.len = 0;
    }
}
