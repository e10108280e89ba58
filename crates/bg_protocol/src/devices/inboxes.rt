//! The datagrams that were sent to one party.
ghost use Rattle.std.specs.Prelude.{◌≡◌, ◌+◌, ◌≤◌, ◌<◌, ◌∷◌, ◌++◌, [], length, option_copied, slice_get, slice_index};
ghost use Rattle.std.specs.Prelude.{IfOk, IfSome, OnErr, OnOk};
ghost use Rattle.bg_protocol.specs.Devices.Inboxes.{text_between};

use std::alloc::{AllocError, Global};
use std::marker::Model;

/// The datagrams that were sent to one party, one after the other. Contracts see the list of their
/// bytes, the oldest first.
#[derive(Drop)]
pub(crate) struct Inbox {
    bytes: Vec<u8>,
    /// The offset at which each datagram ends.
    ends: Vec<u32>,
}

impl Model for Inbox {
    ghost use Rattle.std.specs.Prelude.{List, length, ℕ};
    ghost use Rattle.bg_protocol.specs.Devices.Inboxes.{AreEnds, texts_from};

    ghost Value = { List (List ℕ) };

    ghost view = { λ inbox. texts_from 0 inbox.ends.items inbox.bytes.items };

    ghost invariant = { λ inbox. AreEnds 0 inbox.ends.items (length inbox.bytes.items) };
}

impl Inbox {
    /// Returns an empty inbox.
    pub(crate) fn new(alloc: Global) -> Inbox
        ensures { result ≡ [] }
    {
        Inbox {
            bytes: Vec::new(alloc),
            ends: Vec::new(alloc),
        }
    }

    /// Appends the bytes of a datagram. Where memory runs out, nothing changes; nor is there any
    /// for more than 4294967295 bytes.
    pub(crate) fn push(&mut self, text: &[u8]) -> Result<(), AllocError>
        requires { length text.now ≤ 128 }
        ensures ok { OnOk result (self.new ≡ self.old ++ text.now ∷ []) }
        ensures err { OnErr result (self.new ≡ self.old) }
    {
        let end = end_behind(&self.bytes, text)?;
        self.ends.reserve(1)?;
        self.bytes.extend_from_slice(text)?;
        self.ends.push_reserved(end);
        Ok(())
    }

    /// Returns the bytes of the datagram with this index, from 0.
    pub(crate) fn get(&self, index: u32) -> Option<&[u8]>
        ensures text { option_copied result ≡ slice_get self.now index }
        ensures few { IfSome result (λ text. length text.now ≤ 128) }
    {
        let index = index as usize;
        let end = *self.ends.get(index)?;
        Some(part_of(&self.bytes, start_of(&self.ends, index), end))
    }

    /// Returns the number of datagrams.
    pub(crate) fn len(&self) -> usize
        ensures { result ≡ length self.now }
    {
        self.ends.as_slice().len()
    }
}

/// Returns the bytes from `start` up to `end`.
fn part_of(bytes: &[u8], start: u32, end: u32) -> &[u8]
    requires rises { start ≤ end }
    requires within { end ≤ length bytes.now }
    ensures { result.now ≡ text_between start end bytes.now }
{
    &bytes[start as usize..end as usize]
}

/// Returns the offset at which `text` ends when it stands behind these bytes.
fn end_behind(bytes: &[u8], text: &[u8]) -> Result<u32, AllocError>
    requires { length text.now ≤ 128 }
    ensures { IfOk result (λ end. end ≡ length bytes.now + length text.now) }
{
    u32::try_from(bytes.len() + text.len()).map_err(|_| AllocError)
}

/// Returns the offset at which the datagram of this index begins, which is the end of the one
/// before it.
fn start_of(ends: &[u32], index: usize) -> u32
    requires { index < length ends.now }
    ensures { result ≡ slice_index (0 ∷ ends.now) index }
{
    match index.checked_sub(1) {
        Some(before) => ends[before],
        None => 0,
    }
}
