//! The datagrams in a queue that nobody has taken yet.
ghost use Rattle.std.specs.Prelude.{◌≡◌, ◌≤◌, ◌<◌, ◌∷◌, ◌++◌, [], Contains, IfSome, IsTrue, OnErr, OnOk};
ghost use Rattle.std.specs.Prelude.{slice_index_or, vec_len};
ghost use Rattle.bg_hosted.specs.Queues.{most_waiting, were_sent};
ghost use Rattle.bg_wire.specs.declared.packets.Datagram.{Datagram as Sent};

use crate::MOST_WAITING;
use arrayvec::ArrayVec;
use bg_protocol::SentHistory;
use bg_wire::Datagram;
use bg_world::DeviceFault;
use std::alloc::Global;

/// The datagrams that were sent and that nobody has taken yet, the oldest first; at most 64.
#[derive(Drop)]
pub(crate) struct Waiting {
    datagrams: Vec<Datagram>,
    pub(crate) sent: SentHistory,
    ghost few: { vec_len datagrams ≤ most_waiting },
    ghost sent_before: { IsTrue (were_sent sent.datagrams datagrams.items) },
}

impl Waiting {
    /// Returns an empty queue over which nothing has been sent.
    pub(crate) fn new(alloc: Global) -> Waiting
        ensures { result.sent.datagrams ≡ [] }
    {
        Waiting {
            datagrams: Vec::new(alloc),
            sent: SentHistory::new(),
        }
    }

    /// Adds a datagram at the end.
    ///
    /// # Errors
    /// The datagram is lost:
    /// - `Failed` if 64 wait already;
    /// - `Memory` if memory runs out.
    pub(crate) fn put(&mut self, datagram: &Datagram) -> Result<(), DeviceFault>
        ensures ok { OnOk result (self.new.sent.datagrams ≡ self.old.sent.datagrams ++ datagram.now ∷ []) }
        ensures err { OnErr result (self.new.sent.datagrams ≡ self.old.sent.datagrams) }
    {
        if self.datagrams.len() >= MOST_WAITING {
            return Err(DeviceFault::Failed);
        }
        self.datagrams.push(datagram.copy())?;
        self.sent = self.sent.then(datagram);
        Ok(())
    }

    /// Removes the oldest datagram to a party and returns its bytes, or `None` if none waits.
    pub(crate) fn take(&mut self, party: u8) -> Option<ArrayVec<u8, 256>>
        ensures same { self.new.sent.datagrams ≡ self.old.sent.datagrams }
        ensures taken { IfSome result (λ bytes.
            Contains self.old.sent.datagrams (record { to = party; bytes = bytes.items })) }
    {
        let index = self.first_to(party)?;
        let datagram = self.datagrams.remove(index);
        Some(bytes_of(&datagram))
    }

    /// Returns the index, from 0, of the oldest datagram to a party, or `None` if none waits.
    fn first_to(&self, party: u8) -> Option<usize>
        ensures within { IfSome result (λ index. index < vec_len self.now.datagrams) }
        ensures theirs { IfSome result (λ index.
            (other : Sent) → (slice_index_or self.now.datagrams.items index other).to ≡ party) }
    {
        self.datagrams
            .iter()
            .position(|datagram| datagram.to == party)
    }
}

/// Returns the bytes of a datagram.
fn bytes_of(datagram: &Datagram) -> ArrayVec<u8, 256>
    ensures { result.items ≡ datagram.now.bytes }
{
    let mut bytes = ArrayVec::new();
    bytes
        .try_extend_from_slice(datagram.bytes.bytes.as_slice())
        .unwrap();
    bytes
}
