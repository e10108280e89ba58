//! A link in memory that keeps only the datagrams that nobody has taken yet.
ghost use Rattle.std.specs.Prelude.{◌≡◌, None, length};
ghost use Rattle.bg_protocol.specs.Devices.Handed.{noted_answer};

use crate::waiting::Waiting;
use bg_streams::History;
use bg_wire::Datagram;
use bg_world::{DeviceFault, Link, Taken, count_failed, note_taken};
use std::alloc::Global;

/// The largest number of datagrams that can wait at once. A datagram that is sent while this many
/// wait is lost, as on a network.
pub const MOST_WAITING: usize = 64;

/// An honest link between the parties of one process. It hands over each datagram at most once, and
/// the datagrams to one party in the order in which they were sent. It keeps at most 64 waiting
/// datagrams, and nothing of those that have been taken.
#[derive(Drop)]
pub struct QueueLink {
    waiting: Waiting,
    takes: History,
    sends: History,
    faults: History,
    taken: Result<Option<History>, DeviceFault>,
}

impl QueueLink {
    ghost use Rattle.bg_hosted.specs.QueueLinks.{queue_view, unused_queue};

    /// Returns an unused link: nothing has been sent over it, and nothing taken from it.
    pub fn new(alloc: Global) -> QueueLink
        ensures { queue_view result ≡ unused_queue }
    {
        QueueLink {
            waiting: Waiting::new(alloc),
            takes: History::new(),
            sends: History::new(),
            faults: History::new(),
            taken: Ok(None),
        }
    }
}

impl Link for QueueLink {
    ghost is_honest = { Unit {0} };

    // Which sends fail isn't known beforehand: those that find the queue full, or no memory.
    ghost plan = { λ _. None };

    ghost sent = { λ link. link.waiting.sent.datagrams };

    ghost faults = { λ link. length link.faults.bytes };

    ghost takes = { λ link. length link.takes.bytes };

    ghost sends = { λ link. length link.sends.bytes };

    ghost taken = { λ link. noted_answer link.taken };

    fn send(&mut self, datagram: &Datagram) -> Result<(), DeviceFault> {
        self.sends = self.sends.marked();
        let result = self.waiting.put(datagram);
        self.faults = count_failed(&self.faults, &result);
        result
    }

    fn take(&mut self, party: u8, _pick: u32) -> Taken {
        self.takes = self.takes.marked();
        let taken = Ok(self.waiting.take(party));
        self.taken = note_taken(&taken);
        taken
    }
}
