//! The link of a process that runs one party: an inbox for what has come, and an outbox for what is
//! to be sent.
ghost use Rattle.std.specs.Prelude.{[], None, length};
ghost use Rattle.bg_protocol.specs.Devices.Handed.{noted_answer};

use arrayvec::ArrayVec;
use bg_streams::History;
use bg_wire::Datagram;
use bg_world::{DeviceFault, Link, Taken, count_failed, note_taken};
use std::alloc::Global;
use std::collections::VecDeque;
use std::mem;

/// An inbox of bytes and an outbox of datagrams, beside what contracts read.
#[derive(Drop)]
pub struct PostLink {
    alloc: Global,
    inbox: VecDeque<ArrayVec<u8, 256>>,
    outbox: VecDeque<Datagram>,
    takes: History,
    sends: History,
    faults: History,
    taken: Result<Option<History>, DeviceFault>,
}

impl PostLink {
    /// Returns a link whose inbox and outbox are empty.
    pub fn new(alloc: Global) -> PostLink {
        PostLink {
            alloc,
            inbox: VecDeque::new(alloc),
            outbox: VecDeque::new(alloc),
            takes: History::new(),
            sends: History::new(),
            faults: History::new(),
            taken: Ok(None),
        }
    }

    /// Puts the bytes of a datagram that has come into the inbox. What is longer than any packet is
    /// lost, and so is what there is no memory for.
    pub fn receive(&mut self, bytes: &[u8]) {
        let mut datagram = ArrayVec::new();
        if datagram.try_extend_from_slice(bytes).is_ok() {
            let _ = self.inbox.push_back(datagram);
        }
    }

    /// Returns the number of datagrams that wait in the inbox.
    pub fn waiting(&self) -> usize {
        self.inbox.len()
    }

    /// Empties the outbox, and returns what is to be sent, the oldest first.
    pub fn outgoing(&mut self) -> VecDeque<Datagram> {
        mem::replace(&mut self.outbox, VecDeque::new(self.alloc))
    }
}

impl Link for PostLink {
    ghost is_honest = { ⊥ };

    ghost plan = { λ _. None };

    ghost sent = { λ _. [] };

    ghost faults = { λ link. length link.faults.bytes };

    ghost takes = { λ link. length link.takes.bytes };

    ghost sends = { λ link. length link.sends.bytes };

    ghost taken = { λ link. noted_answer link.taken };

    fn send(&mut self, datagram: &Datagram) -> Result<(), DeviceFault> {
        self.sends = self.sends.marked();
        let result = self
            .outbox
            .push_back(datagram.copy())
            .map_err(DeviceFault::from);
        self.faults = count_failed(&self.faults, &result);
        result
    }

    // All that has come is for the one party of this process, and is taken in the order in which it
    // came.
    fn take(&mut self, _party: u8, _pick: u32) -> Taken {
        self.takes = self.takes.marked();
        let taken = Ok(self.inbox.pop_front());
        self.taken = note_taken(&taken);
        taken
    }
}
