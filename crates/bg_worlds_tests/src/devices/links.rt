//! A link in memory that hands over in order or by picks, and records what it is asked.
ghost use Rattle.std.specs.Prelude.{[], None, length};
ghost use Rattle.bg_protocol.specs.Devices.Handed.{noted_answer};

use super::Recorder;
use arrayvec::ArrayVec;
use bg_streams::History;
use bg_wire::Datagram;
use bg_world::{DeviceFault, Link, Taken, count_failed, note_taken};

/// The same bytes, by themselves.
fn text_of(bytes: &[u8]) -> Result<ArrayVec<u8, 256>, DeviceFault> {
    let mut text = ArrayVec::new();
    match text.try_extend_from_slice(bytes) {
        Ok(()) => Ok(text),
        Err(_) => Err(DeviceFault::Failed),
    }
}

/// Bytes that were sent to a party.
#[derive(Drop)]
struct Waiting {
    party: u8,
    bytes: ArrayVec<u8, 256>,
    /// They were handed over, by a link that hands over once.
    gone: bool,
}

/// What was sent to the parties, in order.
#[derive(Drop)]
struct Queue<'a> {
    recorder: &'a Recorder,
    once: bool,
    sends: u32,
    waiting: Vec<Waiting>,
}

impl<'a> Queue<'a> {
    /// Bytes wait for a party, behind what does so already.
    fn wait(&mut self, party: u8, bytes: &[u8]) -> Result<(), DeviceFault> {
        self.waiting.push(Waiting {
            party,
            bytes: text_of(bytes)?,
            gone: false,
        })?;
        Ok(())
    }

    /// Where the bytes of this index, from 0, stand among those that wait for a party.
    fn place_of(&self, party: u8, index: u32) -> Option<usize> {
        let mut left = index;
        for (place, waiting) in self.waiting.iter().enumerate() {
            if waiting.party != party || waiting.gone {
                continue;
            }
            if left == 0 {
                return Some(place);
            }
            left -= 1;
        }
        None
    }

    /// What this index names, from 0, among the bytes that wait for a party.
    fn next(&mut self, party: u8, index: u32) -> Taken {
        let Some(place) = self.place_of(party, index) else {
            return Ok(None);
        };
        match self.waiting.get_mut(place) {
            Some(waiting) => {
                waiting.gone = self.once;
                Ok(Some(text_of(waiting.bytes.as_slice())?))
            }
            None => Ok(None),
        }
    }

    fn send_on(&mut self, datagram: &Datagram) -> Result<(), DeviceFault> {
        let bytes = datagram.bytes.bytes.as_slice();
        self.recorder
            .record_said("send", &[datagram.to.into()], Some(bytes))?;
        self.sends = self.sends.saturating_add(1);
        match self.recorder.send_failure(self.sends) {
            None => self.wait(datagram.to, bytes),
            Some(failure) => {
                if failure.went {
                    self.wait(datagram.to, bytes)?;
                }
                Err(DeviceFault::Failed)
            }
        }
    }

    fn hand_over(&mut self, party: u8, pick: u32) -> Taken {
        let found = self.next(party, pick)?;
        let bytes = found.as_ref().map(|bytes| bytes.as_slice());
        self.recorder
            .record_said("take", &[party.into(), pick], bytes)?;
        Ok(found)
    }
}

/// A link that hands over what was sent to a party: by picks, as often as it is asked, or in order
/// and once.
#[derive(Drop)]
pub(crate) struct OwnLink<'a> {
    queue: Queue<'a>,
    takes: History,
    sends: History,
    faults: History,
    taken: Result<Option<History>, DeviceFault>,
}

impl<'a> OwnLink<'a> {
    fn new(recorder: &'a Recorder, once: bool) -> OwnLink<'a> {
        OwnLink {
            queue: Queue {
                recorder,
                once,
                sends: 0,
                waiting: Vec::new(recorder.alloc),
            },
            takes: History::new(),
            sends: History::new(),
            faults: History::new(),
            taken: Ok(None),
        }
    }

    /// A link that hands over what a pick names.
    pub(crate) fn by_picks(recorder: &'a Recorder) -> OwnLink<'a> {
        OwnLink::new(recorder, false)
    }

    /// A link that hands over in order, and once, where each pick is 0.
    pub(crate) fn in_order(recorder: &'a Recorder) -> OwnLink<'a> {
        OwnLink::new(recorder, true)
    }

    /// Bytes wait for a party, behind what does so already.
    pub(crate) fn wait(&mut self, party: u8, bytes: &[u8]) -> Result<(), DeviceFault> {
        self.queue.wait(party, bytes)
    }
}

impl<'a> Link for OwnLink<'a> {
    ghost is_honest = { ⊥ };

    ghost plan = { λ _. None };

    ghost sent = { λ _. [] };

    ghost faults = { λ link. length link.faults.bytes };

    ghost takes = { λ link. length link.takes.bytes };

    ghost sends = { λ link. length link.sends.bytes };

    ghost taken = { λ link. noted_answer link.taken };

    fn send(&mut self, datagram: &Datagram) -> Result<(), DeviceFault> {
        self.sends = self.sends.marked();
        let result = self.queue.send_on(datagram);
        self.faults = count_failed(&self.faults, &result);
        result
    }

    fn take(&mut self, party: u8, pick: u32) -> Taken {
        self.takes = self.takes.marked();
        let result = self.queue.hand_over(party, pick);
        self.faults = count_failed(&self.faults, &result);
        self.taken = note_taken(&result);
        result
    }
}
