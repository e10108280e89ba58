//! A link in memory.
ghost use Rattle.std.specs.Prelude.{◌≡◌, ◌≤◌, [], length, min, Ok, None, Some, IfSome, MatchOption};
ghost use Rattle.bg_protocol.specs.Devices.Handed.{count_to, handed};
ghost use Rattle.bg_protocol.specs.Devices.Plan.{SendsBy};

use crate::devices::notes::count_failed;
use crate::devices::plans::find_failure;
use crate::devices::sent_datagrams::SentDatagrams;
use crate::{DeviceFault, FailSend, Link, Taken};
use arrayvec::ArrayVec;
use bg_streams::History;
use bg_wire::Datagram;
use std::alloc::Global;

/// The pick that no datagram has. It hands over one byte 0.
const GARBLED: u32 = u32::MAX;

/// A link in memory, which is honest. It keeps each datagram that was sent, and hands over the one
/// that a pick names. Its sends fail by a plan (docs/PROTOCOL.md, "Devices").
#[derive(Drop)]
pub struct MemoryNet {
    sent: SentDatagrams,
    failing: Vec<FailSend>,
    asked: u32,
    takes: History,
    sends: History,
    faults: History,
    taken: Option<History>,
    ghost known: { asked ≡ min (length sends.bytes) 4294967295 },
}

impl MemoryNet {
    ghost use Rattle.bg_protocol.specs.Devices.MemoryDevices.{last_taken, net_faults, net_plan, sends_of, sent_over};
    ghost use Rattle.bg_protocol.specs.Devices.MemoryDevices.{takes_of};

    /// Returns a link over which nothing was sent, and of which nothing was asked. The sends that
    /// the plan names fail.
    pub(crate) fn new(alloc: Global, failing: Vec<FailSend>) -> MemoryNet
        ensures sent { sent_over result ≡ [] }
        ensures plan { net_plan result ≡ failing.items }
        ensures faults { net_faults result ≡ 0 }
        ensures takes { takes_of result ≡ 0 }
        ensures sends { sends_of result ≡ 0 }
        ensures taken { last_taken result ≡ Ok None }
    {
        MemoryNet {
            sent: SentDatagrams::new(alloc),
            failing,
            asked: 0,
            takes: History::new(),
            sends: History::new(),
            faults: History::new(),
            taken: None,
        }
    }

    /// Returns the number of datagrams sent to the party, or 4294967295 where there are as many or
    /// more. Those that went out though their send failed are included. It takes the same time
    /// however many there are.
    pub fn sent_to(&self, party: u8) -> u32
        ensures { result ≡ count_to party (sent_over self.now) }
    {
        self.sent.count_to(party)
    }
}

/// Sends a datagram as the plan says of this send.
fn send_by(
    failure: Option<FailSend>,
    sent: &mut SentDatagrams,
    datagram: &Datagram,
) -> Result<(), DeviceFault>
    ensures { SendsBy failure sent.old datagram.now sent.new result }
{
    match failure {
        None => {
            sent.push(datagram)?;
            Ok(())
        }
        Some(failure) => {
            if failure.went {
                sent.push(datagram)?;
            }
            Err(DeviceFault::Failed)
        }
    }
}

/// Returns the bytes that the pick names among the datagrams to the party.
fn named(sent: &SentDatagrams, party: u8, pick: u32) -> Option<&[u8]>
    ensures handed { MatchOption result (handed sent.now party pick ≡ None)
        (λ text. handed sent.now party pick ≡ Some (record { items = text.now })) }
    ensures few { IfSome result (λ text. length text.now ≤ 128) }
{
    if pick == GARBLED {
        return Some(b"\0".as_slice());
    }
    sent.get(party, pick)
}

/// Returns these bytes, of which there are few.
fn array_of(text: &[u8]) -> ArrayVec<u8, 256>
    requires { length text.now ≤ 128 }
    ensures { result.items ≡ text.now }
{
    let mut bytes = ArrayVec::new();
    bytes.try_extend_from_slice(text).unwrap();
    bytes
}

impl Link for MemoryNet {
    ghost use Rattle.std.specs.Prelude.{Some};
    ghost use Rattle.bg_protocol.specs.Devices.MemoryDevices.{last_taken, net_faults, net_plan, sends_of, sent_over};
    ghost use Rattle.bg_protocol.specs.Devices.MemoryDevices.{takes_of};

    ghost is_honest = { Unit {0} };

    ghost plan = { λ net. Some (net_plan net) };

    ghost sent = { sent_over };

    ghost faults = { net_faults };

    ghost takes = { takes_of };

    ghost sends = { sends_of };

    ghost taken = { last_taken };

    fn send(&mut self, datagram: &Datagram) -> Result<(), DeviceFault> {
        self.sends = self.sends.marked();
        self.asked = self.asked.saturating_add(1);
        let failure = find_failure(&self.failing, self.asked);
        let result = send_by(failure, &mut self.sent, datagram);
        self.faults = count_failed(&self.faults, &result);
        result
    }

    fn take(&mut self, party: u8, pick: u32) -> Taken {
        self.takes = self.takes.marked();
        let Some(text) = named(&self.sent, party, pick) else {
            self.taken = None;
            return Ok(None);
        };
        let bytes = array_of(text);
        self.taken = Some(History::new().then(&bytes));
        Ok(Some(bytes))
    }
}
