//! The plan of the calls of the devices in memory that fail.
ghost use Rattle.std.specs.Prelude.{◌≡◌, []};
ghost use Rattle.bg_protocol.specs.Devices.Plan.{failure_at, tear_at, read_failure_at, names_call};

/// The number at which the counts of calls stop. No entry names this call, nor any after it.
const NO_CALL: u32 = u32::MAX;

/// A write that fails.
#[derive(Clone, Copy, Debug, PartialEq, Eq)]
pub struct Tear {
    /// The party whose keeper it is: 0 for the referee, 1 or 2 for a seat. Any other party has
    /// none.
    pub party: u8,
    /// The number of the write at that keeper, from 1 to 4294967294. Any other number names none.
    pub nth: u32,
    /// The number of first bytes that it leaves in the slot, or the whole text where it has no
    /// more. `None` leaves the slot as it was.
    pub cut: Option<u32>,
}

/// A send that fails.
#[derive(Clone, Copy, Debug, PartialEq, Eq)]
pub struct FailSend {
    /// The number of the send, from 1 to 4294967294. Any other number names none.
    pub nth: u32,
    /// True where the datagram went out all the same.
    pub went: bool,
}

/// A read that fails.
#[derive(Clone, Copy, Debug, PartialEq, Eq)]
pub struct FailRead {
    /// The party whose keeper it is: 0 for the referee, 1 or 2 for a seat. Any other party has
    /// none.
    pub party: u8,
    /// The number of the read at that keeper, from 1 to 4294967294. Any other number names none.
    pub nth: u32,
}

/// The plan of the calls of the devices in memory that fail (docs/PROTOCOL.md, "Devices"). Each
/// device counts its calls of a kind from 1 over the whole run, those that failed included. Of two
/// entries for one call the first counts.
#[derive(Debug, Drop)]
pub struct Plan {
    /// The writes that fail.
    pub tears: Vec<Tear>,
    /// The sends that fail.
    pub sends: Vec<FailSend>,
    /// The reads that fail.
    pub reads: Vec<FailRead>,
}

/// Returns whether the number names a call.
fn names_call(nth: u32) -> bool
    ensures { result ≡ names_call nth }
{
    0 < nth && nth < NO_CALL
}

/// Returns the plan's entry for the send of this number.
pub(crate) fn find_failure(plan: &[FailSend], nth: u32) -> Option<FailSend>
    ensures { result ≡ failure_at plan.now nth }
{
    if !names_call(nth) {
        return None;
    }
    for failure in plan {
        if failure.nth == nth {
            return Some(*failure);
        }
    }
    None
}

/// Returns the plan's entry for the write of this number at the party's keeper.
pub(crate) fn find_tear(plan: &[Tear], party: u8, nth: u32) -> Option<Tear>
    ensures { result ≡ tear_at (record { party = party; tears = plan.now; reads = [] }) nth }
{
    if !names_call(nth) {
        return None;
    }
    for tear in plan {
        if tear.party == party && tear.nth == nth {
            return Some(*tear);
        }
    }
    None
}

/// Returns the plan's entry for the read of this number at the party's keeper.
pub(crate) fn find_read_failure(plan: &[FailRead], party: u8, nth: u32) -> Option<FailRead>
    ensures { result ≡ read_failure_at (record { party = party; tears = []; reads = plan.now }) nth }
{
    if !names_call(nth) {
        return None;
    }
    for failure in plan {
        if failure.party == party && failure.nth == nth {
            return Some(*failure);
        }
    }
    None
}
