//! Devices of which one call fails.
ghost use Rattle.std.specs.Prelude.{[], None, length};
ghost use Rattle.bg_protocol.specs.Devices.Handed.{noted_answer};
ghost use Rattle.bg_protocol.specs.Protocol.Slots.{empty_slots};

use bg_streams::History;
use bg_system::Failures;
use bg_wire::{Datagram, Slot};
use bg_world::{DeviceFault, Keeper, Link, Taken, count_failed, note_taken};
use std::cell::Cell;

/// The calls of all devices of a match, of which one fails.
#[derive(Drop)]
pub(crate) struct Calls {
    /// The number of the call that fails, from 1.
    failing: Cell<u32>,
    /// How many there were.
    pub(crate) made: Cell<u32>,
    /// Whether the one that failed was a read.
    pub(crate) failed_to_read: Cell<bool>,
    /// What the devices noted.
    pub(crate) failures: Failures,
}

impl Calls {
    pub(crate) fn new(failing: u32) -> Calls {
        Calls {
            failing: Cell::new(failing),
            made: Cell::new(0),
            failed_to_read: Cell::new(false),
            failures: Failures::new(),
        }
    }

    /// Lets the next call be the one that fails.
    pub(crate) fn fail_next(&self) {
        self.failing.set(self.made.get().wrapping_add(1));
    }

    /// Whether the next call is the one that fails.
    fn next_fails(&self) -> bool {
        let number = self.made.get().wrapping_add(1);
        self.made.set(number);
        number == self.failing.get()
    }
}

/// A device that counts its calls among those of all devices.
#[derive(Drop)]
pub(crate) struct Failing<'a, D> {
    pub(crate) device: D,
    pub(crate) calls: &'a Calls,
    asked: History,
    asked_too: History,
    faults: History,
    taken: Result<Option<History>, DeviceFault>,
    written: Result<(), DeviceFault>,
}

impl<'a, D> Failing<'a, D> {
    pub(crate) fn new(device: D, calls: &'a Calls) -> Failing<'a, D> {
        Failing {
            device,
            calls,
            asked: History::new(),
            asked_too: History::new(),
            faults: History::new(),
            taken: Ok(None),
            written: Ok(()),
        }
    }
}

fn try_send<D: Link>(
    device: &mut D,
    calls: &Calls,
    datagram: &Datagram,
) -> Result<(), DeviceFault> {
    if calls.next_fails() {
        return Err(DeviceFault::Failed);
    }
    device.send(datagram)
}

fn try_take<D: Link>(device: &mut D, calls: &Calls, party: u8, pick: u32) -> Taken {
    if calls.next_fails() {
        return Err(DeviceFault::Failed);
    }
    device.take(party, pick)
}

fn try_write<D: Keeper>(
    device: &mut D,
    calls: &Calls,
    slot: Slot,
    bytes: &[u8],
) -> Result<(), DeviceFault> {
    if calls.next_fails() {
        return Err(DeviceFault::Failed);
    }
    device.write(slot, bytes)
}

fn try_read<D: Keeper>(device: &mut D, calls: &Calls, slot: Slot) -> Result<Vec<u8>, DeviceFault> {
    if calls.next_fails() {
        calls.failed_to_read.set(true);
        return Err(DeviceFault::Failed);
    }
    device.read(slot)
}

impl<'a, D: Link> Link for Failing<'a, D> {
    ghost is_honest = { ⊥ };

    ghost plan = { λ _. None };

    ghost sent = { λ _. [] };

    ghost faults = { λ link. length link.faults.bytes };

    ghost takes = { λ link. length link.asked.bytes };

    ghost sends = { λ link. length link.asked_too.bytes };

    ghost taken = { λ link. noted_answer link.taken };

    fn send(&mut self, datagram: &Datagram) -> Result<(), DeviceFault> {
        self.asked_too = self.asked_too.marked();
        let result = try_send(&mut self.device, self.calls, datagram);
        self.faults = count_failed(&self.faults, &result);
        result
    }

    fn take(&mut self, party: u8, pick: u32) -> Taken {
        self.asked = self.asked.marked();
        let result = try_take(&mut self.device, self.calls, party, pick);
        self.faults = count_failed(&self.faults, &result);
        self.taken = note_taken(&result);
        result
    }
}

impl<'a, D: Keeper> Keeper for Failing<'a, D> {
    ghost is_honest = { ⊥ };

    ghost plan = { λ _. None };

    ghost slots = { λ _. empty_slots };

    ghost faults = { λ keeper. length keeper.faults.bytes };

    ghost writes = { λ keeper. length keeper.asked.bytes };

    ghost reads = { λ keeper. length keeper.asked_too.bytes };

    ghost written = { λ keeper. keeper.written };

    fn write(&mut self, slot: Slot, bytes: &[u8]) -> Result<(), DeviceFault> {
        self.asked = self.asked.marked();
        self.written = try_write(&mut self.device, self.calls, slot, bytes);
        self.faults = count_failed(&self.faults, &self.written);
        self.written
    }

    fn read(&mut self, slot: Slot) -> Result<Vec<u8>, DeviceFault> {
        self.asked_too = self.asked_too.marked();
        let result = try_read(&mut self.device, self.calls, slot);
        self.faults = count_failed(&self.faults, &result);
        result
    }
}
