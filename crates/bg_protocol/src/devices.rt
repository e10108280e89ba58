//! The devices of a world: a link between the parties, and a keeper for each party that saves.
ghost use Rattle.std.specs.Prelude.{◌≡◌, ◌+◌, List, Ok, Option, Result, ℕ, IfOk, IfSome};
ghost use Rattle.arrayvec.specs.ArrayVec.{ArrayVec as Items};
ghost use Rattle.bg_wire.specs.Saved.SlotLaws.{Slots, bytes_in};
ghost use Rattle.bg_wire.specs.declared.packets.Datagram.{Datagram as Sent};
ghost use Rattle.bg_protocol.specs.Devices.Honesty.{HasCause, CountsFailed, Sends, MayArrive, Writes};
ghost use Rattle.bg_protocol.specs.Devices.Handed.{handed};
ghost use Rattle.bg_protocol.specs.Devices.Plan.{KeeperPlan, failure_at, tear_at, read_failure_at, SendsBy, WritesBy};
ghost use Rattle.bg_protocol.specs.Devices.Plan.{ReadsBy};
ghost use Rattle.bg_protocol.specs.declared.devices.DeviceFault.{DeviceFault as Fault};
ghost use Rattle.bg_protocol.specs.declared.devices.DeviceFault.TheVariants.{Memory};
ghost use Rattle.bg_protocol.specs.declared.devices.plans.FailSend.{FailSend};

pub(crate) mod copies;
pub(crate) mod inboxes;
pub(crate) mod memory_keeper;
pub(crate) mod memory_net;
pub(crate) mod notes;
pub(crate) mod plans;
pub(crate) mod sent_datagrams;
pub(crate) mod sent_histories;
pub(crate) mod slot_texts;

use arrayvec::ArrayVec;
use bg_wire::{Datagram, Slot};
use std::alloc::{AllocError, AllocFailed};
use thiserror::Error;

/// The reason why a device did not do what it was asked to do.
#[derive(Clone, Copy, Debug, PartialEq, Eq, Error)]
pub enum DeviceFault {
    /// It failed by itself.
    Failed,
    /// There was no memory.
    Memory,
}

impl From<AllocError> for DeviceFault {
    ghost from_gives = { λ _ fault. fault ≡ Memory };

    fn from(_: AllocError) -> DeviceFault {
        DeviceFault::Memory
    }
}

impl<T: Drop> From<AllocFailed<T>> for DeviceFault {
    ghost from_gives = { λ _ fault. fault ≡ Memory };

    fn from(_: AllocFailed<T>) -> DeviceFault {
        DeviceFault::Memory
    }
}

/// The result of a take: the bytes of a datagram, at most 256, or `None` where the link has none
/// for the party.
pub type Taken = Result<Option<ArrayVec<u8, 256>>, DeviceFault>;

/// Carries datagrams between the parties (docs/PROTOCOL.md, "Devices"). It may lose them, repeat
/// them and change their order.
pub trait Link {
    /// The link is honest, in all of its calls: what it hands over to a party was sent to that
    /// party, or is no packet's encoding.
    ghost is_honest: { Type 0 };

    /// The sends that fail, where they are known.
    ghost plan: { Self → Option (List FailSend) };

    /// All datagrams that were sent, the oldest first.
    ghost sent: { Self → List Sent };

    /// The number of times that it has failed by itself.
    ghost faults: { Self → ℕ };

    /// The number of takes asked of it.
    ghost takes: { Self → ℕ };

    /// The number of sends asked of it.
    ghost sends: { Self → ℕ };

    /// The result of the last take.
    ghost taken: { Self → Result (Option (Items ℕ)) Fault };

    /// Sends a datagram.
    ///
    /// # Errors
    /// `Failed` where the link failed, `Memory` where there was no memory. In both cases the
    /// datagram may have gone out or not.
    fn send(&mut self, datagram: &Datagram) -> Result<(), DeviceFault>
        ensures sends { sends self.new ≡ sends self.old + 1 }
        ensures takes { takes self.new ≡ takes self.old }
        ensures taken { taken self.new ≡ taken self.old }
        ensures plan { plan self.new ≡ plan self.old }
        ensures cause { HasCause (faults self.old) (faults self.new) result }
        ensures honest { is_honest → Sends (sent self.old) datagram.now (sent self.new) result }
        ensures planned { IfSome (plan self.old) (λ failing.
            SendsBy (failure_at failing (sends self.new)) (sent self.old) datagram.now (sent self.new) result) }
        ensures counted { IfSome (plan self.old) (λ _. CountsFailed (faults self.old) (faults self.new) result) };

    /// Takes a datagram for the party, if there is one. A link in memory hands over the one that
    /// `pick` names.
    ///
    /// # Errors
    /// `Failed` where the link failed, `Memory` where there was no memory.
    fn take(&mut self, party: u8, pick: u32) -> Taken
        ensures takes { takes self.new ≡ takes self.old + 1 }
        ensures sends { sends self.new ≡ sends self.old }
        ensures taken { taken self.new ≡ result }
        ensures plan { plan self.new ≡ plan self.old }
        ensures cause { HasCause (faults self.old) (faults self.new) result }
        ensures same { is_honest → sent self.new ≡ sent self.old }
        ensures honest { is_honest →
            IfOk result (λ found. IfSome found (λ bytes. MayArrive (sent self.old) party bytes.items)) }
        ensures planned { IfSome (plan self.old) (λ _. result ≡ Ok (handed (sent self.old) party pick)) }
        ensures counted { IfSome (plan self.old) (λ _. CountsFailed (faults self.old) (faults self.new) result) };
}

/// Keeps the saved texts of one party in two slots (docs/PROTOCOL.md, "Devices").
pub trait Keeper {
    /// The keeper is honest, in all of its calls: a slot has what was last written to it, and reads
    /// return that. After a failed write it may have the first bytes, or nothing.
    ghost is_honest: { Type 0 };

    /// The party whose keeper it is, and the calls that fail, where they are known.
    ghost plan: { Self → Option KeeperPlan };

    /// The bytes of its slots.
    ghost slots: { Self → Slots };

    /// The number of times that it has failed by itself.
    ghost faults: { Self → ℕ };

    /// The number of writes asked of it.
    ghost writes: { Self → ℕ };

    /// The number of reads asked of it.
    ghost reads: { Self → ℕ };

    /// The result of the last write.
    ghost written: { Self → Result (Unit {0}) Fault };

    /// Writes bytes to a slot, in place of those that it has.
    ///
    /// # Errors
    /// `Failed` where the keeper failed, `Memory` where there was no memory. In both cases the slot
    /// may have what it had, or any number of the first of these bytes.
    fn write(&mut self, slot: Slot, bytes: &[u8]) -> Result<(), DeviceFault>
        ensures writes { writes self.new ≡ writes self.old + 1 }
        ensures reads { reads self.new ≡ reads self.old }
        ensures written { written self.new ≡ result }
        ensures plan { plan self.new ≡ plan self.old }
        ensures cause { HasCause (faults self.old) (faults self.new) result }
        ensures honest { is_honest → Writes (slots self.old) slot bytes.now (slots self.new) result }
        ensures planned { IfSome (plan self.old) (λ known.
            WritesBy (tear_at known (writes self.new)) (slots self.old) slot bytes.now (slots self.new) result) }
        ensures counted { IfSome (plan self.old) (λ _. CountsFailed (faults self.old) (faults self.new) result) };

    /// Reads the bytes of a slot.
    ///
    /// # Errors
    /// `Failed` where the keeper failed, `Memory` where there was no memory.
    fn read(&mut self, slot: Slot) -> Result<Vec<u8>, DeviceFault>
        ensures reads { reads self.new ≡ reads self.old + 1 }
        ensures writes { writes self.new ≡ writes self.old }
        ensures written { written self.new ≡ written self.old }
        ensures plan { plan self.new ≡ plan self.old }
        ensures cause { HasCause (faults self.old) (faults self.new) result }
        ensures same { is_honest → slots self.new ≡ slots self.old }
        ensures honest { is_honest → IfOk result (λ bytes. bytes.items ≡ bytes_in (slots self.old) slot) }
        ensures planned { IfSome (plan self.old) (λ known.
            ReadsBy (read_failure_at known (reads self.new)) (slots self.old) slot result) }
        ensures counted { IfSome (plan self.old) (λ _. CountsFailed (faults self.old) (faults self.new) result) };
}
