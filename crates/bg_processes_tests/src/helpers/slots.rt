//! What calls of the files of a party come to, over what stands in for the system.
use crate::helpers::devices::keeper;
use crate::helpers::lasting::lasting;
use crate::helpers::stand_ins::StandIn;
use bg_processes::{Failures, FileKeeper};
use bg_wire::Slot;
use bg_world::{DeviceFault, Keeper};
use std::process::Abort;

pub(crate) type Slots<'a> = FileKeeper<'a, StandIn<'a>>;

/// The files of a party in a folder. They last as long as the process.
pub(crate) fn slots_of<'a>(
    rt: &(impl AllocGlobal + Abort),
    files: &'a StandIn<'a>,
    folder: &str,
    party: u8,
    failures: &'a Failures,
) -> &'a mut Slots<'a> {
    lasting(rt, keeper(rt, files, folder, party, failures))
}

/// Why a slot can't be written, if it can't.
pub(crate) fn write(slots: &mut Slots<'_>, slot: Slot, bytes: &[u8]) -> Option<DeviceFault> {
    slots.write(slot, bytes).err()
}

/// Why a slot can't be read, if it can't.
pub(crate) fn read(slots: &mut Slots<'_>, slot: Slot) -> Option<DeviceFault> {
    slots.read(slot).err()
}

/// Whether a slot has these bytes.
pub(crate) fn has(slots: &mut Slots<'_>, slot: Slot, bytes: &[u8]) -> bool {
    match slots.read(slot) {
        Ok(found) => found.as_slice() == bytes,
        Err(_) => false,
    }
}
