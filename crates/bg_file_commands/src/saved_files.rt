//! Reading the saved files of parties.

use crate::attempts::done_at;
use bg_console::{allocated, slot_path};
use bg_reports::{Ending, SlotBytes};
use bg_system::read_saved;
use bg_wire::Slot;

/// Reads the bytes of the two files of a party in a folder.
pub(crate) fn slots_of(rt: &HostRuntime, folder: &str, party: u8) -> Result<SlotBytes, Ending> {
    Ok(SlotBytes {
        zero: slot_of(rt, folder, party, Slot::Zero)?,
        one: slot_of(rt, folder, party, Slot::One)?,
    })
}

/// Reads the bytes of a party's file in a folder.
pub(crate) fn slot_of(
    rt: &HostRuntime,
    folder: &str,
    party: u8,
    slot: Slot,
) -> Result<Vec<u8>, Ending> {
    let path = allocated(rt, slot_path(rt.alloc(), folder, party, slot))?;
    saved_bytes(rt, path.as_str())
}

/// Reads the bytes of a saved file.
pub(crate) fn saved_bytes(rt: &HostRuntime, path: &str) -> Result<Vec<u8>, Ending> {
    done_at(rt, path, " could not be read", read_saved(rt, path))
}
