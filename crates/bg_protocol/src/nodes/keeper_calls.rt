//! Single calls of a keeper.
ghost use Rattle.std.specs.Prelude.{◌≡◌};
ghost use Rattle.bg_protocol.specs.Devices.DeviceCalls.{ReadsOnce, WritesOnce, read_outcome};
ghost use Rattle.bg_protocol.specs.Worlds.Views.{keeper_view};

use crate::{DeviceFault, Keeper, Outcome, RestoreCause};
use bg_wire::Slot;

/// Writes a text to a slot.
pub(crate) fn write_slot<K: Keeper>(
    keeper: &mut K,
    slot: Slot,
    text: &[u8],
) -> Result<(), DeviceFault>
    ensures { WritesOnce K.is_honest (keeper_view K.Keeper keeper.old) slot text.now
        result (keeper_view K.Keeper keeper.new) }
{
    keeper.write(slot, text)
}

/// Reads a slot.
pub(crate) fn read_slot<K: Keeper>(keeper: &mut K, slot: Slot) -> Result<Vec<u8>, DeviceFault>
    ensures { ReadsOnce K.is_honest (keeper_view K.Keeper keeper.old) slot result (keeper_view K.Keeper keeper.new) }
{
    keeper.read(slot)
}

/// Returns the outcome of a fault of a read.
pub(crate) fn read_outcome(fault: DeviceFault) -> Outcome
    ensures { result ≡ read_outcome fault }
{
    match fault {
        DeviceFault::Failed => Outcome::RestoreFault(RestoreCause::Device),
        DeviceFault::Memory => Outcome::Memory,
    }
}
