//! Keepers that have a fence.
ghost use Rattle.bg_protocol.specs.Devices.DeviceCalls.{WritesOnce};
ghost use Rattle.bg_protocol.specs.Worlds.Views.{keeper_view};
ghost use Rattle.bg_fences.specs.FencedWrites.{IsBegunSave, IsWriteFenced};

use bg_protocol::{DeviceFault, Keeper, Save};

/// A keeper behind a fence, which any number of processes of a party may share (docs/PROTOCOL.md,
/// "Many processes of one party"). Nodes save over it by [`save_referee`](crate::save_referee) and
/// [`save_seat`](crate::save_seat). Their own call `save` writes by [`Keeper::write`], for which no
/// fence is promised here.
pub trait FencedKeeper: Keeper {
    /// States that the keeper keeps the fence: it takes a save only if its number is one more than
    /// that of the save that the slots restore. A store about which nothing can be proved doesn't
    /// claim this.
    ghost is_fenced: { Type 0 };

    /// Writes the text of a save to its slot, if the save is the next one. Nothing comes between
    /// the check and the write, whatever other processes do.
    ///
    /// # Errors
    /// `Failed` if the save is not the next one; then nothing is written. Otherwise those of
    /// [`Keeper::write`], and only the next save may be torn.
    fn write_save(&mut self, save: &Save) -> Result<(), DeviceFault>
        requires { IsBegunSave save.now }
        ensures writes { WritesOnce Self.is_honest (keeper_view Self.Keeper self.old) save.now.slot save.now.text.items
            result (keeper_view Self.Keeper self.new) }
        ensures fence { is_fenced →
            IsWriteFenced (Self.slots self.old) save.now.number result (Self.slots self.new) };
}
