//! The notes that devices keep of their calls, for contracts alone.
ghost use Rattle.std.specs.Prelude.{◌≡◌, length};
ghost use Rattle.bg_protocol.specs.Devices.Honesty.{CountsFailed};
ghost use Rattle.bg_protocol.specs.Devices.Handed.{noted, noted_answer};

use crate::{DeviceFault, Taken};
use arrayvec::ArrayVec;
use bg_streams::History;

/// Returns the bytes that a take gave, if it gave any.
fn note_bytes(taken: &Option<ArrayVec<u8, 256>>) -> Option<History>
    ensures { noted result ≡ taken.now }
{
    match taken {
        None => None,
        Some(bytes) => Some(History::new().then(bytes)),
    }
}

/// Returns the result of a take as a link notes it for its `ghost taken`: the bytes that it gave,
/// if any, or the fault. It allocates nothing.
pub fn note_taken(taken: &Taken) -> Result<Option<History>, DeviceFault>
    ensures { noted_answer result ≡ taken.now }
{
    match taken {
        Ok(found) => Ok(note_bytes(found)),
        Err(fault) => Err(*fault),
    }
}

/// Returns the failures of a device after a call with this answer: one more where it is `Failed`,
/// else as many as before. A device counts by it, so that its contract holds (`cause` of each call
/// of [`crate::Link`] and [`crate::Keeper`]).
pub fn count_failed<T>(faults: &History, answer: &Result<T, DeviceFault>) -> History
    ensures { CountsFailed (length faults.now.bytes) (length result.bytes) answer.now }
{
    match answer {
        Err(DeviceFault::Failed) => faults.marked(),
        _ => faults.copy(),
    }
}
