//! The system's results as results of devices.

use bg_world::DeviceFault;
use std::io;
use std::io::ErrorKind;

/// Converts the system's result of a call to a device's: its error is want of memory, or any other
/// failure.
pub(crate) fn answered<T>(answer: io::Result<T>) -> Result<T, DeviceFault> {
    match answer {
        Ok(value) => Ok(value),
        Err(error) => match error.kind() {
            ErrorKind::OutOfMemory => Err(DeviceFault::Memory),
            _ => Err(DeviceFault::Failed),
        },
    }
}
