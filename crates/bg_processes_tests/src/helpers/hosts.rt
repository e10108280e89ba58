//! What the tests ask of the system.
use std::process::Abort;

/// A test on the system that it runs on.
pub(crate) trait Hosted {
    /// Returns the system.
    fn host(&self) -> &HostRuntime;
}

impl Hosted for HostRuntime {
    fn host(&self) -> &HostRuntime {
        self
    }
}

/// What tests need: the system itself, memory, and a way to end. With a bound for each of the
/// system's devices, the check takes some seconds more for each function and each test.
pub(crate) trait Host: Hosted + AllocGlobal + Abort {}

impl<R: Hosted + AllocGlobal + Abort> Host for R {}

/// Returns the number of the process.
pub(crate) fn process_number(host: &HostRuntime) -> u32 {
    std::process::id(host.process())
}
