//! The reasons why a device did not do what was asked of it, and why bytes did not go from one to
//! another.

/// A source or a sink did not do what was asked of it.
#[derive(Clone, Copy, Debug, PartialEq, Eq)]
pub struct StreamFault;

/// The reason why an input could not be read, or its answer could not be written.
#[derive(Clone, Copy, Debug, PartialEq, Eq)]
pub enum EngineFault {
    /// The source failed. Nothing was written.
    Read,
    /// The sink failed. It is not known how much was written.
    Write,
    /// Memory ran out. Nothing was written.
    Memory,
}
