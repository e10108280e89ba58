//! Cores alone, beside what the protocol says of them.

pub(crate) mod table;
pub(crate) mod tests;
