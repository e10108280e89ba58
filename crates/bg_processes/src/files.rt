//! The files of parties, as keepers.

pub(crate) mod file_keepers;
