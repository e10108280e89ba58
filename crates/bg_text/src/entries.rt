//! The lines of entries and actions, read and written.

pub(crate) mod lines;
pub(crate) mod names;
pub(crate) mod pairs;
pub(crate) mod words;
pub(crate) mod writing;
